// An address in two words, for callers, and as a number.
ghost use Rattle.std.specs.Prelude.{◌≡◌};
ghost use Rattle.zorder.specs.Words.{value, words_of};

use crate::AddressWords;

impl From<AddressWords> for u128 {
    ghost from_gives = { λ a n. n ≡ value a };

    fn from(a: AddressWords) -> u128 {
        (u128::from(a.upper) << 64) | u128::from(a.lower)
    }
}

impl From<u128> for AddressWords {
    ghost from_gives = { λ n a. a ≡ words_of n };

    fn from(n: u128) -> AddressWords {
        AddressWords {
            upper: (n >> 64) as u64,
            lower: (n % (1 << 64)) as u64,
        }
    }
}
