// A set of numbers below 4,096: 64 words of 64 bits.
#![tactic(auto)]

ghost use Rattle.std.specs.Prelude.{false, ◌≡◌, ℕ, ◌<◌};
ghost use Rattle.numbers.specs.Set.{in_set, With};

pub const WORDS: usize = 64;

// Makes the set that has no number.
pub fn empty() -> [u64; WORDS]
    ensures { (n : ℕ) → in_set result n ≡ false }
{
    [0u64; WORDS]
}

// Says whether n is in the set.
pub fn has(set: &[u64; WORDS], n: u16) -> bool
    requires { n < 4096 }
    ensures { result ≡ in_set set.now n }
{
    let at = (n / 64) as usize;
    (set[at] >> (n % 64)) & 1 == 1
}

// Puts n into the set.
pub fn add(set: &mut [u64; WORDS], n: u16)
    requires { n < 4096 }
    ensures { With set.old n set.new }
{
    let at = (n / 64) as usize;
    set[at] |= 1u64 << (n % 64);
}
