// From an address to its costs.
ghost use Rattle.std.specs.Prelude.{◌≡◌, ◌≤◌, ◌<◌, ◌+◌, ◌*◌};
ghost use Rattle.zorder.specs.Address as definition;
ghost use Rattle.zorder.specs.Address.{row_costs};
ghost use Rattle.zorder.specs.Refusal.{address_bad};
ghost use Rattle.zorder.specs.Promise.{CostsPromise};
ghost use Rattle.zorder.specs.Words.{value};

use crate::interleave::cost_count_bad;
use crate::refusal::check;
use crate::{AddressWords, BITS, COSTS, Refusal};

// The cost whose bits stand at place e, counted from the right, of each group of d.
fn cost_in(d: usize, a: u128, e: usize) -> u16
    requires { (e < d) × (d ≤ row_costs) }
    ensures { result ≡ definition.cost_from_bits d e 16 a }
{
    let mut c: u16 = 0;
    for j in (0..BITS).rev() {
        c = (c << 1) | ((a >> (d * j + e)) & 1) as u16;
    }
    c
}

// Gives the d costs of an address, and zeros past them.
pub(crate) fn separated(d: usize, a: u128) -> [u16; COSTS]
    requires { d ≤ row_costs }
    ensures { result ≡ definition.padded d (definition.costs_of d a) }
{
    let mut costs = [0u16; COSTS];
    for i in 0..d {
        costs[i] = cost_in(d, a, d - 1 - i);
    }
    costs
}

// Says whether a has a bit beyond the 16 groups of d. With eight costs no number has.
pub(crate) fn too_large(d: usize, a: u128) -> bool
    requires { d ≤ row_costs }
    ensures { result ≡ address_bad d a }
{
    (u128::leading_zeros(a) as usize) < 128 - BITS * d
}

// Gives the costs of an address, or says why there are none.
pub fn costs(d: usize, address: AddressWords) -> Result<[u16; COSTS], Refusal>
    ensures { CostsPromise d (value address) result }
{
    let a = u128::from(address);
    check(cost_count_bad(d), Refusal::BadCostCount)?;
    check(too_large(d, a), Refusal::BadArgument)?;
    Ok(separated(d, a))
}
