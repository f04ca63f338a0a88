// From costs to their address.
ghost use Rattle.std.specs.Prelude.{◌≡◌, ◌≤◌, ◌<◌, take, drop};
ghost use Rattle.zorder.specs.Address as definition;
ghost use Rattle.zorder.specs.Address.{row_costs};
ghost use Rattle.zorder.specs.Refusal.{all_zero, cost_count_bad};
ghost use Rattle.zorder.specs.Promise.{AddressPromise};

use crate::refusal::check;
use crate::{AddressWords, BITS, COSTS, Refusal};

// Gives the group for bit j of the first d costs.
pub(crate) fn group(d: usize, costs: [u16; COSTS], j: usize) -> u64
    requires { (d ≤ row_costs) × (j < 16) }
    ensures { result ≡ definition.group j (take d costs) }
{
    let mut g: u64 = 0;
    for c in &costs[..d] {
        g = (g << 1) | ((u64::from(*c) >> j) & 1);
    }
    g
}

// The groups of the first d costs, highest first.
fn interleaved(d: usize, costs: [u16; COSTS]) -> u128
    requires { d ≤ row_costs }
    ensures { result ≡ definition.address d costs }
{
    let mut a: u128 = 0;
    for j in (0..BITS).rev() {
        a = (a << d) | u128::from(group(d, costs, j));
    }
    a
}

// Says whether the costs past d are zero.
pub fn zero_past(d: usize, costs: [u16; COSTS]) -> bool
    requires { d ≤ row_costs }
    ensures { result ≡ all_zero (drop d costs) }
{
    costs.iter().skip(d).all(|c| *c == 0)
}

// Says whether no board has d costs.
pub fn cost_count_bad(d: usize) -> bool
    ensures { result ≡ cost_count_bad d }
{
    !(2..=COSTS).contains(&d)
}

// Gives the address of a row of costs, or says why there is none.
pub fn address(d: usize, costs: [u16; COSTS]) -> Result<AddressWords, Refusal>
    ensures { AddressPromise d costs result }
{
    check(cost_count_bad(d), Refusal::BadCostCount)?;
    check(!zero_past(d, costs), Refusal::BadArgument)?;
    Ok(AddressWords::from(interleaved(d, costs)))
}
