// The region of two addresses: a square, by its two corners and its side.
ghost use Rattle.std.specs.Prelude.{◌≡◌, ℕ, map, ◌≤◌, ◌<◌, ◌*◌, ◌^◌, take};
ghost use Rattle.zorder.specs.Address.{row_costs, cost_bits, padded};
ghost use Rattle.zorder.specs.Region as definition;
ghost use Rattle.zorder.specs.Promise.{RegionPromise};
ghost use Rattle.zorder.specs.Words.{value};

use crate::interleave::cost_count_bad;
use crate::refusal::check;
use crate::separate::{separated, too_large};
use crate::{AddressWords, BITS, COSTS, Refusal, Square};

// How many groups of the two addresses are not kept.
fn unkept(d: usize, a: u128, b: u128) -> usize
    requires { (1 ≤ d) × (d ≤ row_costs) × (a < 2 ^ (16 * d)) × (b < 2 ^ (16 * d)) }
    ensures { (result ≡ definition.unkept d a b) × (result ≤ 16) }
{
    let zeros = u128::leading_zeros(a ^ b) as usize;
    BITS - (zeros - (128 - BITS * d)) / d
}

// A cost with its last u bits filled with 0.
fn zeros_below(u: usize, c: u16) -> u16
    requires { u ≤ 16 }
    ensures { result ≡ definition.zeros_below 1 u c }
{
    (((c as u32) >> u) << u) as u16
}

// Gives the first d costs, each as `fill` leaves it where u groups are not kept.
fn corner<F: Fn(usize, u16) -> u16>(
    d: usize,
    u: usize,
    costs: [u16; COSTS],
    fill: F,
) -> [u16; COSTS]
    ghost filled: { ℕ → ℕ → ℕ }
    requires room { d ≤ row_costs }
    requires callable { (c : ℕ) → c < 2 ^ cost_bits → F.pre fill u c }
    requires fills { (c e : ℕ) → c < 2 ^ cost_bits → F.post fill u c e → e ≡ filled u c }
    ensures { result ≡ padded d (map (filled u) (take d costs)) }
{
    let mut corner = [0u16; COSTS];
    for i in 0..d {
        corner[i] = fill(u, costs[i]);
    }
    corner
}

// Gives the first d costs with their last u bits filled with 0: the near corner of a region that
// does not keep u groups.
pub(crate) fn near(d: usize, u: usize, costs: [u16; COSTS]) -> [u16; COSTS]
    requires { (d ≤ row_costs) × (u ≤ 16) }
    ensures { result ≡ padded d (map (definition.zeros_below 1 u) (take d costs)) }
{
    corner(d, u, costs, zeros_below)
}

// A cost with its last u bits filled with 1.
fn ones_below(u: usize, c: u16) -> u16
    requires { u ≤ 16 }
    ensures { result ≡ definition.ones_below 1 u c }
{
    zeros_below(u, c) + (((1u32 << u) - 1) as u16)
}

// Gives the far corner likewise.
pub(crate) fn far(d: usize, u: usize, costs: [u16; COSTS]) -> [u16; COSTS]
    requires { (d ≤ row_costs) × (u ≤ 16) }
    ensures { result ≡ padded d (map (definition.ones_below 1 u) (take d costs)) }
{
    corner(d, u, costs, ones_below)
}

// Gives the region of two addresses, or says why there is none.
pub fn region(d: usize, a: AddressWords, b: AddressWords) -> Result<Square, Refusal>
    ensures { RegionPromise d (value a) (value b) result }
{
    let first = u128::from(a);
    let last = u128::from(b);
    check(cost_count_bad(d), Refusal::BadCostCount)?;
    check(too_large(d, first), Refusal::BadArgument)?;
    check(too_large(d, last), Refusal::BadArgument)?;
    check(last < first, Refusal::BadArgument)?;
    let u = unkept(d, first, last);
    let costs = separated(d, first);
    Ok(Square {
        near: near(d, u, costs),
        far: far(d, u, costs),
        side: 1u32 << u,
    })
}
