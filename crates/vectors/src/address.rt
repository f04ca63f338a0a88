// Addresses and regions.
ghost use Rattle.std.specs.Prelude.{◌≡◌, MatchResult, replicate};
ghost use Rattle.zorder.specs.Address.{row_costs};

use crate::said::{Said, put, put_all};
use crate::values::{costs, value, value_after};
use crate::word::Address;
use std::io;
use zorder::{AddressWords, COSTS, Refusal, Square};

// The number of a call of `zorder`, 0 if it accepts, and its detail, which is always 0.
fn put_number<T>(
    rt: &impl Print,
    values: &[u64],
    s: Said,
    answer: &Result<T, Refusal>,
) -> io::Result<Said> {
    let number = match answer {
        Ok(_) => 0,
        Err(refusal) => usize::from(*refusal) as u64,
    };
    let r = put(rt, values, s, number)?;
    put(rt, values, r, 0)
}

fn put_costs(rt: &impl Print, values: &[u64], s: Said, costs: [u16; COSTS]) -> io::Result<Said> {
    put_all(rt, values, s, &costs)
}

// The address that a call tells, zero where it refuses.
fn told_address(r: Result<AddressWords, Refusal>) -> AddressWords
    ensures { MatchResult r (λ a. result ≡ a) (λ e. (result.upper ≡ 0) × (result.lower ≡ 0)) }
{
    r.unwrap_or(AddressWords { upper: 0, lower: 0 })
}

// The costs that a call tells, zeros where it refuses.
fn told_costs(r: Result<[u16; COSTS], Refusal>) -> [u16; COSTS]
    ensures { MatchResult r (λ cs. result ≡ cs) (λ e. result ≡ replicate row_costs 0) }
{
    r.unwrap_or([0; COSTS])
}

// The region that a call tells, zeros where it refuses.
fn told_region(r: Result<Square, Refusal>) -> Square
    ensures { MatchResult r (λ told. result ≡ told) (λ e. (result.near ≡ replicate row_costs 0)
        × (result.far ≡ replicate row_costs 0) × (result.side ≡ 0)) }
{
    r.unwrap_or(Square {
        near: [0; COSTS],
        far: [0; COSTS],
        side: 0,
    })
}

// The address whose upper word stands at place i.
fn words(values: &[u64], i: usize) -> AddressWords {
    AddressWords {
        upper: value(values, i),
        lower: value_after(values, i, 1),
    }
}

fn address(rt: &impl Print, values: &[u64], d: usize, s: Said) -> io::Result<Said> {
    let r = zorder::address(d, costs(values, 1));
    let judged = put_number(rt, values, s, &r)?;
    let a = told_address(r);
    let upper = put(rt, values, judged, a.upper)?;
    put(rt, values, upper, a.lower)
}

fn costs_of(rt: &impl Print, values: &[u64], d: usize, s: Said) -> io::Result<Said> {
    let r = zorder::costs(d, words(values, 1));
    let judged = put_number(rt, values, s, &r)?;
    put_costs(rt, values, judged, told_costs(r))
}

fn region(rt: &impl Print, values: &[u64], d: usize, s: Said) -> io::Result<Said> {
    let r = zorder::region(d, words(values, 1), words(values, 3));
    let judged = put_number(rt, values, s, &r)?;
    let square = told_region(r);
    let corner = put_costs(rt, values, judged, square.near)?;
    let corners = put_costs(rt, values, corner, square.far)?;
    put(rt, values, corners, square.side as u64)
}

// Answers a line on addresses or regions.
pub fn answer(rt: &impl Print, values: &[u64], asked: Address, s: Said) -> io::Result<Said> {
    let d = value(values, 0) as usize;
    match asked {
        Address::Address => address(rt, values, d, s),
        Address::Costs => costs_of(rt, values, d, s),
        Address::Region => region(rt, values, d, s),
    }
}
