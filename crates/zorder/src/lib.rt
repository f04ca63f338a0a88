// Addresses and regions in Z-order, without the tree (document 01, "Moves, addresses, regions").
//
// The calls `address`, `costs` and `region` have no `requires`: they refuse. The functions of
// `between` serve the crates above, which name no address: a wider address changes this crate
// alone. So do `zero_past` and `cost_count_bad`.
#![tactic(auto)]

mod between;
mod corners;
mod interleave;
mod refusal;
mod separate;
mod two_words;

pub use between::{compare, far_of, near_of, side_of};
pub use corners::region;
pub use interleave::{address, cost_count_bad, zero_past};
pub use refusal::Refusal;
pub use separate::costs;

// How many costs a row holds.
pub const COSTS: usize = 8;

// How many bits a cost has, and so how many groups an address has.
pub const BITS: usize = 16;

// An address of up to 128 bits: upper * 2^64 + lower.
#[repr(C)]
#[derive(Clone, Copy)]
pub struct AddressWords {
    pub upper: u64,
    pub lower: u64,
}

// What a region is told by: it is a square.
#[derive(Clone, Copy)]
pub struct Square {
    pub near: [u16; COSTS],
    pub far: [u16; COSTS],
    pub side: u32,
}
