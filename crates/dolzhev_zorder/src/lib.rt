// Addresses and regions for C and Rust: the calls of `zorder` with plain structs. They refuse as
// those do.
#![tactic(auto)]

ghost use Rattle.dolzhev_zorder.specs.Exported.{AddressExported, CostsExported};
ghost use Rattle.dolzhev_zorder.specs.Exported.{RegionExported};

use zorder::{AddressWords, COSTS};

#[repr(C)]
#[derive(Clone, Copy)]
pub struct Costs {
    pub costs: [u16; COSTS],
}

const NO_COSTS: Costs = Costs { costs: [0; COSTS] };

// Each answer: document 01's number of the refusal and its detail, then what is told, zero where
// refused.
#[repr(C)]
#[derive(Clone, Copy)]
pub struct AddressAnswer {
    pub refusal: usize,
    pub detail: usize,
    pub address: AddressWords,
}

#[repr(C)]
#[derive(Clone, Copy)]
pub struct CostsAnswer {
    pub refusal: usize,
    pub detail: usize,
    pub costs: Costs,
}

#[repr(C)]
#[derive(Clone, Copy)]
pub struct RegionAnswer {
    pub refusal: usize,
    pub detail: usize,
    pub near: Costs,
    pub far: Costs,
    pub side: usize,
}

// Gives the address of the first d costs.
#[unsafe(no_mangle)]
pub extern "C" fn dolzhev_address(d: usize, costs: Costs) -> AddressAnswer
    ensures { AddressExported d costs.costs result }
{
    match zorder::address(d, costs.costs) {
        Ok(address) => AddressAnswer {
            refusal: 0,
            detail: 0,
            address,
        },
        Err(refusal) => AddressAnswer {
            refusal: usize::from(refusal),
            detail: 0,
            address: AddressWords { upper: 0, lower: 0 },
        },
    }
}

// Gives the d costs of an address.
#[unsafe(no_mangle)]
pub extern "C" fn dolzhev_costs_of(d: usize, address: AddressWords) -> CostsAnswer
    ensures { CostsExported d address result }
{
    match zorder::costs(d, address) {
        Ok(costs) => CostsAnswer {
            refusal: 0,
            detail: 0,
            costs: Costs { costs },
        },
        Err(refusal) => CostsAnswer {
            refusal: usize::from(refusal),
            detail: 0,
            costs: NO_COSTS,
        },
    }
}

// Gives near corner, far corner and side of the region of two addresses.
#[unsafe(no_mangle)]
pub extern "C" fn dolzhev_region(d: usize, a: AddressWords, b: AddressWords) -> RegionAnswer
    ensures { RegionExported d a b result }
{
    match zorder::region(d, a, b) {
        Ok(square) => {
            let n = square.near;
            let f = square.far;
            RegionAnswer {
                refusal: 0,
                detail: 0,
                near: Costs { costs: n },
                far: Costs { costs: f },
                side: square.side as usize,
            }
        }
        Err(refusal) => RegionAnswer {
            refusal: usize::from(refusal),
            detail: 0,
            near: NO_COSTS,
            far: NO_COSTS,
            side: 0,
        },
    }
}
