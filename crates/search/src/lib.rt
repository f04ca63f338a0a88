// The search over the places of a board, and moves as columns, asked 64 at a time.
#![tactic(auto)]

mod columns;
mod search;

pub use columns::{CELLS, COLUMNS, fill, fits_column, put, some_fits};
pub use search::{
    Among, Index, RUN, RUNS, bounds_at, corner_with, corners_of, fits_at, in_blocks, looks,
    looks_at, next_within, run_end, seen, seen_at,
};
