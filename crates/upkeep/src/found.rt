// Moves found for a list, by number.
ghost use Rattle.std.specs.Prelude.{◌<◌};
ghost use Rattle.memory.specs.Tests.{is_flagged};
ghost use Rattle.upkeep.specs.Found as spec;

use memory::Board;
use numbers::{WORDS, add, empty};

// The numbers, and how many they are.
#[derive(Clone, Copy)]
pub struct Found {
    pub numbers: [u64; WORDS],
    pub count: usize,
}

// Adds the number of the move at place i if the move is one of those found, and says how many
// numbers it added.
pub fn add_found(b: &Board, i: usize, found: bool, numbers: &mut [u64; WORDS]) -> usize
    requires { i < b.now.head.count }
    ensures { spec.Adds b.now.head b.now.bytes.now i found numbers.old
        numbers.new result }
{
    if found {
        add(numbers, b.number_at(i));
        return 1;
    }
    0
}

// Gives the listed ones.
pub fn find_listed(b: &Board) -> Found
    ensures { spec.Finds b.now.head (is_flagged b.now.head.size b.now.bytes.now) b.now.bytes.now
        result }
{
    let n = b.head.count;
    let mut numbers = empty();
    let mut count: usize = 0;
    for i in 0..n {
        let number = b.number_at(i);
        if b.is_listed(number) {
            add(&mut numbers, number);
            count += 1;
        }
    }
    Found { numbers, count }
}
