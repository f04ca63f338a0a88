// The list over the moves in open blocks: each is held against those in open blocks that stand
// before it only. An earlier move that is nowhere greater hides: of equal costs the lower number
// stands first.
ghost use Rattle.std.specs.Prelude.{◌≡◌, ◌<◌};
ghost use Rattle.memory.specs.Held.{SoundAt, move_held};
ghost use Rattle.search.specs.declared.search.Among.TheVariants.{InBlocks};
ghost use Rattle.upkeep.specs.Found.{FindsMoves};
ghost use Rattle.hours.specs.Open.{is_shown, shown_in};

use memory::Board;
use numbers::empty;
use search::{Among, Index, bounds_at, fits_at, in_blocks};
use upkeep::{Found, add_found};

// What becomes of a move: its block is shut, or a move at this place hides it, or it is shown.
#[derive(Clone, Copy)]
enum Standing {
    Shut,
    Hidden(usize),
    Shown,
}

impl Standing {
    fn is_shown(self) -> bool
        ensures { result ≡ is_shown self }
    {
        matches!(self, Standing::Shown)
    }
}

// Says what becomes of the move at place i; if `last` hides it, that is the place. A listed one is
// not held against others.
fn standing_of(open: &Index, blocks: u64, i: usize, last: usize) -> Standing
    requires sound_at { SoundAt open.now.board.head open.now.board.bytes.now
        × (i < open.now.board.head.count) }
    requires open { open.now.among ≡ InBlocks blocks }
    ensures { is_shown result ≡ shown_in open.now.board.head blocks open.now.board.bytes.now
        (move_held open.now.board.head open.now.board.bytes.now i) }
{
    let b = &open.board;
    let number = b.number_at(i);
    if !in_blocks(b.bytes, b.head.size, number, blocks) {
        return Standing::Shut;
    }
    if b.is_listed(number) {
        return Standing::Shown;
    }
    let q = bounds_at(b, i);
    if last < i {
        if fits_at(b, last, Among::InBlocks(blocks), q) {
            return Standing::Hidden(last);
        }
    }
    match open.next_within(0, i, q) {
        Some(hider) => Standing::Hidden(hider),
        None => Standing::Shown,
    }
}

// Finds the moves in open blocks that none of them hides. What hid one move often hides the next.
pub(crate) fn find_shown(b: &Board, blocks: u64) -> Found
    requires { SoundAt b.now.head b.now.bytes.now }
    ensures { FindsMoves b.now.head (shown_in b.now.head blocks b.now.bytes.now) b.now.bytes.now
        result }
{
    let n = b.head.count;
    let open = Index::new(b, Among::InBlocks(blocks));
    let mut numbers = empty();
    let mut count: usize = 0;
    let mut last = 0;
    for i in 0..n {
        let standing = standing_of(&open, blocks, i, last);
        count += add_found(b, i, standing.is_shown(), &mut numbers);
        if let Standing::Hidden(hider) = standing {
            last = hider;
        }
    }
    Found { numbers, count }
}
