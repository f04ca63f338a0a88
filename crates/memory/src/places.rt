// Where each field stands (docs/DECISIONS.md has the picture). No other file of code has these
// numbers.
ghost use Rattle.std.specs.Prelude.{◌≡◌, ◌≤◌, ◌<◌};
ghost use Rattle.promises.specs.Layout as layout;

pub(crate) const SIZE_PLACE: usize = 0;

pub(crate) const DIMENSION_PLACE: usize = 2;

pub(crate) const FORMAT_PLACE: usize = 3;

pub(crate) const COUNT_PLACE: usize = 4;

// Gives where the number of the move at place i stands.
pub(crate) fn number_place(i: usize) -> usize
    requires { i < 4096 }
    ensures { result ≡ layout.number_place i }
{
    16 + 2 * i
}

// Gives where the height at place i stands.
pub(crate) fn height_place(c: usize, i: usize) -> usize
    requires { (i < c) × (c ≤ 4096) }
    ensures { result ≡ layout.height_place c i }
{
    16 + 2 * c + i
}

// Gives where the flag of a number's move stands.
pub(crate) fn flag_place(c: usize, number: u16) -> usize
    requires { (number < c) × (c ≤ 4096) }
    ensures { result ≡ layout.flag_place c number }
{
    16 + 3 * c + (number as usize)
}

// Gives where the block of a number's move stands.
pub(crate) fn block_place(c: usize, number: u16) -> usize
    requires { (number < c) × (c ≤ 4096) }
    ensures { result ≡ layout.block_place c number }
{
    16 + 4 * c + (number as usize)
}

// Gives where the first cost of a number's move stands; the others follow it, two bytes each.
pub(crate) fn costs_place(c: usize, number: u16) -> usize
    requires { (number < c) × (c ≤ 4096) }
    ensures { result ≡ layout.cost_place c number 0 }
{
    16 + 5 * c + 16 * (number as usize)
}

// Gives where number i of the work area stands.
pub(crate) fn work_place(c: usize, i: usize) -> usize
    requires { (i < c) × (c ≤ 4096) }
    ensures { result ≡ layout.work_place c i }
{
    16 + 21 * c + 2 * i
}
