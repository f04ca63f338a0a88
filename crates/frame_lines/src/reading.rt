// A line as far as it was read, of any length and any bytes: what decides which frame it is, and
// nothing else; and how the input falls into lines.
ghost use Rattle.std.specs.Prelude.{[], ◌≡◌, ◌+◌, min};
ghost use Rattle.frame_lines.specs.Reading as spec;

use crate::digits::is_digit;
use zorder::COSTS;

// How many digits the longest frame has: two of its first byte, four of a number and four of each
// cost.
pub const DIGITS: usize = 6 + 4 * COSTS;

#[derive(Clone, Copy)]
pub struct Line {
    // Its first bytes, as many as the longest frame has; zeros past its end.
    pub first: [u8; DIGITS],
    // How many bytes it has; DIGITS + 1 stands for that many or more.
    pub count: usize,
    // Whether it has an odd number of bytes.
    pub odd: bool,
    // Whether all its bytes are digits.
    pub spelled: bool,
}

// A line with bytes more, and the place of the line end that it ends at; none where none came, and
// all of them were read.
#[derive(Clone, Copy)]
pub struct Read {
    pub line: Line,
    pub end: Option<usize>,
}

// The kept bytes with byte n, if it is among them.
fn placed(mut first: [u8; DIGITS], n: usize, b: u8) -> [u8; DIGITS]
    ensures { spec.ByteKept first n b result }
{
    if n < DIGITS {
        first[n] = b;
    }
    first
}

// The count with one byte more.
fn counted(n: usize) -> usize
    ensures { result ≡ min (n + 1) (spec.most_digits + 1) }
{
    n.min(DIGITS) + 1
}

impl Line {
    // Starts a line: no byte of it was read.
    pub fn new() -> Self
        ensures { spec.Judged [] result }
    {
        Line {
            first: [0u8; DIGITS],
            count: 0,
            odd: false,
            spelled: true,
        }
    }

    // Adds a byte.
    fn step(self, b: u8) -> Self
        ensures { spec.Stepped self b result }
    {
        let first = self.first;
        let n = self.count;
        Line {
            first: placed(first, n, b),
            count: counted(n),
            odd: !self.odd,
            spelled: is_digit(b) && self.spelled,
        }
    }

    // Says whether a byte of the line was read: it is a line then even if the input ends here.
    pub fn is_begun(self) -> bool
        ensures { spec.LastLine self result }
    {
        self.count != 0
    }
}

// Reads on up to a line end, or to the last of these bytes.
pub fn read_on(line: Line, bytes: &[u8]) -> Read
    ensures { spec.LineRead line bytes.now result }
{
    let mut l = line;
    for (i, &b) in bytes.iter().enumerate() {
        if b == b'\n' {
            return Read {
                line: l,
                end: Some(i),
            };
        }
        l = l.step(b);
    }
    Read { line: l, end: None }
}
