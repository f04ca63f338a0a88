// The input as it comes, in parts of any length that may end in the middle of a line.
ghost use Rattle.framing.specs.Serving.{HoldsState, Lent};
ghost use Rattle.framing.specs.Feeding.{AtStart, Feeds, Finishes};

use crate::serving::answer;
use frame_lines::{Line, read_on};

// What was read of a line, and the board's number of costs, 0 before the first accepted load.
#[derive(Clone, Copy)]
pub struct Point {
    pub line: Line,
    pub dimension: usize,
}

// The point after `taken` bytes of the input; the answer that they called for has `answered` bytes.
#[derive(Clone, Copy)]
pub struct Fed {
    pub point: Point,
    pub taken: usize,
    pub answered: usize,
}

// Gives the point before the first byte.
pub fn start() -> Point
    ensures { AtStart result }
{
    Point {
        line: Line::new(),
        dimension: 0,
    }
}

// Takes bytes up to a line end and with it, or all where there is none. The answer to a line that
// ended is put at the start of `out`.
pub fn feed(p: Point, bytes: &[u8], m: &mut [u8], out: &mut [u8]) -> Fed
    requires holds_state { HoldsState p.dimension m.old }
    requires lent { Lent m.old out.old }
    ensures { Feeds p bytes.now m.old
        result m.new out.new }
{
    let read = read_on(p.line, bytes);
    let line = read.line;
    let Some(n) = read.end else {
        return Fed {
            point: Point {
                line,
                dimension: p.dimension,
            },
            taken: bytes.len(),
            answered: 0,
        };
    };
    let r = answer(m, p.dimension, line, out);
    Fed {
        point: Point {
            line: Line::new(),
            dimension: r.dimension,
        },
        taken: n + 1,
        answered: r.answered,
    }
}

// Ends the input: a last line without a line end is answered. Gives how many bytes were put at the
// start of `out`.
pub fn finish(p: Point, m: &mut [u8], out: &mut [u8]) -> usize
    requires holds_state { HoldsState p.dimension m.old }
    requires lent { Lent m.old out.old }
    ensures { Finishes p m.old result out.new }
{
    let line = p.line;
    if !line.is_begun() {
        return 0;
    }
    let r = answer(m, p.dimension, line, out);
    r.answered
}
