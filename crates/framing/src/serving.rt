// The answer to one line: the only functions that call the board.
ghost use Rattle.std.specs.Prelude.{◌≡◌};
ghost use Rattle.frame_lines.specs.Frames as frames;
ghost use Rattle.framing.specs.Serving.{HoldsState, Lent, CallAsked, Answers};
ghost use Rattle.framing.specs.Serving.{Served, ChangeServed};

use crate::said::{put_change, put_list, put_loaded};
use crate::{ROWS, SIZE};
use board::carry_out;
use dominance::Move;
use frame_lines::{Frame, Line, frame_of, put_refusal};
use listing::plan_list;
use loading::{INPUT, load};
use planning::{Change, plan_change};

// The answer has `answered` bytes, and the board `dimension` costs from now on: 0 before the first
// accepted load.
#[derive(Clone, Copy)]
pub struct Response {
    pub answered: usize,
    pub dimension: usize,
}

// Loads a board of no moves, with as many costs as are asked for.
fn loaded(m: &mut [u8], d: usize, asked: usize, out: &mut [u8]) -> Response
    requires holds_state { HoldsState d m.old }
    requires lent { Lent m.old out.old }
    ensures { Served d (frames.load asked) m.old out.old
        result.answered result.dimension m.new out.new }
{
    let none = [[0u16; INPUT]; 0];
    let verdict = load(m, SIZE, asked, &none);
    let answered = put_loaded(out, verdict);
    if verdict.is_ok() {
        return Response {
            answered,
            dimension: asked,
        };
    }
    Response {
        answered,
        dimension: d,
    }
}

// Tells a change, then makes it: its rows are read from the board as it was.
fn change(m: &mut [u8], d: usize, x: Change, out: &mut [u8]) -> usize
    requires { CallAsked d m.old out.old }
    ensures { ChangeServed d x m.old out.old
        result m.new out.new }
{
    let p = plan_change(m, x, ROWS);
    let answered = put_change(out, m, d, p);
    carry_out(m, p);
    answered
}

// Tells the list.
fn listed(m: &[u8], d: usize, out: &mut [u8]) -> usize
    requires { CallAsked d m.now out.old }
    ensures { Served d frames.list m.now out.old
        result d m.now out.new }
{
    put_list(out, m, d, plan_list(m, ROWS))
}

// Answers a line: what is said of its frame is put at the start of `out`.
pub fn answer(m: &mut [u8], d: usize, line: Line, out: &mut [u8]) -> Response
    requires holds_state { HoldsState d m.old }
    requires lent { Lent m.old out.old }
    ensures { Answers d line m.old result m.new out.new }
{
    let answered = match frame_of(d, line) {
        Frame::Load { dimension } => return loaded(m, d, dimension, out),
        Frame::List => listed(m, d, out),
        Frame::Early => put_refusal(out, 3, 0),
        Frame::Wrong => put_refusal(out, 9, 0),
        // A move of a frame comes into block 0.
        Frame::Enter { number, costs } => {
            let coming = Move { number, costs };
            change(m, d, Change::Enter { coming, block: 0 }, out)
        }
        Frame::Withdraw { number } => change(m, d, Change::Withdraw { number }, out),
        Frame::Recost { number, costs } => {
            let coming = Move { number, costs };
            change(m, d, Change::Recost { coming, block: 0 }, out)
        }
    };
    Response {
        answered,
        dimension: d,
    }
}
