// Which line is which frame.
ghost use Rattle.std.specs.Prelude.{◌≡◌, ◌+◌, ◌*◌, ◌<◌, ◌≤◌};
ghost use Rattle.frame_lines.specs.Reading as spec;
ghost use Rattle.zorder.specs.Address.{row_costs};

use crate::digits::value;
use crate::reading::{DIGITS, Line};
use std::array;
use zorder::COSTS;

// A frame, with what it carries: the number of costs that a load asks for, the number of a move,
// its costs as a row holds them.
#[derive(Clone, Copy)]
pub enum Frame {
    Load { dimension: usize },
    Enter { number: u16, costs: [u16; COSTS] },
    Withdraw { number: u16 },
    Recost { number: u16, costs: [u16; COSTS] },
    List,
    // A frame of a board before the first accepted load.
    Early,
    Wrong,
}

// The byte that two digits spell, at a place counted in bytes.
fn byte_at(digits: [u8; DIGITS], i: usize) -> u8
    requires { i < 3 + 2 * row_costs }
    ensures { result ≡ spec.byte_at digits i }
{
    value(digits[2 * i]) * 16 + value(digits[2 * i + 1])
}

// The number of two bytes at a place, the higher first.
fn word_at(digits: [u8; DIGITS], i: usize) -> u16
    requires { i < 2 + 2 * row_costs }
    ensures { result ≡ spec.word_spelled digits i }
{
    (byte_at(digits, i) as u16) * 256 + (byte_at(digits, i + 1) as u16)
}

// Cost j of d, after the first byte and the number; zero past d.
fn cost_at(digits: [u8; DIGITS], d: usize, j: usize) -> u16
    requires { d ≤ row_costs }
    ensures { result ≡ spec.cost_at digits d j }
{
    if j < d { word_at(digits, 3 + 2 * j) } else { 0 }
}

// All d costs, as a row holds them.
fn costs_at(digits: [u8; DIGITS], d: usize) -> [u16; COSTS]
    requires { d ≤ row_costs }
    ensures { result ≡ spec.costs_at digits d }
{
    array::from_fn(|j| cost_at(digits, d, j))
}

// The frame, if the line has as many digits as it asks for.
fn sized(count: usize, n: usize, frame: Frame) -> Frame
    ensures { result ≡ spec.sized_frame count n frame }
{
    if count == n { frame } else { Frame::Wrong }
}

// The frame of a line for a board of d costs, which has two digits of its first byte, four of a
// number and four of each cost.
fn frame_on(d: usize, code: u8, line: Line) -> Frame
    requires { d ≤ row_costs }
    ensures { result ≡ spec.frame_on d code line }
{
    let digits = line.first;
    let number = word_at(digits, 1);
    let costs = costs_at(digits, d);
    let all = 6 + 4 * d;
    match code {
        0x20 => sized(line.count, all, Frame::Enter { number, costs }),
        0x30 => sized(line.count, 6, Frame::Withdraw { number }),
        0x40 => sized(line.count, all, Frame::Recost { number, costs }),
        _ => sized(line.count, 2, Frame::List),
    }
}

// The frame of a line of whole bytes, by its first byte and how many digits it has; d is 0 before
// the first accepted load.
fn frame_by(d: usize, code: u8, line: Line) -> Frame
    requires { d ≤ row_costs }
    ensures { result ≡ spec.frame_by d code line }
{
    let dimension = byte_at(line.first, 1) as usize;
    match code {
        0x10 => return sized(line.count, 4, Frame::Load { dimension }),
        0x20 | 0x30 | 0x40 | 0x50 => {}
        _ => return Frame::Wrong,
    }
    if d == 0 {
        return Frame::Early;
    }
    frame_on(d, code, line)
}

// Gives the frame of a line on a board of d costs; d is 0 before the first accepted load. Half a
// byte, or a byte that is no digit, is wrong form.
pub fn frame_of(d: usize, line: Line) -> Frame
    requires { d ≤ row_costs }
    ensures { spec.Framed d line result }
{
    if line.odd || !line.spelled {
        return Frame::Wrong;
    }
    frame_by(d, byte_at(line.first, 0), line)
}
