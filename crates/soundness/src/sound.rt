// Whether the memory is sound, decided for every content.
ghost use Rattle.std.specs.Prelude.{◌≡◌, ◌≤◌};
ghost use Rattle.memory.specs.Held.{HeadOf};
ghost use Rattle.soundness.specs.Held.{HeldIn};
ghost use Rattle.memory.specs.Room.{Room};
ghost use Rattle.memory.specs.Tests as tests;

use crate::heights::heights_right;
use memory::{Board, Head, block_of, has_format, head_of, number_at, stands_before};
use promises::{block_bad, memory_need, size_bad};
use skyline::flags_right;
use zorder::cost_count_bad;

// Whether the memory has this layout, C, d and the number of moves are in range and it is long
// enough for C.
fn head_right(m: &[u8], h: Head) -> bool
    requires { HeadOf h m.now }
    ensures { result ≡ tests.head_right m.now }
{
    if size_bad(h.size) {
        return false;
    }
    if cost_count_bad(h.dimension) {
        return false;
    }
    if !has_format(m) {
        return false;
    }
    if m.len() < memory_need(h.size) {
        return false;
    }
    h.count <= h.size
}

// Whether each number is below C and its block in range.
fn numbers_right(m: &[u8], c: usize, n: usize) -> bool
    requires { Room c m.now × (n ≤ c) }
    ensures { result ≡ tests.numbers_right c n m.now }
{
    for i in 0..n {
        let number = number_at(m, c, i);
        if c <= (number as usize) {
            return false;
        }
        let block = block_of(m, c, number);
        if block_bad(block as u16) {
            return false;
        }
    }
    true
}

fn order_right(b: &Board) -> bool
    ensures { result ≡ tests.order_right b.now.head.size b.now.head.dimension b.now.head.count
        b.now.bytes.now }
{
    for i in 1..b.head.count {
        if !stands_before(b.head.dimension, b.move_at(i - 1), b.move_at(i)) {
            return false;
        }
    }
    true
}

fn is_sound(m: &[u8], h: Head) -> bool
    requires { HeadOf h m.now }
    ensures { tests.Decides result m.now }
{
    if !head_right(m, h) {
        return false;
    }
    if !numbers_right(m, h.size, h.count) {
        return false;
    }
    let b = Board { bytes: m, head: h };
    if !order_right(&b) {
        return false;
    }
    if !heights_right(m, h.size, h.count) {
        return false;
    }
    flags_right(&b)
}

// Gives the head of the board that the memory holds, if it is sound.
pub fn sound_head(m: &[u8]) -> Option<Head>
    ensures { HeldIn m.now result }
{
    if m.len() < 16 {
        return None;
    }
    let h = head_of(m);
    if !is_sound(m, h) {
        return None;
    }
    Some(h)
}
