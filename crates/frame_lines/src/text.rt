// Numbers and refusals as digits, highest first, put into a lent buffer at a place; each function
// gives the place past what it put.
ghost use Rattle.std.specs.Prelude.{◌≡◌, ◌+◌, ◌%◌, ◌≤◌, length};
ghost use Rattle.frame_lines.specs.Text.{byte_text, word_text, refused, answer_text};
ghost use Rattle.frame_lines.specs.Put.{TextPut, head_text};

use crate::digits::digit;

// Puts the lowest byte of n.
pub fn put_byte(out: &mut [u8], at: usize, n: u16) -> usize
    requires { at + 2 ≤ length out.old }
    ensures { TextPut (byte_text n) out.old at out.new result }
{
    out[at] = digit(n / 16 % 16);
    out[at + 1] = digit(n % 16);
    at + 2
}

// Puts both bytes of n.
pub fn put_word(out: &mut [u8], at: usize, n: u16) -> usize
    requires { at + 4 ≤ length out.old }
    ensures { TextPut (word_text n) out.old at out.new result }
{
    let next = put_byte(out, at, n / 256);
    put_byte(out, next, n)
}

// Keeps the lowest two bytes of a number: 65536 is 256 · 256.
pub fn two_bytes(n: usize) -> u16
    ensures { result ≡ n % 65536 }
{
    (n % 65536) as u16
}

// Puts the beginning of an answer: the number of a refusal, 0 of an accepted call, and the two
// bytes of a detail or of how many rows follow.
pub fn put_head(out: &mut [u8], number: u8, n: usize) -> usize
    requires { 6 ≤ length out.old }
    ensures { TextPut (head_text number n) out.old 0 out.new result }
{
    let next = put_byte(out, 0, number as u16);
    put_word(out, next, two_bytes(n))
}

// Puts a whole answer: a refusal, its detail and the line end.
pub fn put_refusal(out: &mut [u8], number: u8, detail: usize) -> usize
    requires { 7 ≤ length out.old }
    ensures { TextPut (answer_text 0 (refused number detail))
        out.old 0 out.new result }
{
    let end = put_head(out, number, detail);
    out[end] = b'\n';
    end + 1
}
