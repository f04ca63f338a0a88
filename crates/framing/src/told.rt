// Rows as digits, put into a lent buffer at a place; each function gives the place past what it
// put.
ghost use Rattle.std.specs.Prelude.{◌+◌, ◌≤◌, length};
ghost use Rattle.zorder.specs.Address.{row_costs};
ghost use Rattle.promises.specs.Answers.{result_row};
ghost use Rattle.frame_lines.specs.Text.{row_text, rows_text};
ghost use Rattle.frame_lines.specs.Reading.{most_digits};
ghost use Rattle.frame_lines.specs.Put.{TextPut};
ghost use Rattle.framing.specs.Writing.{TextRoom, telling_rows};

use frame_lines::{put_byte, put_word};
use rows::{ROW, Telling, told_next};

// Puts a row: its mark, its number and d costs.
fn put_row(out: &mut [u8], at: usize, d: usize, row: [u16; ROW]) -> usize
    requires { (d ≤ row_costs) × (at + most_digits ≤ length out.old) }
    ensures { TextPut (row_text d (result_row row))
        out.old at out.new result }
{
    let mut next = put_byte(out, at, row[0]);
    for j in 0..d + 1 {
        next = put_word(out, next, row[j + 1]);
    }
    next
}

// Puts the rows of a telling, as they are told.
pub fn put_told(out: &mut [u8], at: usize, d: usize, m: &[u8], t: Telling) -> usize
    requires { TextRoom d at t m.now out.old }
    ensures { TextPut (rows_text d (telling_rows t m.now))
        out.old at out.new result }
{
    let mut next = at;
    let mut i = 0;
    for k in 0..t.count {
        let s = told_next(m, t.told, &t.numbers, i);
        next = put_row(out, next, d, s.row);
        i = s.next;
    }
    next
}
