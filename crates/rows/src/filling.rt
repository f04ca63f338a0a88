// Lent rows filled.
ghost use Rattle.std.specs.Prelude.{map, ◌≡◌, ◌+◌, ◌<◌, ◌≤◌, length};
ghost use Rattle.rows.specs.Rows.{row_numbers};
ghost use Rattle.rows.specs.Telling.{TellingAsked, filled_rows};

use crate::row::{Row, row_from};
use crate::telling::{Telling, told_next};

// Puts the rows that a telling tells into the lent ones from row `from` on.
pub fn fill(rows: &mut [Row], m: &[u8], t: Telling, from: usize)
    requires { (0 < t.count → TellingAsked t.told m.now)
        × (from + t.count ≤ length rows.old) }
    ensures { map row_numbers rows.new ≡ filled_rows t.told t.numbers
        m.now from t.count (map row_numbers rows.old) }
{
    let told = t.told;
    let numbers = t.numbers;
    let mut i = 0;
    for k in 0..t.count {
        let s = told_next(m, told, &numbers, i);
        rows[from + k] = row_from(s.row);
        i = s.next;
    }
}
