// Enter, withdraw and re-cost, and their previews.
use crate::call::Change;
use crate::plain::Plain;
use crate::table::{Area, Table, same_rows};
use crate::told::noticed;
use board::carry_out;
use planning::plan_change;

// Gives what the change would say, with its rows.
pub fn preview(m: &[u8], x: Change, t: &mut Table, b: Plain) -> Plain {
    let p = plan_change(m, x.asked, x.lent);
    noticed(m, p, t, b, Area::Seen)
}

// Makes the change; its rows are held against those of the preview before it, too.
pub fn change(m: &mut [u8], x: Change, t: &mut Table, b: Plain) -> Plain {
    let p = plan_change(m, x.asked, x.lent);
    let mut said = noticed(m, p, t, b, Area::Told);
    said.right &= same_rows(t, Area::Told, Area::Seen, said.answer.count);
    carry_out(m, p);
    said
}
