// What a call says, as an answer line put at the start of a lent buffer; each function gives how
// many bytes it put.
ghost use Rattle.std.specs.Prelude.{◌≤◌, length};
ghost use Rattle.frame_lines.specs.Text.{answer_text};
ghost use Rattle.frame_lines.specs.Put.{TextPut};
ghost use Rattle.framing.specs.Writing as spec;

use crate::told::put_told;
use frame_lines::{put_head, put_refusal, put_word, two_bytes};
use planning::{ChangePlan, entered_of, left_of};
use promises::{Verdict, detail_of, number_of};
use rows::Plan;

// Puts what a load says: it tells no row, and accepted it says 0 and 0.
pub fn put_loaded(out: &mut [u8], verdict: Verdict) -> usize
    requires { 7 ≤ length out.old }
    ensures { TextPut (answer_text 0 (spec.load_said verdict))
        out.old 0 out.new result }
{
    put_refusal(out, number_of(verdict), detail_of(verdict))
}

// Puts what a list says, with the nodes opened and its rows.
pub fn put_list(out: &mut [u8], m: &[u8], d: usize, p: Plan) -> usize
    requires { spec.ListRoom d p m.now out.old }
    ensures { TextPut (answer_text d (spec.list_said p m.now))
        out.old 0 out.new result }
{
    let telling = p.telling;
    if p.verdict.is_err() {
        return put_refusal(out, number_of(p.verdict), detail_of(p.verdict));
    }
    let opened_at = put_head(out, 0, p.need);
    let rows_at = put_word(out, opened_at, two_bytes(p.opened));
    let end = put_told(out, rows_at, d, m, telling);
    out[end] = b'\n';
    end + 1
}

// Puts what a change says, with its notice.
pub fn put_change(out: &mut [u8], m: &[u8], d: usize, p: ChangePlan) -> usize
    requires { spec.ChangeRoom d p m.now out.old }
    ensures { TextPut (answer_text d (spec.change_said p m.now))
        out.old 0 out.new result }
{
    if p.verdict.is_err() {
        return put_refusal(out, number_of(p.verdict), detail_of(p.verdict));
    }
    let left_at = put_head(out, 0, p.need);
    let entered_at = put_told(out, left_at, d, m, left_of(p));
    let end = put_told(out, entered_at, d, m, entered_of(p));
    out[end] = b'\n';
    end + 1
}
