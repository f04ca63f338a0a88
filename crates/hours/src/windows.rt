// The windows of one block: whether they are refused, whether one is open.
ghost use Rattle.std.specs.Prelude.{◌≡◌, ◌≤◌, ◌<◌};
ghost use Rattle.model.specs.Basics.{any};
ghost use Rattle.model.specs.Hours.{windows_of, minute_bad, window_bad, hours_bad, open_in};
ghost use Rattle.promises.specs.Layout.{tab};
ghost use Rattle.promises.specs.Answers.{window_at, block_hours};

use crate::HOURS;

// How many windows a block has at most.
const WINDOWS: u16 = 4;

// Says whether the week has no such minute.
pub(crate) fn minute_bad(t: usize) -> bool
    ensures { result ≡ minute_bad t }
{
    10079 < t
}

// How many slots hold a window.
fn windows_in(entry: [u16; HOURS]) -> usize
    ensures { (windows_of (block_hours entry) ≡ tab (window_at entry) result) × (result ≤ 4) }
{
    entry[0].min(WINDOWS) as usize
}

// Says whether a window starts where it ends, or reaches past the week.
fn window_bad(entry: [u16; HOURS], i: usize) -> bool
    requires { i < 4 }
    ensures { result ≡ window_bad (window_at entry i) }
{
    let start = entry[1 + 2 * i];
    let end = entry[2 + 2 * i];
    minute_bad(start as usize) | minute_bad(end as usize) | (start == end)
}

// Says whether a window is open at a minute: start included, end not; an end below the start runs
// over the week's end.
fn open_in(entry: [u16; HOURS], i: usize, minute: u16) -> bool
    requires { i < 4 }
    ensures { result ≡ open_in minute (window_at entry i) }
{
    let start = entry[1 + 2 * i];
    let end = entry[2 + 2 * i];
    if end < start {
        return (start <= minute) | (minute < end);
    }
    (start <= minute) & (minute < end)
}

// Says whether there are more windows than four, or a bad one.
pub(crate) fn hours_bad(entry: [u16; HOURS]) -> bool
    ensures { result ≡ hours_bad (block_hours entry) }
{
    if WINDOWS < entry[0] {
        return true;
    }
    let n = windows_in(entry);
    for i in 0..n {
        if window_bad(entry, i) {
            return true;
        }
    }
    false
}

// Says whether a window is open at this minute.
pub(crate) fn open_at(entry: [u16; HOURS], minute: u16) -> bool
    ensures { result ≡ any (open_in minute) (windows_of (block_hours entry)) }
{
    let n = windows_in(entry);
    for i in 0..n {
        if open_in(entry, i, minute) {
            return true;
        }
    }
    false
}
