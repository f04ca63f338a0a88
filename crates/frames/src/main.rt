// Answers the frames of standard input, one a line, on standard output (document 01, "Frames").
// Only reading and writing are here: which bytes are a line, and what is answered, is
// `framing::feed`.
#![tactic(auto)]

ghost use Rattle.std.specs.Prelude.{MatchResult, MatchOption};
ghost use Rattle.frames.specs.Left.{HoldsSome};
ghost use Rattle.framing.specs.Serving.{HoldsState, Lent};

use framing::{BYTES, Point, TEXT, feed, finish, start};
use std::io;
use std::io::Read;

// Feeds all of these bytes, and writes the answers to the lines that they end. An error of writing
// leaves a state held, as an answer does.
fn answer_all(
    rt: &impl Print,
    p: Point,
    bytes: &[u8],
    m: &mut [u8],
    out: &mut [u8],
) -> io::Result<Point>
    requires holds_state { HoldsState p.dimension m.old }
    requires lent { Lent m.old out.old }
    ensures { MatchResult result (λ q. HoldsState q.dimension m.new) (λ e. HoldsSome m.new) }
{
    let mut q = p;
    let mut rest = bytes;
    while !rest.is_empty() {
        let fed = feed(q, rest, m, out);
        rt.write_all(&out[..fed.answered])?;
        q = fed.point;
        rest = &rest[fed.taken..];
    }
    Ok(q)
}

// Answers the bytes of one read; none at the end of the input.
fn answer_read(
    rt: &impl Print,
    input: &mut impl Read,
    p: Point,
    m: &mut [u8],
    out: &mut [u8],
) -> io::Result<Option<Point>>
    requires holds_state { HoldsState p.dimension m.old }
    requires lent { Lent m.old out.old }
    ensures { MatchResult result
        (λ t. MatchOption t (HoldsState p.dimension m.new) (λ q. HoldsState q.dimension m.new))
        (λ e. HoldsSome m.new) }
{
    let mut buffer = [0u8; 512];
    let n = input.read(&mut buffer)?;
    if n == 0 {
        return Ok(None);
    }
    Ok(Some(answer_all(rt, p, &buffer[..n], m, out)?))
}

// Nothing says that the input ends, so the loop counts up to a number that no run reaches.
fn main(rt: HostRuntime) -> io::Result<()> {
    let mut input = rt.reader();
    let mut m = [0u8; BYTES];
    let mut out = [0u8; TEXT];
    let mut p = start();
    for _ in 0..u64::MAX {
        let Some(next) = answer_read(&rt, &mut input, p, &mut m, &mut out)? else {
            break;
        };
        p = next;
    }
    let n = finish(p, &mut m, &mut out);
    rt.write_all(&out[..n])
}
