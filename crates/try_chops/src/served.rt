// A log in three parts, any of them empty: what the library's start, feed and close answer, one behind the other, in a trace.
ghost use Rattle.std.specs.Prelude.{◌≡◌, true, ◌+◌, ◌≤◌, ◌<◌, length};
ghost use Rattle.lines.specs.Kept.{kept_most};
ghost use Rattle.stream.specs.Feeding.{Held, longest_answer};

use answers::LONGEST;
use paper::NO_ROOM;
use stream::{Clerk, close, feed, start};

// The clerk after some calls, how far the trace is filled, and whether it has had room for all of them.
#[derive(Clone, Copy)]
pub struct Heard {
    pub clerk: Clerk,
    pub at: usize,
    pub ok: bool,
}

// After one call: how much of its part is used up, too.
#[derive(Clone, Copy)]
struct Call {
    clerk: Clerk,
    used: usize,
    at: usize,
}

// A 12 stands in the trace as a byte that no answer has, in its place among the answers.
fn marked(trace: &mut [u8], at: usize, short: bool) -> usize
    requires { at < length trace.old }
    ensures { result ≤ length trace.old }
{
    if short {
        trace[at] = NO_ROOM;
        return at + 1;
    }
    at
}

// One call of `feed`, with so much room for an answer.
fn hear_one(c: Clerk, buf: &mut [u8], part: &[u8], room: usize, trace: &mut [u8], at: usize) -> Call
    requires { Held c × (kept_most ≤ length buf.old) × (at + room < length trace.old) }
    ensures { Held result.clerk × (result.used ≤ length part.now) × (0 < length part.now → 0 < result.used) × (result.at ≤ length trace.old) }
{
    let e = at + room;
    let f = feed(c, buf, part, &mut trace[at..e]);
    let n = at + f.written;
    let d = f.clerk;
    let next = marked(trace, n, f.short);
    Call {
        clerk: d,
        used: f.used,
        at: next,
    }
}

// Whether bytes of the part are left, and the trace has room for an answer and a mark.
fn goes_on(used: usize, size: usize, at: usize, room: usize, most: usize) -> bool
    requires { at ≤ most }
    ensures { result ≡ true → (used < size) × (at + room < most) }
{
    if used < size {
        return room < most - at;
    }
    false
}

// A part of the log, fed until it is used up.
fn hear_part(h: Heard, buf: &mut [u8], part: &[u8], room: usize, trace: &mut [u8]) -> Heard
    requires { Held h.clerk × (kept_most ≤ length buf.old) × (h.at ≤ length trace.old) }
    ensures { Held result.clerk × (result.at ≤ length trace.old) }
{
    let mut clerk = h.clerk;
    let mut at = h.at;
    let mut used: usize = 0;
    while goes_on(used, part.len(), at, room, trace.len()) {
        let r = hear_one(clerk, buf, &part[used..], room, trace, at);
        let d = r.clerk;
        clerk = d;
        at = r.at;
        used += r.used;
    }
    Heard {
        clerk,
        at,
        ok: laws::both(h.ok, used == part.len()),
    }
}

// Nothing arrives.
fn hush(h: Heard, buf: &mut [u8], room: usize, trace: &mut [u8]) -> Heard
    requires { Held h.clerk × (kept_most ≤ length buf.old) × (h.at ≤ length trace.old) }
    ensures { Held result.clerk × (result.at ≤ length trace.old) }
{
    if room < trace.len() - h.at {
        let c = h.clerk;
        let none = [0u8; 1];
        let r = hear_one(c, buf, &none[0..0], room, trace, h.at);
        let d = r.clerk;
        return Heard {
            clerk: d,
            at: r.at,
            ok: h.ok,
        };
    }
    h
}

// Nothing arrives, and then the next part.
fn hear_next(h: Heard, buf: &mut [u8], part: &[u8], room: usize, trace: &mut [u8]) -> Heard
    requires { Held h.clerk × (kept_most ≤ length buf.old) × (h.at ≤ length trace.old) }
    ensures { Held result.clerk × (result.at ≤ length trace.old) }
{
    let a = hush(h, buf, room, trace);
    hear_part(a, buf, part, room, trace)
}

// Before the first byte.
fn begun() -> Heard
    ensures { Held result.clerk × (result.at ≤ 0) }
{
    let c = start();
    Heard {
        clerk: c,
        at: 0,
        ok: true,
    }
}

// The first two of three parts, with nothing arriving between them.
fn serve_two(
    log: &[u8],
    first: usize,
    second: usize,
    room: usize,
    buf: &mut [u8],
    trace: &mut [u8],
) -> Heard
    requires { (first ≤ second) × (second ≤ length log.now) × (kept_most ≤ length buf.old) }
    ensures { Held result.clerk × (result.at ≤ length trace.old) }
{
    let a = hear_part(begun(), buf, &log[0..first], room, trace);
    hear_next(a, buf, &log[first..second], room, trace)
}

// The log in three parts, cut at two places, with nothing arriving before the second and the third.
pub fn serve(
    log: &[u8],
    first: usize,
    second: usize,
    room: usize,
    buf: &mut [u8],
    trace: &mut [u8],
) -> Heard
    requires { (first ≤ second) × (second ≤ length log.now) × (kept_most ≤ length buf.old) }
    ensures { Held result.clerk × (result.at ≤ length trace.old) }
{
    let a = serve_two(log, first, second, room, buf, trace);
    hear_next(a, buf, &log[second..], room, trace)
}

// The end of the log: how far the trace is filled then, and whether it has had room.
#[derive(Clone, Copy)]
pub struct Ended {
    pub at: usize,
    pub ok: bool,
}

pub fn end(h: Heard, buf: &[u8], room: usize, trace: &mut [u8]) -> Ended
    requires { Held h.clerk × (kept_most ≤ length buf.now) × (h.at ≤ length trace.old) }
    ensures { result.at ≤ length trace.old }
{
    let at = h.at;
    if room < trace.len() - at {
        let c = h.clerk;
        let e = at + room;
        let r = close(c, buf, &mut trace[at..e]);
        let n = at + r.written;
        return Ended {
            at: marked(trace, n, r.short),
            ok: h.ok,
        };
    }
    Ended { at, ok: false }
}

// How much of the buffer holds what the clerk keeps.
pub fn kept(c: Clerk) -> usize
    requires { Held c }
    ensures { result ≤ kept_most }
{
    let m = c.fill;
    m.count
}

// The longest answer of a log: what any call writes while the log comes byte by byte, with room for any answer.
pub fn longest(log: &[u8], buf: &mut [u8], trace: &mut [u8]) -> usize
    requires { (kept_most ≤ length buf.old) × (longest_answer < length trace.old) }
    ensures { result ≤ length trace.old }
{
    let mut clerk = start();
    let mut most: usize = 0;
    for i in 0..log.len() {
        let r = hear_one(clerk, buf, &log[i..=i], LONGEST, trace, 0);
        clerk = r.clerk;
        most = most.max(r.at);
    }
    let c = close(clerk, buf, &mut trace[..LONGEST]);
    most.max(c.written)
}
