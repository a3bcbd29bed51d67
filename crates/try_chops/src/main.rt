// A log in every cut into two and into three parts, empty ones too, at every room for an answer from 0 to the log's longest answer: what the library's start,
// feed and close answer, and the clerk before the close, are held to those of the whole log fed at once with the same room.
// Reads a log on standard input, and says how many cuts and rooms were tried, how many of them together came out alike, and the first place that did not.
#![tactic(auto)]

mod served;

ghost use Rattle.std.specs.Prelude.{◌≤◌, length};
ghost use Rattle.lines.specs.Kept.{kept_most};
ghost use Rattle.stream.specs.Feeding.{Held};

use argument::is_argument;
use laws::both;
use output::{STDIN_FILENO, STDOUT_FILENO};
use packed::{FIELDS, pack};
use served::{Ended, end, kept, longest, serve};
use stream::Clerk;
use text::sheet::ROOM;

// The whole log with one room, beside its clerk's bytes: how many bytes the clerk keeps before the close, and the trace with it.
#[derive(Clone, Copy)]
struct Whole {
    kept: usize,
    at: usize,
    ok: bool,
}

// Where a log is cut, with how much room.
#[derive(Clone, Copy)]
struct Place {
    room: usize,
    first: usize,
    second: usize,
}

// How many were tried, how many came out alike, and the first that did not.
#[derive(Clone, Copy)]
struct Tally {
    cuts: u64,
    rooms: u64,
    alike: u64,
    differs: Option<Place>,
}

// A sum that stops at 4,000,000,000,000, so that it always fits.
fn more(x: u64, by: u64) -> u64 {
    if 2000000000000 < x {
        return x;
    }
    if 2000000000000 < by {
        return x;
    }
    x + by
}

// One more, alike or not.
fn counted(t: Tally, alike: bool, p: Place) -> Tally {
    let mut u = t;
    u.cuts = more(t.cuts, 1);
    if alike {
        u.alike = more(t.alike, 1);
        return u;
    }
    u.differs = t.differs.or(Some(p));
    u
}

// A clerk in bytes: every field of it, and nothing else (packed/specs/Layout).
fn state_of(c: Clerk) -> [u8; FIELDS]
    requires { Held c }
{
    let mut bytes = [0u8; FIELDS];
    pack(&mut bytes, c);
    bytes
}

// Whether the clerk of a cut log, and what it keeps, are those of the whole.
fn same_state(c: Clerk, buf: &[u8], whole: usize, wstate: &[u8], wbuf: &[u8]) -> bool
    requires { Held c × (kept_most ≤ length buf.now) × (whole ≤ length wbuf.now) }
{
    let k = kept(c);
    let state = state_of(c);
    both(
        check::same(&state, wstate),
        check::same(&buf[0..k], &wbuf[0..whole]),
    )
}

// Whether the answers are those of the whole, with each 12 in its place.
fn same_trace(e: Ended, trace: &[u8], w: Whole, wtrace: &[u8]) -> bool
    requires { (e.at ≤ length trace.now) × (w.at ≤ length wtrace.now) }
{
    let n = e.at;
    let m = w.at;
    both(both(e.ok, w.ok), check::same(&trace[0..n], &wtrace[0..m]))
}

// One cut, held to the whole.
fn try_cut(
    log: &[u8],
    p: Place,
    w: Whole,
    wstate: &[u8],
    wbuf: &[u8],
    wtrace: &[u8],
    trace: &mut [u8],
) -> bool
    requires { (p.first ≤ p.second) × (p.second ≤ length log.now) × (w.kept ≤ length wbuf.now) × (w.at ≤ length wtrace.now) }
{
    let mut buf = [0u8; ROOM];
    let h = serve(log, p.first, p.second, p.room, &mut buf, trace);
    let e = end(h, &buf, p.room, trace);
    let c = h.clerk;
    let state = same_state(c, &buf, w.kept, wstate, wbuf);
    both(state, same_trace(e, trace, w, wtrace))
}

// Every second place behind the first.
fn try_seconds(
    log: &[u8],
    room: usize,
    first: usize,
    w: Whole,
    wstate: &[u8],
    wbuf: &[u8],
    wtrace: &[u8],
    trace: &mut [u8],
    t: Tally,
) -> Tally
    requires { (first ≤ length log.now) × (w.kept ≤ length wbuf.now) × (w.at ≤ length wtrace.now) }
{
    let mut tally = t;
    for second in first..=log.len() {
        let p = Place {
            room,
            first,
            second,
        };
        let good = try_cut(log, p, w, wstate, wbuf, wtrace, trace);
        tally = counted(tally, good, p);
    }
    tally
}

// Every first place.
fn try_firsts(
    log: &[u8],
    room: usize,
    w: Whole,
    wstate: &[u8],
    wbuf: &[u8],
    wtrace: &[u8],
    trace: &mut [u8],
    t: Tally,
) -> Tally
    requires { (w.kept ≤ length wbuf.now) × (w.at ≤ length wtrace.now) }
{
    let mut tally = t;
    for first in 0..=log.len() {
        tally = try_seconds(log, room, first, w, wstate, wbuf, wtrace, trace, tally);
    }
    tally
}

// Every cut with one room: the whole log is fed at once with so much room, and `extra` bytes.
fn try_room(log: &[u8], room: usize, extra: usize, trace: &mut [u8], t: Tally) -> Tally
    requires { (room ≤ 65536) × (extra ≤ 1) }
{
    let mut wbuf = [0u8; ROOM];
    let mut wtrace = io::large_buffer();
    let n = log.len();
    let wide = room + extra;
    let h = serve(log, n, n, wide, &mut wbuf, &mut wtrace);
    let e = end(h, &wbuf, wide, &mut wtrace);
    let c = h.clerk;
    let state = state_of(c);
    let w = Whole {
        kept: kept(c),
        at: e.at,
        ok: e.ok,
    };
    let mut u = t;
    u.cuts = 0;
    u.rooms = more(t.rooms, 1);
    try_firsts(log, room, w, &state, &wbuf, &wtrace, trace, u)
}

// Every room up to the longest answer.
fn try_rooms(log: &[u8], most: usize, extra: usize, trace: &mut [u8]) -> Tally
    requires { (most ≤ 65536) × (extra ≤ 1) }
{
    let mut tally = Tally {
        cuts: 0,
        rooms: 0,
        alike: 0,
        differs: None,
    };
    for room in 0..=most {
        tally = try_room(log, room, extra, trace, tally);
    }
    tally
}

fn say(word: &[u8], n: u64) {
    io::write_all(STDOUT_FILENO, word);
    io::print_decimal(STDOUT_FILENO, n);
    io::write_all(STDOUT_FILENO, b"\n");
}

fn tell(t: Tally) {
    say(b"cuts=", t.cuts);
    say(b"rooms=", t.rooms);
    say(b"alike=", t.alike);
    if let Some(p) = t.differs {
        say(b"room=", p.room as u64);
        say(b"first=", p.first as u64);
        say(b"second=", p.second as u64);
    }
}

// With the argument --spoilt the whole log gets one byte more room than the cut one, so that places differ and the counts show it.
fn spoilt(rt: &HostRuntime) -> usize
    ensures { result ≤ 1 }
{
    if is_argument(rt, 1, b"--spoilt") {
        return 1;
    }
    0
}

fn main(rt: HostRuntime) {
    let mut space = io::large_buffer();
    let n = io::read_full(STDIN_FILENO, &mut space);
    let log = &space[0..n];
    let mut trace = io::large_buffer();
    let mut buf = [0u8; ROOM];
    let most = longest(log, &mut buf, &mut trace);
    tell(try_rooms(log, most, spoilt(&rt), &mut trace));
}
