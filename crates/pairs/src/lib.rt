// The input of two tables as it comes in parts: each line is looked at as its LF arrives, and what it makes whole is answered.
#![tactic(auto)]

ghost use Rattle.std.specs.Prelude.{◌≡◌, false, [], ◌+◌, ◌≤◌, ◌<◌, length};
ghost use Rattle.lines.specs.Kept.{kept_most};
ghost use Rattle.frames.specs.Frames.{Held, piece_of, end_what};
ghost use Rattle.couple.specs.Couple.{Good, room_most, Gave};
ghost use Rattle.pairs.specs.Pairs.{answered, whole_done, ran, said_of, heard_of, FedOn, goes_on};

use couple::{
    Pair, PairAfter, ROOM, house_with, is_second, of_none, open_line, open_sheet, put_shown,
    refuse, table_at, with_table,
};
use frames::{Due, Frame, Heard, Made, at_end, hear};
use laws::both;
use shared::{LONGEST, answer_at};

// The table that is due answers these lines, by way of a lent sheet.
fn answer_on(
    p: Pair,
    only: u8,
    due: Due,
    lines: &[u8],
    sheet: &mut [u8],
    out: &mut [u8],
) -> PairAfter
    requires { Good p × (only ≤ 2) × (length sheet.old ≡ 560) × (room_most ≤ length out.old) }
    ensures gave { Gave (answered only p due lines.now) out.old out.new result.pair result.written }
    ensures good { Good result.pair }
{
    let second = is_second(due);
    let ts = p.tables;
    let t = table_at(ts, second);
    let pool = p.pool;
    let a = answer_at(t, pool, lines, sheet);
    let n = a.written;
    let written = put_shown(out, only, due, &sheet[0..n]);
    let u = a.table;
    let q = a.pool;
    let us = with_table(ts, second, u);
    let pair = Pair {
        shut: p.shut,
        tables: us,
        pool: q,
        house: house_with(p.house, a.house),
    };
    PairAfter { pair, written }
}

// The table that is due answers these lines.
fn answer_lines(p: Pair, only: u8, due: Due, lines: &[u8], out: &mut [u8]) -> PairAfter
    requires { Good p × (only ≤ 2) × (room_most ≤ length out.old) }
    ensures gave { Gave (answered only p due lines.now) out.old out.new result.pair result.written }
    ensures good { Good result.pair }
{
    let mut sheet = [0u8; LONGEST];
    answer_on(p, only, due, lines, &mut sheet, out)
}

// A part of the opening, or a block.
fn whole(p: Pair, only: u8, due: Due, lines: &[u8], out: &mut [u8]) -> PairAfter
    requires { Good p × (only ≤ 2) × (room_most ≤ length out.old) }
    ensures gave { Gave (whole_done only p due lines.now) out.old out.new result.pair result.written }
    ensures good { Good result.pair }
{
    match due {
        Due::Pool => open_line(p, lines, out),
        Due::Sheet(_) => open_sheet(p, due, lines, out),
        _ => answer_lines(p, only, due, lines, out),
    }
}

// A piece, where the opening was not bad.
fn piece(p: Pair, only: u8, what: Option<Made>, due: Due, lines: &[u8], out: &mut [u8]) -> PairAfter
    requires { Good p × (p.shut ≡ false) × (only ≤ 2) × (room_most ≤ length out.old) }
    ensures gave { Gave (ran only p (piece_of what due lines.now)) out.old out.new result.pair result.written }
    ensures good { Good result.pair }
{
    match what {
        None => PairAfter {
            pair: p,
            written: 0,
        },
        Some(Made::Whole) => whole(p, only, due, lines, out),
        Some(Made::Cut) => answer_lines(p, only, due, b"\n", out),
        Some(Made::OfNone) => of_none(p, only, out),
        Some(Made::Missing) => refuse(p, out),
    }
}

// A piece of the input. Behind a bad opening nothing is answered.
pub fn take_piece(
    p: Pair,
    only: u8,
    what: Option<Made>,
    due: Due,
    lines: &[u8],
    out: &mut [u8],
) -> PairAfter
    requires { Good p × (only ≤ 2) × (room_most ≤ length out.old) }
    ensures gave { Gave (ran only p (piece_of what due lines.now)) out.old out.new result.pair result.written }
    ensures good { Good result.pair × (result.written ≤ length out.old) }
{
    if p.shut {
        return PairAfter {
            pair: p,
            written: 0,
        };
    }
    piece(p, only, what, due, lines, out)
}

// The pair and what is due after a part of the input, how many of its bytes are used up, and how many bytes are written.
#[derive(Clone, Copy)]
pub struct Fed {
    pub pair: Pair,
    pub frame: Frame,
    pub used: usize,
    pub written: usize,
}

// Line after line of a part, up to the first that makes something whole. The pair is not looked at, so lines that only gather don't carry it about.
fn hear_on(f: Frame, buf: &mut [u8], part: &[u8]) -> Heard
    requires { Held f × (kept_most ≤ length buf.old) }
    ensures heard { said_of result buf.new ≡ heard_of f buf.old part.now result.used }
    ensures held { Held result.frame × (result.used ≤ length part.now) × (0 < length part.now → 0 < result.used) × (result.count ≤ kept_most) }
{
    let of = f.due;
    let mut h = Heard {
        frame: f,
        used: 0,
        what: None,
        of,
        count: 0,
    };
    while both(h.what.is_none(), h.used < part.len()) {
        let from = h.used;
        let d = h.frame;
        let k = hear(d, buf, &part[from..]);
        let g = k.frame;
        let next = Heard {
            frame: g,
            used: from + k.used,
            what: k.what,
            of: k.of,
            count: k.count,
        };
        h = next;
    }
    h
}

// The lines of a part up to the first that makes something whole, or all of it; that is answered.
pub fn feed(p: Pair, f: Frame, only: u8, buf: &mut [u8], part: &[u8], out: &mut [u8]) -> Fed
    requires { Good p × Held f × (only ≤ 2) × (kept_most ≤ length buf.old) × (room_most ≤ length out.old) }
    ensures fed { FedOn only p f buf.old part.now out.old buf.new out.new result }
    ensures held { Good result.pair × Held result.frame × (result.used ≤ length part.now) × (0 < length part.now → 0 < result.used) × (result.written ≤ length out.old) }
{
    let h = hear_on(f, buf, part);
    let e = h.count;
    let s = take_piece(p, only, h.what, h.of, &buf[0..e], out);
    let q = s.pair;
    let g = h.frame;
    Fed {
        pair: q,
        frame: g,
        used: h.used,
        written: s.written,
    }
}

// Whether bytes of the part are left, and there is room for any answer.
fn goes_on(used: usize, size: usize, room: usize) -> bool
    ensures { result ≡ goes_on used size room }
{
    both(used < size, ROOM <= room)
}

// A part of the input, line after line, until it is used up, or until there is less room than an answer may take.
pub fn feed_on(p: Pair, f: Frame, only: u8, buf: &mut [u8], part: &[u8], out: &mut [u8]) -> Fed
    requires { Good p × Held f × (only ≤ 2) × (kept_most ≤ length buf.old) }
    ensures fed { FedOn only p f buf.old part.now out.old buf.new out.new result }
    ensures held { Good result.pair × Held result.frame × (result.used ≤ length part.now) × (result.written ≤ length out.old) }
    ensures far { (result.used < length part.now → length out.old < result.written + room_most) × (0 < length part.now → room_most ≤ length out.old → 0 < result.used) }
{
    let mut pair = p;
    let mut frame = f;
    let mut used: usize = 0;
    let mut at: usize = 0;
    while goes_on(used, part.len(), out.len() - at) {
        let d = feed(pair, frame, only, buf, &part[used..], &mut out[at..]);
        let q = d.pair;
        pair = q;
        let g = d.frame;
        frame = g;
        used += d.used;
        at += d.written;
    }
    Fed {
        pair,
        frame,
        used,
        written: at,
    }
}

// The end of the input: what is not whole is answered. Behind it stand the last lines (`couple::last_lines`).
pub fn close(p: Pair, f: Frame, only: u8, out: &mut [u8]) -> PairAfter
    requires { Good p × Held f × (only ≤ 2) × (room_most ≤ length out.old) }
    ensures gave { Gave (ran only p (piece_of (end_what f.due f.fill.count) f.due [])) out.old out.new result.pair result.written }
    ensures good { Good result.pair × (result.written ≤ length out.old) }
{
    let due = f.due;
    take_piece(p, only, at_end(due, f.fill.count), due, b"", out)
}
