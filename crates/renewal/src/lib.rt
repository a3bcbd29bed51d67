// Logs from before the later requests: their sheets lack the last lines, and end where a block begins or with the input. Such a log gets today's sheet as it
// comes, byte by byte. Each later sheet line adds itself to the constants.
#![tactic(auto)]

ghost use Rattle.std.specs.Prelude.{◌≡◌, false, ◌-◌, ◌≤◌, ◌<◌, length};
ghost use Rattle.text.specs.TableSheet.{sheet_lines};
ghost use Rattle.writing.specs.AnswerSheet.{Wrote};
ghost use Rattle.renewal.specs.OldSheets.{first_lines, meant, missing, added_lines, added};
ghost use Rattle.renewal.specs.Renewing.{onward_of, may_end, held_step, step_of, close_of, start_of, InSheet, given_most};
ghost use Rattle.renewal.specs.Parts.{Gave, GivenOn};

use laws::both;
use text::line::after_lines;
use text::sheet::LINES;
use writing::put_bytes;

// How many lines the first sheets had.
const FIRST: usize = 5;

// What the lines say that came later, where a sheet lacks them.
const MEANT_ROOM: usize = 29;

const MEANT: [u8; MEANT_ROOM] = *b"step=1\ngame=2\ndeck=52\ndrop=0\n";

// A note about each of them.
pub const ADDED_ROOM: usize = 53;

const ADDED: [u8; ADDED_ROOM] = *b"added step=1\nadded game=2\nadded deck=52\nadded drop=0\n";

// No byte gives more bytes than this, nor does the close.
pub const MOST: usize = MEANT_ROOM + 2;

// The renewal between two bytes: how many lines have ended, whether a byte of the next has come, whether that is an `n` which is held back, and whether the
// sheet has ended.
#[derive(Clone, Copy)]
pub struct Renewal {
    pub lines: usize,
    pub begun: bool,
    pub held: bool,
    pub done: bool,
}

// The renewal after a byte or the close, and how many bytes are given.
#[derive(Clone, Copy)]
pub struct Stepped {
    pub renewal: Renewal,
    pub written: usize,
}

// Before the first byte.
pub fn start() -> Renewal
    ensures { (result ≡ start_of) × InSheet result }
{
    Renewal {
        lines: 0,
        begun: false,
        held: false,
        done: false,
    }
}

// How many of the later lines a sheet of k lines has.
fn later_lines(k: usize) -> usize
    ensures { result ≡ k - first_lines }
{
    if k < FIRST {
        return 0;
    }
    k - FIRST
}

// The lines that a sheet of k lines lacks.
fn put_missing(k: usize, out: &mut [u8]) -> usize
    requires { length meant ≤ length out.old }
    ensures { Wrote (missing k) out.old out.new result × (result ≤ length meant) }
{
    put_bytes(out, after_lines(&MEANT, later_lines(k)))
}

// A line about each line that a sheet of k lines lacks.
pub fn write_added(k: usize, out: &mut [u8]) -> usize
    requires { length added_lines ≤ length out.old }
    ensures { Wrote (added k) out.old out.new result × (result ≤ length out.old) }
{
    put_bytes(out, after_lines(&ADDED, later_lines(k)))
}

// Behind a byte of the line that n lines stand before.
fn onward(n: usize, b: u8) -> Renewal
    requires { n < sheet_lines }
    ensures { (result ≡ onward_of n b) × InSheet result }
{
    if b == 10 {
        let e = n + 1;
        return Renewal {
            lines: e,
            begun: false,
            held: false,
            done: LINES <= e,
        };
    }
    Renewal {
        lines: n,
        begun: true,
        held: false,
        done: false,
    }
}

// Whether an old sheet may end at this place.
fn may_end(begun: bool, n: usize) -> bool
    ensures { result ≡ may_end (record { lines = n; begun = begun; held = false; done = false }) }
{
    if begun {
        return false;
    }
    FIRST <= n
}

// The byte behind a held `n`: with `=` a block begins, and before it stand the lines that the sheet lacks.
fn step_held(n: usize, b: u8, out: &mut [u8]) -> Stepped
    requires { (n < sheet_lines) × (given_most ≤ length out.old) }
    ensures gave { Gave (held_step n b) out.old out.new result.renewal result.written }
    ensures held { InSheet result.renewal × (result.written ≤ given_most) }
{
    if b == 61 {
        let a = put_missing(n, out);
        let w = put_bytes(&mut out[a..], b"n=");
        let s = Renewal {
            lines: n,
            begun: false,
            held: false,
            done: true,
        };
        return Stepped {
            renewal: s,
            written: a + w,
        };
    }
    out[0] = 110;
    out[1] = b;
    let s = onward(n, b);
    Stepped {
        renewal: s,
        written: 2,
    }
}

// One byte more.
fn step(s: Renewal, b: u8, out: &mut [u8]) -> Stepped
    requires { InSheet s × (given_most ≤ length out.old) }
    ensures gave { Gave (step_of s b) out.old out.new result.renewal result.written }
    ensures held { InSheet result.renewal × (result.written ≤ given_most) }
{
    if s.done {
        out[0] = b;
        return Stepped {
            renewal: s,
            written: 1,
        };
    }
    let n = s.lines;
    if s.held {
        return step_held(n, b, out);
    }
    if both(may_end(s.begun, n), b == 110) {
        let h = Renewal {
            lines: n,
            begun: true,
            held: true,
            done: false,
        };
        return Stepped {
            renewal: h,
            written: 0,
        };
    }
    out[0] = b;
    let t = onward(n, b);
    Stepped {
        renewal: t,
        written: 1,
    }
}

// The renewal after a part of the log, how many of its bytes are used up, and how many bytes are given.
#[derive(Clone, Copy)]
pub struct Given {
    pub renewal: Renewal,
    pub used: usize,
    pub written: usize,
}

// A part of the log, byte after byte, until the sheet has ended, the part is used up, or there is less room than a byte may give. Behind the sheet every
// byte passes, so the caller takes the rest as it is.
pub fn renew_on(s: Renewal, part: &[u8], out: &mut [u8]) -> Given
    requires { InSheet s }
    ensures gave { GivenOn s part.now out.old out.new result }
    ensures held { InSheet result.renewal × (result.used ≤ length part.now) × (result.written ≤ length out.old) }
    ensures far { s.done ≡ false → 0 < length part.now → given_most ≤ length out.old → 0 < result.used }
{
    let mut renewal = s;
    let mut at: usize = 0;
    for (i, b) in part.iter().enumerate() {
        if renewal.done || out.len() - at < MOST {
            return Given {
                renewal,
                used: i,
                written: at,
            };
        }
        let d = step(renewal, *b, &mut out[at..]);
        renewal = d.renewal;
        at += d.written;
    }
    Given {
        renewal,
        used: part.len(),
        written: at,
    }
}

// The end of the log: a held `n` is given, and where the sheet may end there the lines that it lacks are.
pub fn close(s: Renewal, out: &mut [u8]) -> Stepped
    requires { InSheet s × (given_most ≤ length out.old) }
    ensures gave { Gave (close_of s) out.old out.new result.renewal result.written }
    ensures held { InSheet result.renewal × (result.written ≤ length out.old) }
{
    if s.done {
        return Stepped {
            renewal: s,
            written: 0,
        };
    }
    let n = s.lines;
    if s.held {
        out[0] = 110;
        let t = Renewal {
            lines: n,
            begun: true,
            held: false,
            done: false,
        };
        return Stepped {
            renewal: t,
            written: 1,
        };
    }
    if may_end(s.begun, n) {
        let w = put_missing(n, out);
        let t = Renewal {
            lines: n,
            begun: false,
            held: false,
            done: true,
        };
        return Stepped {
            renewal: t,
            written: w,
        };
    }
    Stepped {
        renewal: s,
        written: 0,
    }
}
