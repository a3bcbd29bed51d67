// The picture of an answer block for a person: fixed-width rows, drawn line by line as the answer's lines arrive, in constant memory.
#![tactic(auto)]

mod reading;
mod rows;

ghost use Rattle.std.specs.Prelude.{◌≡◌, false, ◌+◌, ◌≤◌, ◌<◌, length};
ghost use Rattle.figures.specs.Placing.{Put};
ghost use Rattle.picture.specs.Lines.{Answering};
ghost use Rattle.picture.specs.Rows.{visible_of, visible_all, mark_of, foreign_row};
ghost use Rattle.figures.specs.ScreenRow.{counted_of};
ghost use Rattle.picture.specs.Screen.{line_most, line_room, drawn_most, close_most, Held, state_of, start_of, said_of, shown_of, step_of, close_of};
ghost use Rattle.picture.specs.Parts.{DrawnOn};

use figures::put::{put, put_if};
use figures::row;
use figures::row::KINDS;
use reading::read_line;
use rows::put_answer;

// How many bytes of an unfinished line are kept.
const LINE: usize = 40;

// The buffer that they lie in: with room for the LF.
pub const LINE_ROOM: usize = LINE + 1;

// No byte draws more bytes than this.
pub const MOST: usize = 400;

// Nor does the end of the input draw more than that.
pub const CLOSE_MOST: usize = 60;

// What a line says: its kind, by its place in the table of keys, and its number; the number of keys for a line that is no answer line.
#[derive(Clone, Copy)]
pub struct Line {
    pub kind: usize,
    pub value: u32,
}

// The screen between two bytes: how many bytes of the unfinished line are kept, whether bytes of it were shown already, the kind of the line
// before, and how many pots were shown in a row.
#[derive(Clone, Copy)]
pub struct Screen {
    pub count: usize,
    pub long: bool,
    pub last: usize,
    pub pots: u32,
}

#[derive(Clone, Copy)]
pub struct Stepped {
    pub screen: Screen,
    pub at: usize,
}

// Before the first byte.
pub fn start() -> Screen
    ensures { (result ≡ start_of) × Held result }
{
    Screen {
        count: 0,
        long: false,
        last: KINDS,
        pots: 0,
    }
}

// A byte of a foreign line as it is shown: as it is where it is printable, since another could drive the terminal.
fn visible(b: u8) -> u8
    ensures { result ≡ visible_of b }
{
    if b < 32 {
        return 46;
    }
    if 126 < b {
        return 46;
    }
    b
}

// The bytes of a foreign line.
fn put_visible(out: &mut [u8], at: usize, bytes: &[u8]) -> usize
    requires { at + length bytes.now ≤ length out.old }
    ensures { Put (visible_all bytes.now) at out.old out.new result × (result ≡ at + length bytes.now) }
{
    for (i, b) in bytes.iter().enumerate() {
        out[at + i] = visible(*b);
    }
    at + bytes.len()
}

// What stands before a foreign line, and before what is left of a long one.
fn mark(long: bool) -> [u8; 2]
    ensures { result ≡ mark_of long }
{
    if long {
        return [62, 32];
    }
    [63, 32]
}

// A line that is no answer line, behind a mark.
fn put_foreign(out: &mut [u8], at: usize, last: usize, long: bool, bytes: &[u8]) -> usize
    requires { (length bytes.now ≤ line_most) × (at + close_most ≤ length out.old) }
    ensures { Put (foreign_row last long bytes.now) at out.old out.new result × (result ≤ at + close_most) }
{
    let a = put_if(out, at, row::half(last), b"\n");
    let m = mark(long);
    let b = put(out, a, &m);
    let c = put_visible(out, b, bytes);
    put(out, c, b"\n")
}

// What the kept line says, once its LF stands behind it.
fn said(long: bool, line: &[u8]) -> Line
    ensures { (result ≡ said_of long line.now) × Answering result }
{
    if long {
        return Line {
            kind: KINDS,
            value: 0,
        };
    }
    read_line(line)
}

// The picture of a line: of an answer line what it says, of another its bytes behind a mark.
fn put_said(out: &mut [u8], at: usize, colour: bool, s: Screen, l: Line, bytes: &[u8]) -> usize
    requires { Held s × Answering l × (length bytes.now ≤ line_most) × (at + drawn_most ≤ length out.old) }
    ensures { Put (shown_of colour s.last s.long s.pots l bytes.now) at out.old out.new result × (result ≤ at + drawn_most) }
{
    if l.kind < KINDS {
        return put_answer(out, at, colour, s.last, s.pots, l);
    }
    put_foreign(out, at, s.last, s.long, bytes)
}

// The screen after a line that said l.
fn after(pots: u32, l: Line) -> Screen
    requires { (pots ≤ 999999999) × Answering l }
    ensures { (result.count ≡ 0) × (result.long ≡ false) × (result.last ≡ l.kind) × (result.pots ≡ counted_of pots l.kind) × Held result }
{
    Screen {
        count: 0,
        long: false,
        last: l.kind,
        pots: row::counted(pots, l.kind),
    }
}

// One byte more. A line is drawn when its LF comes; of a line that grows longer than is kept its first bytes are shown, and the rest is kept on.
pub fn step(colour: bool, s: Screen, buf: &mut [u8], b: u8, out: &mut [u8], at: usize) -> Stepped
    requires { Held s × (line_room ≤ length buf.old) × (at + drawn_most ≤ length out.old) }
    ensures drawn { Put (step_of colour (state_of s buf.old) b).drawn at out.old out.new result.at }
    ensures state { state_of result.screen buf.new ≡ (step_of colour (state_of s buf.old) b).after }
    ensures held { Held result.screen × (result.at ≤ at + drawn_most) }
{
    let n = s.count;
    if b == 10 {
        buf[n] = 10;
        let e = n + 1;
        let l = said(s.long, &buf[0..e]);
        let end = put_said(out, at, colour, s, l, &buf[0..n]);
        let next = after(s.pots, l);
        return Stepped {
            screen: next,
            at: end,
        };
    }
    if n < LINE {
        buf[n] = b;
        let next = Screen {
            count: n + 1,
            long: s.long,
            last: s.last,
            pots: s.pots,
        };
        return Stepped { screen: next, at };
    }
    let end = put_foreign(out, at, s.last, s.long, &buf[0..n]);
    buf[0] = b;
    let next = Screen {
        count: 1,
        long: true,
        last: KINDS,
        pots: 0,
    };
    Stepped {
        screen: next,
        at: end,
    }
}

// The screen after a part of the input, how many of its bytes are used up, and how many bytes are drawn.
#[derive(Clone, Copy)]
pub struct Drawn {
    pub screen: Screen,
    pub used: usize,
    pub written: usize,
}

// A part of the input, byte after byte, until it is used up, or until there is less room than a byte may draw.
pub fn draw_on(colour: bool, s: Screen, buf: &mut [u8], part: &[u8], out: &mut [u8]) -> Drawn
    requires { Held s × (line_room ≤ length buf.old) }
    ensures drawn { DrawnOn colour s buf.old part.now out.old buf.new out.new result }
    ensures held { Held result.screen × (result.used ≤ length part.now) × (result.written ≤ length out.old) }
    ensures far { (result.used < length part.now → length out.old < result.written + drawn_most) × (0 < length part.now → drawn_most ≤ length out.old → 0 < result.used) }
{
    let mut screen = s;
    let mut at: usize = 0;
    for (i, b) in part.iter().enumerate() {
        if out.len() - at < MOST {
            return Drawn {
                screen,
                used: i,
                written: at,
            };
        }
        let d = step(colour, screen, buf, *b, out, at);
        screen = d.screen;
        at = d.at;
    }
    Drawn {
        screen,
        used: part.len(),
        written: at,
    }
}

// The end of the input: a line without its LF is no answer line, and a row that is not whole ends.
pub fn close(s: Screen, buf: &[u8], out: &mut [u8], at: usize) -> usize
    requires { Held s × (line_room ≤ length buf.now) × (at + close_most ≤ length out.old) }
    ensures { Put (close_of (state_of s buf.now)) at out.old out.new result × (result ≤ at + close_most) }
{
    let n = s.count;
    if n == 0 {
        return put_if(out, at, row::half(s.last), b"\n");
    }
    put_foreign(out, at, s.last, s.long, &buf[0..n])
}
