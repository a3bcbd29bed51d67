// What the input of two tables is cut into (request No. 7, the program `pair`): the opening, blocks of a table, whole or cut short, and lines of no table. Bytes come
// in parts: the unfinished lines are kept in a lent buffer, and a line is looked at as its LF arrives.
#![tactic(auto)]

ghost use Rattle.std.specs.Prelude.{◌≡◌, ◌+◌, ◌≤◌, ◌<◌, length};
ghost use Rattle.laws.specs.Tests.{pick};
ghost use Rattle.writing.specs.AnswerSheet.{over};
ghost use Rattle.lines.specs.Kept.{nothing, fill_of, gather_of, kept_in, kept_most};
ghost use Rattle.frames.specs.Frames.{table_in, table_of, wanted, in_opening, after_part, kept_next, table_next, other_next, line_next, end_what, start_of, Held, heard_as};

use lines::{Fill, empty, gather};
use text::read_key_number;
use text::sheet::LINES;

// Table 1, or table 2.
#[derive(Clone, Copy)]
pub enum Which {
    First,
    Second,
}

// What is due.
#[derive(Clone, Copy)]
pub enum Due {
    // The pool's line.
    Pool,
    // The sheet of a table.
    Sheet(Which),
    // A `table` line.
    Table,
    // A `table` line within a run of lines of no table.
    Stray,
    // The lines of a block of a table.
    Block(Which),
}

// What a line or the end of the input has made whole.
#[derive(Clone, Copy)]
pub enum Made {
    // A part of the opening or a block, as it lies in the buffer.
    Whole,
    // A block that is cut short.
    Cut,
    // The first of some lines of no table.
    OfNone,
    // An opening that is not whole.
    Missing,
}

// What is due, and what is kept of its lines.
#[derive(Clone, Copy)]
pub struct Frame {
    pub due: Due,
    pub fill: Fill,
}

// What is due next, whether the lines are kept on, and what was made whole, if anything.
#[derive(Clone, Copy)]
pub struct Next {
    pub due: Due,
    pub keeps: bool,
    pub what: Option<Made>,
}

// The frame after some bytes, how many are used up, what was made whole, what was due for it, and how many bytes of it lie in the buffer.
#[derive(Clone, Copy)]
pub struct Heard {
    pub frame: Frame,
    pub used: usize,
    pub what: Option<Made>,
    pub of: Due,
    pub count: usize,
}

// Before the first byte.
pub fn start() -> Frame
    ensures { (result ≡ start_of) × Held result }
{
    let z = empty();
    Frame {
        due: Due::Pool,
        fill: z,
    }
}

// The table of a number, where it is 1 or 2.
fn table_in(x: Option<u32>) -> Option<Which>
    ensures { result ≡ table_in x }
{
    match x {
        Some(v) => {
            if v == 1 {
                return Some(Which::First);
            }
            if v == 2 {
                return Some(Which::Second);
            }
            None
        }
        None => None,
    }
}

// The table of a good `table` line.
pub fn table_of(line: &[u8]) -> Option<Which>
    ensures { result ≡ table_of line.now }
{
    table_in(read_key_number(line, b"table"))
}

// How many lines are gathered for what is due.
fn wanted(due: Due) -> usize
    ensures { result ≡ wanted due }
{
    match due {
        Due::Pool => 1,
        Due::Sheet(_) => LINES,
        Due::Table => 1,
        Due::Stray => 1,
        Due::Block(_) => 5,
    }
}

// Whether a part of the opening is due.
fn in_opening(due: Due) -> bool
    ensures { result ≡ in_opening due }
{
    matches!(due, Due::Pool | Due::Sheet(_))
}

// What is due behind a part of the opening.
fn after_part(due: Due) -> Due
    ensures { result ≡ after_part due }
{
    match due {
        Due::Pool => Due::Sheet(Which::First),
        Due::Sheet(Which::First) => Due::Sheet(Which::Second),
        Due::Sheet(Which::Second) => Due::Table,
        Due::Table => due,
        Due::Stray => due,
        Due::Block(_) => due,
    }
}

// A line of the opening or of a block: with its last line it is whole, and something else is due.
fn kept_next(due: Due, lines: usize, after: Due) -> Next
    ensures { result ≡ kept_next due lines after }
{
    if lines < wanted(due) {
        return Next {
            due: due,
            keeps: true,
            what: None,
        };
    }
    Next {
        due: after,
        keeps: false,
        what: Some(Made::Whole),
    }
}

// A good `table` line begins a block, whatever was due; a block that is under way is cut short.
fn table_next(due: Due, table: Which) -> Next
    ensures { result ≡ table_next due table }
{
    if let Due::Block(_) = due {
        return Next {
            due: Due::Block(table),
            keeps: false,
            what: Some(Made::Cut),
        };
    }
    Next {
        due: Due::Block(table),
        keeps: false,
        what: None,
    }
}

// Any other line: where a `table` line is due it is of no table, and the first of a run of them is answered.
fn other_next(due: Due, lines: usize) -> Next
    ensures { result ≡ other_next due lines }
{
    match due {
        Due::Table => Next {
            due: Due::Stray,
            keeps: false,
            what: Some(Made::OfNone),
        },
        Due::Block(_) => kept_next(due, lines, Due::Table),
        _ => Next {
            due: Due::Stray,
            keeps: false,
            what: None,
        },
    }
}

// A line, the last of so many that are kept, which names that table.
fn line_next(due: Due, lines: usize, table: Option<Which>) -> Next
    ensures { result ≡ line_next due lines table }
{
    if in_opening(due) {
        return kept_next(due, lines, after_part(due));
    }
    match table {
        None => other_next(due, lines),
        Some(t) => table_next(due, t),
    }
}

// What is kept on, or nothing.
fn kept_fill(keeps: bool, m: Fill) -> Fill
    ensures { result ≡ pick keeps m (fill_of nothing) }
{
    if keeps {
        return m;
    }
    empty()
}

// The bytes of a part up to the next LF, or all of them.
pub fn hear(f: Frame, buf: &mut [u8], part: &[u8]) -> Heard
    requires { Held f × (kept_most ≤ length buf.old) }
    ensures heard { result ≡ heard_as f (gather_of (f.fill.lines + 1) (kept_in f.fill buf.old) part.now) }
    ensures kept { buf.new ≡ over (gather_of (f.fill.lines + 1) (kept_in f.fill buf.old) part.now).kept.bytes buf.old }
    ensures held { Held result.frame × (result.used ≤ length part.now) × (0 < length part.now → 0 < result.used) × (result.count ≤ kept_most) }
{
    let m = f.fill;
    let from = m.count - m.width;
    let n = m.lines;
    let g = gather(buf, m, part, n + 1);
    let k = g.fill;
    let due = f.due;
    if k.lines <= n {
        let d = Frame { due, fill: k };
        return Heard {
            frame: d,
            used: g.used,
            what: None,
            of: due,
            count: 0,
        };
    }
    let e = k.count;
    let t = table_of(&buf[from..e]);
    let x = line_next(due, k.lines, t);
    let d = Frame {
        due: x.due,
        fill: kept_fill(x.keeps, k),
    };
    Heard {
        frame: d,
        used: g.used,
        what: x.what,
        of: due,
        count: e,
    }
}

// What the end of the input makes whole, with so many bytes kept.
pub fn at_end(due: Due, count: usize) -> Option<Made>
    ensures { result ≡ end_what due count }
{
    match due {
        Due::Pool => Some(Made::Missing),
        Due::Sheet(_) => Some(Made::Missing),
        Due::Table => {
            if count == 0 {
                return None;
            }
            Some(Made::OfNone)
        }
        Due::Stray => None,
        Due::Block(_) => Some(Made::Cut),
    }
}
