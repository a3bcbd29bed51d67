// What is kept between two lines: the tray, the sittings listed since the last `unclaimed`, and what is due.
ghost use Rattle.std.specs.Prelude.{◌≡◌, not, ◌+◌, min, set};
ghost use Rattle.laws.specs.Tests.{either};
ghost use Rattle.teller.specs.Keeping.{none_listed, started, with_tray, due_after, within_due, fits_due, taken_due, tray_line, sitting_line, paid_line, listing, answer_line, give_line, faulty, anew, Sound};

use crate::keys::{Line, PAID, SITTING, UNCLAIMED};
use laws::{both, either};
use rows::Row;

// What is due: the tray's lines; the lines of answers; a proposal's; nothing more, since the tray has a fault.
pub const ROWS_DUE: u32 = 0;

pub const WORTH_DUE: u32 = 1;

pub const COUNT_DUE: u32 = 2;

pub const ANSWERS_DUE: u32 = 3;

pub const PROPOSAL_DUE: u32 = 4;

pub const FAULT: u32 = 5;

// The tray: how many rows it has, how many were read, the worth that waits for its count, and the rows.
#[derive(Clone, Copy)]
pub struct Tray {
    pub rows: usize,
    pub read: usize,
    pub worth: u32,
    pub row: [Row; 16],
}

// The sittings listed since the last `unclaimed`, at most eleven counted; whether one waits for its `paid`; whether something was wrong.
#[derive(Clone, Copy)]
pub struct Listed {
    pub count: usize,
    pub half: bool,
    pub bad: bool,
    pub sittings: [u32; 10],
    pub paid: [u32; 10],
}

// What is due, how many `give` lines were read, the tray and the listed sittings.
#[derive(Clone, Copy)]
pub struct Teller {
    pub due: u32,
    pub given: usize,
    pub tray: Tray,
    pub listed: Listed,
}

fn none_listed() -> Listed
    ensures { result ≡ none_listed }
{
    Listed {
        count: 0,
        half: false,
        bad: false,
        sittings: [0; 10],
        paid: [0; 10],
    }
}

// Before the first line.
pub fn start() -> Teller
    ensures { (result ≡ started) × Sound result }
{
    let row = [Row { worth: 0, count: 0 }; 16];
    let tray = Tray {
        rows: 0,
        read: 0,
        worth: 0,
        row,
    };
    let listed = none_listed();
    Teller {
        due: ROWS_DUE,
        given: 0,
        tray,
        listed,
    }
}

// Behind a block that was answered, with these rows.
pub fn anew(s: Teller, row: [Row; 16]) -> Teller
    ensures { result ≡ anew s row }
{
    let mut tray = s.tray;
    tray.row = row;
    let listed = none_listed();
    Teller {
        due: ANSWERS_DUE,
        given: 0,
        tray,
        listed,
    }
}

// ---- the tray's lines

fn with_tray(s: Teller, due: u32, tray: Tray) -> Teller
    ensures { result ≡ with_tray s due tray }
{
    let listed = s.listed;
    Teller {
        due,
        given: s.given,
        tray,
        listed,
    }
}

// What is due behind so many of so many rows.
fn due_after(read: usize, rows: usize) -> u32
    ensures { result ≡ due_after read rows }
{
    if read < rows { WORTH_DUE } else { ANSWERS_DUE }
}

// Whether a number of the tray's line that is due is within its bounds.
fn within_due(due: u32, v: u32) -> bool
    ensures { result ≡ within_due due v }
{
    if due == ROWS_DUE {
        return v <= 16;
    }
    if due == WORTH_DUE {
        return both(1 <= v, v <= 100000);
    }
    v <= 10000
}

// Whether the line is the tray's line that is due, and good.
fn fits_due(due: u32, l: Line) -> bool
    ensures { result ≡ fits_due due l }
{
    let same = l.kind == due;
    both(l.good, both(same, within_due(due, l.value)))
}

// One more, up to so many.
fn one_more(n: usize, most: usize) -> usize
    ensures { result ≡ min (n + 1) most }
{
    if n < most { n + 1 } else { most }
}

// A value is put at a place; past the end there is none.
pub fn put<T: Copy>(list: &mut [T], i: usize, v: T)
    ensures { list.new ≡ set list.old i v }
{
    if i < list.len() {
        list[i] = v;
    }
}

// The tray's line that is due is good, and this is its number.
fn taken_due(s: Teller, v: u32) -> Teller
    ensures { result ≡ taken_due s v }
{
    let mut tray = s.tray;
    if s.due == ROWS_DUE {
        let n = v as usize;
        tray.rows = n;
        return with_tray(s, due_after(0, n), tray);
    }
    if s.due == WORTH_DUE {
        tray.worth = v;
        return with_tray(s, COUNT_DUE, tray);
    }
    let r = Row {
        worth: tray.worth,
        count: v,
    };
    let mut row = tray.row;
    put(&mut row, tray.read, r);
    tray.row = row;
    tray.read = one_more(tray.read, 16);
    with_tray(s, due_after(tray.read, tray.rows), tray)
}

// A line where a line of the tray is due: any other than that one is a fault.
pub fn tray_line(s: Teller, l: Line) -> Teller
    ensures { result ≡ tray_line s l }
{
    if fits_due(s.due, l) {
        return taken_due(s, l.value);
    }
    let tray = s.tray;
    with_tray(s, FAULT, tray)
}

// ---- the lines of answers

// Whether something was wrong, or is wrong now.
fn now_bad(bad: bool, wrong: bool, good: bool) -> bool
    ensures { result ≡ either bad (either wrong (not good)) }
{
    either(bad, either(wrong, !good))
}

// A sitting, where none waits for its `paid`.
fn sitting_line(x: Listed, l: Line) -> Listed
    ensures { result ≡ sitting_line x l }
{
    let mut sittings = x.sittings;
    put(&mut sittings, x.count, l.value);
    let paid = x.paid;
    Listed {
        count: x.count,
        half: true,
        bad: now_bad(x.bad, x.half, l.good),
        sittings,
        paid,
    }
}

// What the sitting that waits is paid.
fn paid_line(x: Listed, l: Line) -> Listed
    ensures { result ≡ paid_line x l }
{
    let mut paid = x.paid;
    put(&mut paid, x.count, l.value);
    let sittings = x.sittings;
    Listed {
        count: one_more(x.count, 11),
        half: false,
        bad: now_bad(x.bad, !x.half, l.good),
        sittings,
        paid,
    }
}

// The same sittings, with something wrong or not.
fn marked(x: Listed, bad: bool) -> Listed
    ensures { result ≡ record { count = x.count; half = x.half; bad = bad; sittings = x.sittings; paid = x.paid } }
{
    let mut y = x;
    y.bad = bad;
    y
}

fn listing(s: Teller, due: u32, listed: Listed) -> Teller
    ensures { result ≡ listing s due listed }
{
    let tray = s.tray;
    Teller {
        due,
        given: 0,
        tray,
        listed,
    }
}

// A line where answers are due: at an `unclaimed` the payment is due.
pub fn answer_line(s: Teller, l: Line) -> Teller
    ensures { result ≡ answer_line s l }
{
    let x = s.listed;
    if l.kind == SITTING {
        return listing(s, ANSWERS_DUE, sitting_line(x, l));
    }
    if l.kind == PAID {
        return listing(s, ANSWERS_DUE, paid_line(x, l));
    }
    if l.kind == UNCLAIMED {
        return listing(s, PROPOSAL_DUE, marked(x, now_bad(x.bad, x.half, l.good)));
    }
    s
}

// A `give` line of a proposal.
pub fn give_line(s: Teller, l: Line) -> Teller
    ensures { result ≡ give_line s l }
{
    let x = s.listed;
    let listed = marked(x, now_bad(x.bad, false, l.good));
    let tray = s.tray;
    Teller {
        due: s.due,
        given: one_more(s.given, 161),
        tray,
        listed,
    }
}

// Whether the listed sittings can't be paid.
pub fn faulty(x: Listed) -> bool
    ensures { result ≡ faulty x }
{
    either(x.bad, 10 < x.count)
}
