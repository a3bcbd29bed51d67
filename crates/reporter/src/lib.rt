// The supervisor's page as the log comes: each block is judged by the proved box, and what it did is written. Between two blocks only a few numbers for each seat are kept.
#![tactic(auto)]

ghost use Rattle.std.specs.Prelude.{◌≡◌};
ghost use Rattle.table.specs.Take.{Sound};
ghost use Rattle.desk.specs.Desk.{judged_of};
ghost use Rattle.reporter.specs.Telling.{notes_read, notes_parsed, notes_after, notes_of};

use blocks::Block;
use chairs::seats::chair_at;
use desk::Judged;
use notes::{Notes, place_of};
use page::pen::{Pen, Writer};
use paper::{Entry, Refusal, TAKEN};
use std::fmt::Write;
use story::Event;
use table::table::{Payout, Table};

// The table and the notes after a block, and the pen.
#[derive(Clone, Copy)]
pub struct Reported {
    pub table: Table,
    pub notes: Notes,
    pub pen: Pen,
}

// A block's five numbers.
#[derive(Clone, Copy)]
struct Raw {
    n: u32,
    kind: u32,
    seat: u32,
    a: u32,
    b: u32,
}

// The numbers of a block; those of one whose form is wrong are not known.
fn raw_of(b: Block) -> Raw {
    match b {
        Block::Raw {
            n,
            kind,
            seat,
            a,
            b,
        } => Raw {
            n,
            kind,
            seat,
            a,
            b,
        },
        Block::Malformed | Block::Nothing => Raw {
            n: 0,
            kind: 12,
            seat: 0,
            a: 0,
            b: 0,
        },
    }
}

// A block, and its seat at the tables before and after it.
fn event_of(b: Block, t: &Table, u: &Table) -> Event {
    let r = raw_of(b);
    let c = chair_at(t.chairs, r.seat);
    let d = chair_at(u.chairs, r.seat);
    Event {
        n: r.n,
        kind: r.kind,
        seat: r.seat,
        a: r.a,
        b: r.b,
        sitting: c.sitting,
        stack: c.stack,
        put: c.dealt.total,
        inside: 0 < c.dealt.sitting && c.dealt.sitting == c.sitting,
        after: d.sitting,
        left: d.stack,
    }
}

// A sitting leaves: its line, and its row.
fn put_leave(out: &mut [u8], p: Pen, m: &Notes, t: &Table, e: &Event, entry: Entry) -> Pen {
    let c = chair_at(t.chairs, e.seat);
    let a = m.account_now(c, place_of(e.seat));
    let line = story::put_event(out, p, e, entry);
    let row = closing::put_row(out, line, e.sitting, e.seat, a, e.stack);
    let mut w = Writer::over(out, row);
    // the pen keeps whether a write has failed
    let _ = w.write_str("<span>left</span></div>\n");
    w.pen
}

// A hand opens.
fn put_hand(out: &mut [u8], p: Pen, m: &Notes, t: &Table, u: &Table, e: &Event) -> Pen {
    let hands = accounts::added(m.hands, 1);
    let heading = dealings::put_opening(out, p, hands, e.n, e.seat);
    dealings::put_all_dealt(out, heading, t, u)
}

// A hand is settled: the end of its section.
fn put_settle(out: &mut [u8], p: Pen, m: &Notes, t: &Table, paid: Payout) -> Pen
    requires { Sound t.now }
{
    dealings::put_settled(out, p, &m.rounds_noted(t), t, paid)
}

// A taken entry: the line of it.
fn put_taken(
    out: &mut [u8],
    p: Pen,
    m: &Notes,
    t: &Table,
    j: &Judged,
    e: &Event,
    entry: Entry,
) -> Pen
    requires { Sound t.now }
{
    let pen = story::put_folded(out, p, m.refusing);
    match entry {
        Entry::Leave(_) => put_leave(out, pen, m, t, e, entry),
        Entry::Hand(_) => put_hand(out, pen, m, t, &j.table, e),
        Entry::Settle => put_settle(out, pen, m, t, j.payout),
        _ => story::put_event(out, pen, e, entry),
    }
}

// The entry of a block, where it was taken.
fn taken_of(b: Block, code: u8) -> Option<Entry> {
    match b {
        Block::Raw {
            kind,
            seat,
            a,
            b,
            ..
        } if code == TAKEN => blocks::entry_of(kind, seat, a, b).ok(),
        _ => None,
    }
}

// A block that was judged: its line.
fn put_block(out: &mut [u8], p: Pen, m: &Notes, t: &Table, b: Block, j: &Judged) -> Pen
    requires { Sound t.now }
{
    let e = event_of(b, t, &j.table);
    match taken_of(b, j.code) {
        Some(entry) => put_taken(out, p, m, t, j, &e, entry),
        None => story::put_refused(out, p, &e, j.code, !m.refusing),
    }
}

// The notes after an entry with its code.
#[tactic(auto, unfolding(crate::specs::Telling::notes_read))]
fn notes_read(m: Notes, t: &Table, e: Entry, code: u8, paid: &Payout) -> Notes
    ensures { result ≡ notes_read m t.now e code paid.now }
{
    if code == TAKEN {
        return m.taken(t, e, paid);
    }
    m.refused(code)
}

fn notes_parsed(m: Notes, t: &Table, p: Result<Entry, Refusal>, code: u8, paid: &Payout) -> Notes
    ensures { result ≡ notes_parsed m t.now p code paid.now }
{
    match p {
        Ok(e) => notes_read(m, t, e, code, paid),
        Err(_) => m.refused(code),
    }
}

// The notes after a block with its code, and what it paid.
fn notes_after(m: Notes, t: &Table, b: Block, code: u8, paid: &Payout) -> Notes
    ensures { result ≡ notes_after m t.now b code paid.now }
{
    match b {
        Block::Raw {
            n: _,
            kind,
            seat,
            a,
            b,
        } => notes_parsed(m, t, blocks::entry_of(kind, seat, a, b), code, paid),
        Block::Malformed => m.refused(code),
        Block::Nothing => m.refused(code),
    }
}

// A block: judged, and told.
pub fn tell(out: &mut [u8], p: Pen, m: Notes, t: Table, block: &[u8]) -> Reported
    requires { Sound t }
    ensures { (result.table ≡ (judged_of t block.now).table) × (result.notes ≡ notes_of m t block.now) × Sound result.table }
{
    let b = blocks::read_block(block);
    let j = desk::judge(t, block);
    let pen = put_block(out, p, &m, &t, b, &j);
    let u = j.table;
    let notes = notes_after(m, &t, b, j.code, &j.payout);
    Reported {
        table: u,
        notes,
        pen,
    }
}
