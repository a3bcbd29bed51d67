// One block at the desk: read, taken at the table, answered.
#![tactic(auto)]

ghost use Rattle.std.specs.Prelude.{◌≡◌, ◌<◌, ◌^◌};
ghost use Rattle.writing.specs.AnswerSheet.{sheet_after, written_of};
ghost use Rattle.blocks.specs.Block.{rest_of};
ghost use Rattle.answers.specs.Answer.{SmallShown};
ghost use Rattle.table.specs.Take.{Sound};
ghost use Rattle.desk.specs.Desk.{rows_of, payout_shown, shown_of, refused_at, judge_block, judged_of, judged_bytes, block_bytes, answered_from, answered_of, number_of_block, SmallPaid, Closed};
ghost use Rattle.desk.specs.Room.{room_of};
ghost use Rattle.desk.specs.Plans.{no_entry, plan_parsed, plan_of};

use answers::{PaidRow, Shown, ShownPayout, answer_len, write_answer};
use blocks::Block;
use paper::{Entry, MALFORMED, NO_ROOM, OUT_OF_RANGE, Refusal, TAKEN, or_else};
use quiet::shown_with;
use table::settle::stands_now;
use table::table::Table;

pub mod log;
pub mod quiet;

// A row for each seat: the sitting dealt in there, and what it is paid.
fn rows_of(sittings: [u32; 10], paid: [u32; 10]) -> [PaidRow; 10]
    ensures { result ≡ rows_of sittings paid }
{
    let none = PaidRow {
        sitting: 0,
        paid: 0,
    };
    let mut rows = [none; 10];
    for i in 0..10 {
        rows[i] = PaidRow {
            sitting: sittings[i],
            paid: paid[i],
        };
    }
    rows
}

// What an answer shows of a payout at a table that shares no pool.
fn payout_shown(p: table::table::Payout) -> ShownPayout
    ensures { result ≡ payout_shown p }
{
    let sittings = p.sittings;
    let paid = p.paid;
    ShownPayout {
        fee: p.fee,
        jackpot: None,
        rows: rows_of(sittings, paid),
        unclaimed: p.unclaimed,
    }
}

// What an answer shows of a table, and of what a settle that was taken paid.
pub fn shown_of(n: u32, code: u8, t: Table, paid: table::table::Payout) -> Shown
    requires { Sound t × (n < 10 ^ 9) × SmallPaid paid × Closed t paid }
    ensures { (result ≡ shown_of n code t paid) × SmallShown result }
{
    shown_with(n, code, t, stands_now(t), paid)
}

// Whether there was a block, its number, its code, the table after it, and what it paid.
#[derive(Clone, Copy)]
pub struct Judged {
    pub block: bool,
    pub n: u32,
    pub code: u8,
    pub table: Table,
    pub payout: table::table::Payout,
}

pub fn refused(t: Table, n: u32, code: u8) -> Judged
    ensures { result ≡ refused_at t n code }
{
    let none = table::settle::no_payout();
    Judged {
        block: true,
        n: n,
        code: code,
        table: t,
        payout: none,
    }
}

// A block as an entry for the table: whether there is one, its number, the code that it has already where it makes no entry, and the entry, or one that every
// table refuses. So each block is taken, and no two tables meet where the ways part.
#[derive(Clone, Copy)]
pub struct Planned {
    pub block: bool,
    pub n: u32,
    pub code: u8,
    pub entry: Entry,
}

// What makes no entry has its code already.
fn no_entry(block: bool, n: u32, code: u8) -> Planned
    ensures { result ≡ no_entry block n code }
{
    Planned {
        block,
        n,
        code,
        entry: Entry::Void,
    }
}

fn plan_parsed(n: u32, p: Result<Entry, Refusal>) -> Planned
    ensures { result ≡ plan_parsed n p }
{
    match p {
        Err(_) => no_entry(true, n, OUT_OF_RANGE),
        Ok(e) => Planned {
            block: true,
            n,
            code: TAKEN,
            entry: e,
        },
    }
}

pub fn plan(b: Block) -> Planned
    ensures { result ≡ plan_of b }
{
    match b {
        Block::Raw {
            n,
            kind,
            seat,
            a,
            b,
        } => plan_parsed(n, blocks::entry_of(kind, seat, a, b)),
        Block::Malformed => no_entry(true, 0, MALFORMED),
        Block::Nothing => no_entry(false, 0, MALFORMED),
    }
}

// A block, judged by its plan: what has its code already is taken as an entry that every table refuses.
pub fn judge_block(t: Table, b: Block) -> Judged
    requires { Sound t × (number_of_block b < 10 ^ 9) }
    ensures { (result ≡ judge_block t b) × Sound result.table × SmallPaid result.payout × (result.n < 10 ^ 9) }
{
    let p = plan(b);
    let e = p.entry;
    let k = t.take(p.n, e);
    let u = k.table;
    let paid = k.payout;
    Judged {
        block: p.block,
        n: p.n,
        code: or_else(p.code, k.code),
        table: u,
        payout: paid,
    }
}

// The block at the front of a log, judged at a table.
pub fn judge(t: Table, log: &[u8]) -> Judged
    requires { Sound t }
    ensures { (result ≡ judged_of t log.now) × Sound result.table × SmallPaid result.payout × (result.n < 10 ^ 9) }
{
    judge_block(t, blocks::read_block(log))
}

// What the answer to a block says to the caller: whether there was a block, its code, the table after it, and how many bytes were written. Where no bytes
// are left there is no block and no answer: nothing is written, and the table is the one before.
#[derive(Clone, Copy)]
pub struct Answered {
    pub block: bool,
    pub code: u8,
    pub table: Table,
    pub written: usize,
}

// The answer to a block that was read, at the front of the sheet. A block whose answer was not written is not taken: code 12.
pub fn answer_block(table: Table, b: Block, sheet: &mut [u8]) -> Answered
    requires { Sound table × (number_of_block b < 10 ^ 9) }
    ensures answer { result ≡ answered_from table (judge_block table b) (written_of (judged_bytes (judge_block table b)) sheet.old) }
    ensures bytes { sheet.new ≡ sheet_after (judged_bytes (judge_block table b)) sheet.old }
    ensures sound { Sound result.table }
{
    let j = judge_block(table, b);
    let u = j.table;
    if !j.block {
        return Answered {
            block: false,
            code: j.code,
            table: u,
            written: 0,
        };
    }
    let paid = j.payout;
    let s = shown_of(j.n, j.code, u, paid);
    let w = write_answer(sheet, s);
    let Ok(k) = w else {
        return Answered {
            block: j.block,
            code: NO_ROOM,
            table,
            written: 0,
        };
    };
    Answered {
        block: j.block,
        code: j.code,
        table: u,
        written: k,
    }
}

// The answer to the block at the front of a log, at the front of the sheet.
pub fn answer(table: Table, log: &[u8], sheet: &mut [u8]) -> Answered
    requires { Sound table }
    ensures answer { result ≡ answered_of table log.now sheet.old }
    ensures bytes { sheet.new ≡ sheet_after (block_bytes table log.now) sheet.old }
    ensures sound { Sound result.table }
{
    answer_block(table, blocks::read_block(log), sheet)
}

// How many bytes the answer to the block at the front of a log takes, said before it is answered: nothing is taken, and a sheet of so many bytes has room
// for it. No bytes are left: 0.
pub fn answer_room(t: Table, log: &[u8]) -> usize
    requires { Sound t }
    ensures { result ≡ room_of t log.now }
{
    let j = judge(t, log);
    if !j.block {
        return 0;
    }
    let u = j.table;
    let paid = j.payout;
    answer_len(shown_of(j.n, j.code, u, paid))
}

// What follows the block.
pub fn rest(log: &[u8]) -> &[u8]
    ensures { result.now ≡ rest_of log.now }
{
    blocks::rest(log)
}
