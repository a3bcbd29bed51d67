// A table with its stored log: an entry is taken and kept, a correction replaces one entry and the log is read afresh. A block is judged first and its answer
// written; only then, where it is taken, are the two lent buffers changed.
#![tactic(auto)]

pub mod judged;

ghost use Rattle.std.specs.Prelude.{◌≡◌, true, ◌≤◌, ◌<◌, ◌^◌, length};
ghost use Rattle.paper.specs.Paper.{is_sheet};
ghost use Rattle.blocks.specs.Block.{block_of};
ghost use Rattle.writing.specs.AnswerSheet.{sheet_after, written_of};
ghost use Rattle.table.specs.Take.{Sound};
ghost use Rattle.desk.specs.Desk.{judged_bytes, number_of_block, SmallPaid, Closed};
ghost use Rattle.ledger.specs.Keeping.{opened_of, Held, was_taken, hands_after, log_after, index_kept, answered_as};
ghost use Rattle.ledger.specs.Entering.{entered_of, log_entered, index_entered, sheet_entered};
ghost use Rattle.amends.specs.Righting.{number_of};
ghost use Rattle.ledger.specs.Righting.{log_righted, index_righted, sheet_righted, righted_of, answer_of, log_of, index_of, sheet_of};
ghost use Rattle.ledger.specs.Righting as righting;

use amends::{Right, is_right, judge_right, read_right};
use blocks::Block;
use desk::Judged;
use desk::quiet::write_judged;
use fresh::{put_row_if, write_rows};
use judged::{judge_entry, numbers_in};
use paper::{NO_ROOM, Numbers, Refusal, Sheet, TAKEN};
use records::put_record;
use table::settle::stands_now;
use table::table::Table;
use table::take::new_table;

// The table and how many hands were opened: so many rows has the index. As many entries as the table has taken are stored.
#[derive(Clone, Copy)]
pub struct Book {
    pub table: Table,
    pub hands: u32,
}

// Before the first entry.
pub fn opened(sheet: Sheet) -> Book
    requires { is_sheet sheet ≡ true }
    ensures { (result ≡ opened_of sheet) × Held result }
{
    let t = new_table(sheet);
    Book { table: t, hands: 0 }
}

// What the answer to a block says to the caller: whether there was a block, its code, the book after it, and how many bytes were written.
#[derive(Clone, Copy)]
pub struct Answered {
    pub block: bool,
    pub code: u8,
    pub book: Book,
    pub written: usize,
}

// The block that shows what was judged, at the front of the sheet, with the pots looked for.
fn put_answer(j: Judged, sheet: &mut [u8]) -> Result<usize, Refusal>
    requires { Sound j.table × SmallPaid j.payout × (j.n < 10 ^ 9) × Closed j.table j.payout }
    ensures answer { result ≡ written_of (judged_bytes j) sheet.old }
    ensures bytes { sheet.new ≡ sheet_after (judged_bytes j) sheet.old }
{
    let t = j.table;
    write_judged(j, stands_now(t), sheet)
}

// A block is taken where its code is 0 and its answer was written.
fn was_taken(w: Result<usize, Refusal>, code: u8) -> bool
    ensures { result ≡ was_taken w code }
{
    match w {
        Ok(_) => code == TAKEN,
        Err(_) => false,
    }
}

// What is said of a block that was judged, and whose answer was written or not. One whose answer was not written is not taken: code 12.
fn told(b: Book, j: Judged, hands: u32, w: Result<usize, Refusal>) -> Answered
    ensures { result ≡ answered_as b j hands w }
{
    match w {
        Ok(k) => {
            let t = j.table;
            Answered {
                block: j.block,
                code: j.code,
                book: Book { table: t, hands },
                written: k,
            }
        }
        Err(_) => Answered {
            block: j.block,
            code: NO_ROOM,
            book: b,
            written: 0,
        },
    }
}

// ---- an entry

// An entry that is taken is stored: its record, and for a `hand` its row. How many hands there are then.
fn keep(ok: bool, b: Book, x: Numbers, log: &mut [u8], index: &mut [u8]) -> u32
    requires { Held b }
    ensures hands { result ≡ hands_after ok b x }
    ensures log { log.new ≡ log_after ok b x log.old }
    ensures index { index.new ≡ index_kept ok b x index.old }
{
    if ok {
        let t = b.table;
        let cs = t.chairs;
        put_record(log, t.taken, x);
        return put_row_if(index, b.hands, t.taken + 1, x.kind == 2, cs);
    }
    b.hands
}

// The answer to an entry, at the front of the sheet; a taken one is stored.
pub fn enter(b: Book, block: Block, log: &mut [u8], index: &mut [u8], sheet: &mut [u8]) -> Answered
    requires { Held b × (number_of_block block < 10 ^ 9) }
    ensures answer { result ≡ entered_of b block log.old index.old sheet.old }
    ensures log { log.new ≡ log_entered b block log.old index.old sheet.old }
    ensures index { index.new ≡ index_entered b block log.old index.old sheet.old }
    ensures sheet { sheet.new ≡ sheet_entered b block log.old index.old sheet.old }
    ensures held { Held result.book × (result.written ≤ length sheet.old) }
{
    let j = judge_entry(b, block, log.len(), index.len());
    let w = put_answer(j, sheet);
    let ok = was_taken(w, j.code);
    let hands = keep(ok, b, numbers_in(block), log, index);
    told(b, j, hands, w)
}

// ---- a correction

// A correction that is taken: the entry's record anew, and every row.
fn rewrite(ok: bool, t: Table, n: u32, x: Numbers, log: &mut [u8], index: &mut [u8])
    requires { (is_sheet t.sheet ≡ true) × (t.taken ≤ 1000000) }
    ensures log { log.new ≡ righting.log_after ok n x log.old }
    ensures index { index.new ≡ righting.index_after ok t n x log.old index.old }
{
    if ok {
        put_record(log, laws::short_of(n, 1), x);
        let s = t.sheet;
        write_rows(s, &log[0..], t.taken, index);
    }
}

// The answer to a correction, at the front of the sheet; a taken one changes the log, the index and the table. `shared`: the table shares a pool.
pub fn correct(
    b: Book,
    shared: bool,
    r: Right,
    log: &mut [u8],
    index: &mut [u8],
    sheet: &mut [u8],
) -> Answered
    requires { Held b × (number_of r < 10 ^ 9) }
    ensures answer { result ≡ righted_of b shared r log.old sheet.old }
    ensures log { log.new ≡ log_righted b shared r log.old sheet.old }
    ensures index { index.new ≡ index_righted b shared r log.old index.old sheet.old }
    ensures sheet { sheet.new ≡ sheet_righted b shared r log.old sheet.old }
    ensures held { Held result.book × (result.written ≤ length sheet.old) }
{
    let t = b.table;
    let number = r.n;
    let block = r.block;
    let j = judge_right(t, shared, r, &log[0..]);
    let w = put_answer(j, sheet);
    let ok = was_taken(w, j.code);
    rewrite(ok, t, number.unwrap_or(0), numbers_in(block), log, index);
    told(b, j, b.hands, w)
}

// ---- either

// The answer to the five lines at the front of some bytes, or to what is left of them at the end of the input: a correction where they are whole and the first
// is a good `right=N`, else an entry, the block that was read of them.
pub fn answer(
    b: Book,
    shared: bool,
    lines: &[u8],
    block: Block,
    log: &mut [u8],
    index: &mut [u8],
    sheet: &mut [u8],
) -> Answered
    requires { Held b × (block ≡ block_of lines.now) }
    ensures answer { result ≡ answer_of b shared lines.now log.old index.old sheet.old }
    ensures log { log.new ≡ log_of b shared lines.now log.old index.old sheet.old }
    ensures index { index.new ≡ index_of b shared lines.now log.old index.old sheet.old }
    ensures sheet { sheet.new ≡ sheet_of b shared lines.now log.old index.old sheet.old }
    ensures held { Held result.book × (result.written ≤ length sheet.old) }
{
    if is_right(lines) {
        return correct(b, shared, read_right(lines), log, index, sheet);
    }
    enter(b, block, log, index, sheet)
}
