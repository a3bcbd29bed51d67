// Request No. 7: one block at a table that shares a jackpot pool, with the pool as a number: judged as at any table, its drop into the pool, and answered with
// the `jackpot` line. The cage pays what is won: no stack moves by it, and what the table does is what it would do with any other pool.
#![tactic(auto)]

ghost use Rattle.std.specs.Prelude.{◌≡◌, ◌≤◌, ◌<◌, ◌^◌};
ghost use Rattle.writing.specs.AnswerSheet.{sheet_after, written_of};
ghost use Rattle.answers.specs.Answer.{SmallShown};
ghost use Rattle.table.specs.Take.{Sound};
ghost use Rattle.pool.specs.Jackpot.{most};
ghost use Rattle.desk.specs.Desk.{SmallPaid, Closed};
ghost use Rattle.shared.specs.Shared.{corrected_number, judged_at, hand_of, with_jackpot, shown_at, bytes_at, room_at, said, kept, shared_from};

use amends::is_right;
use answers::{Shown, answer_len, write_answer};
use desk::{Judged, judge, refused, shown_of};
use paper::{NO_ROOM, SHARES_POOL};
use pool::{Hand, Pool, Settled, settled_pool};
use royal::royal_now;
use table::table::Table;
use text::read_key_number;

// No answer at a table that shares a pool has more bytes; it has 28 lines at most.
pub const LONGEST: usize = answers::LONGEST_SHARED;

// What the answer to a block says to the caller: whether there was a block, its code, the table and the pool after it, what of its drop went to the house, and
// how many bytes were written. After a refusal, and after 12, the table and the pool are those before.
#[derive(Clone, Copy)]
pub struct SharedAnswer {
    pub block: bool,
    pub code: u8,
    pub table: Table,
    pub pool: Pool,
    pub house: u32,
    pub written: usize,
}

// The number that a correction would put right.
fn corrected_number(log: &[u8]) -> u32
    ensures { (result ≡ corrected_number log.now) × (result < 10 ^ 9) }
{
    read_key_number(log, b"right").unwrap_or(0)
}

// The block at the front of a log, judged at a table that shares a pool: a correction is refused with 14, and all else is judged as at any table.
fn judge_at(t: Table, log: &[u8]) -> Judged
    requires { Sound t }
    ensures { (result ≡ judged_at t log.now) × Sound result.table × SmallPaid result.payout × (result.n < 10 ^ 9) × Closed result.table result.payout }
{
    if is_right(log) {
        return refused(t, corrected_number(log), SHARES_POOL);
    }
    judge(t, log)
}

// The hand that a block settled at the table t: what it drops, and whether the royal flush is held that wins the pool.
fn hand_of(t: Table, j: Judged) -> Hand
    requires { Sound t }
    ensures { result ≡ hand_of t j }
{
    if j.payout.settled {
        return Hand {
            drop: j.payout.drop,
            royal: royal_now(t),
        };
    }
    Hand {
        drop: 0,
        royal: false,
    }
}

// What is shown of a table that shares a pool: as of any, and what the hand won.
fn with_jackpot(s: Shown, amount: u32) -> Shown
    requires { SmallShown s × (amount < 10 ^ 9) }
    ensures { (result ≡ with_jackpot amount s) × SmallShown result }
{
    let mut p = s.payout;
    p.jackpot = Some(amount);
    let mut u = s;
    u.payout = p;
    u
}

fn shown_at(j: Judged, amount: u32) -> Shown
    requires { Sound j.table × SmallPaid j.payout × (j.n < 10 ^ 9) × Closed j.table j.payout × (amount < 10 ^ 9) }
    ensures { (result ≡ shown_at j amount) × SmallShown result }
{
    let u = j.table;
    let paid = j.payout;
    with_jackpot(shown_of(j.n, j.code, u, paid), amount)
}

// A block whose answer was written.
fn said(j: Judged, s: Settled, written: usize) -> SharedAnswer
    ensures { result ≡ said j s written }
{
    let u = j.table;
    let p = s.pool;
    SharedAnswer {
        block: j.block,
        code: j.code,
        table: u,
        pool: p,
        house: s.house,
        written,
    }
}

// A block whose answer had no room: it is not taken, and nothing is dropped.
fn kept(block: bool, t: Table, p: Pool) -> SharedAnswer
    ensures { result ≡ kept block t p }
{
    SharedAnswer {
        block,
        code: NO_ROOM,
        table: t,
        pool: p,
        house: 0,
        written: 0,
    }
}

// The answer to the block at the front of a log, at the front of the sheet.
pub fn answer_at(table: Table, pool: Pool, log: &[u8], sheet: &mut [u8]) -> SharedAnswer
    requires { Sound table × (pool.held ≤ most) }
    ensures answer { result ≡ shared_from table pool (judged_at table log.now) (written_of (bytes_at table pool log.now) sheet.old) }
    ensures bytes { sheet.new ≡ sheet_after (bytes_at table pool log.now) sheet.old }
    ensures sound { Sound result.table × (result.pool.held ≤ most) }
{
    let j = judge_at(table, log);
    let s = settled_pool(pool, hand_of(table, j));
    if !j.block {
        return said(j, s, 0);
    }
    let w = write_answer(sheet, shown_at(j, s.jackpot));
    let Ok(k) = w else {
        return kept(j.block, table, pool);
    };
    said(j, s, k)
}

// How many bytes that answer takes, said before: nothing is taken.
pub fn answer_room(t: Table, pool: Pool, log: &[u8]) -> usize
    requires { Sound t × (pool.held ≤ most) }
    ensures { result ≡ room_at t pool log.now }
{
    let j = judge_at(t, log);
    if !j.block {
        return 0;
    }
    let s = settled_pool(pool, hand_of(t, j));
    answer_len(shown_at(j, s.jackpot))
}
