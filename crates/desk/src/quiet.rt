// Pots and back between two blocks: a block that was refused, or that puts no chips in and gives up no hand, leaves them as they are, and then they are not
// looked for again.
ghost use Rattle.std.specs.Prelude.{◌≡◌, true, ◌<◌, ◌^◌};
ghost use Rattle.writing.specs.AnswerSheet.{sheet_after, written_of};
ghost use Rattle.answers.specs.Answer.{SmallShown};
ghost use Rattle.table.specs.Take.{Sound};
ghost use Rattle.desk.specs.Desk.{shown_of, judged_bytes, SmallPaid, Closed};
ghost use Rattle.desk.specs.Quiet.{ShowsPots, quiet_kind, quiet_block, keeps_pots};

use crate::{Judged, payout_shown};
use answers::{Shown, write_answer};
use blocks::Block;
use laws::either;
use paper::{Refusal, TAKEN};
use pots::Stands;
use table::settle::stands_now;
use table::table::Table;

// By its place in the table of kinds: sit and leave (0 and 1), hole (3), check (5), board (8).
fn quiet_kind(kind: u32) -> bool
    ensures { result ≡ quiet_kind kind }
{
    either(kind < 2, either(kind == 3, either(kind == 5, kind == 8)))
}

fn quiet_block(b: Block) -> bool
    ensures { result ≡ quiet_block b }
{
    match b {
        Block::Raw {
            n: _,
            kind,
            seat: _,
            a: _,
            b: _,
        } => quiet_kind(kind),
        Block::Malformed => true,
        Block::Nothing => true,
    }
}

// Whether a block with this code leaves the pots as they are.
pub fn keeps_pots(b: Block, code: u8) -> bool
    ensures { result ≡ keeps_pots b code }
{
    either(code != TAKEN, quiet_block(b))
}

// The pots that are kept where they are those of the table; else they are looked for.
pub fn stands_after(kept: Stands, same: bool, t: Table) -> Stands
    requires { Sound t × (same ≡ true → ShowsPots t kept) }
    ensures { ShowsPots t result }
{
    if same {
        return kept;
    }
    stands_now(t)
}

// The pots of the table that the first block meets. It does not call `stands_now`: with a second call site the compiler keeps that as a function and copies
// the whole table for each call of it (measured).
pub fn first_stands(t: Table) -> Stands
    requires { Sound t }
    ensures { ShowsPots t result }
{
    let cs = t.chairs;
    let put = chairs::seats::put_in(cs, t.sheet.seats);
    let totals = put.totals;
    pots::stand(totals, put.live)
}

// What an answer shows of a table whose pots are known, and of what a settle that was taken paid.
pub fn shown_with(n: u32, code: u8, t: Table, stands: Stands, paid: table::table::Payout) -> Shown
    requires { Sound t × (n < 10 ^ 9) × SmallPaid paid × Closed t paid × ShowsPots t stands }
    ensures { (result ≡ shown_of n code t paid) × SmallShown result }
{
    let ps = stands.pots;
    let p = payout_shown(paid);
    Shown {
        n: n,
        code: u32::from(code),
        turn: t.play.turn,
        mark: t.play.mark,
        pots: ps,
        back: stands.back,
        settled: paid.settled,
        payout: p,
    }
}

// The answer that shows what was judged, at the front of the sheet, with the pots of the table after it; where there was no block nothing is written.
pub fn write_judged(j: Judged, stands: Stands, sheet: &mut [u8]) -> Result<usize, Refusal>
    requires { Sound j.table × (j.n < 10 ^ 9) × SmallPaid j.payout × Closed j.table j.payout × ShowsPots j.table stands }
    ensures answer { result ≡ written_of (judged_bytes j) sheet.old }
    ensures bytes { sheet.new ≡ sheet_after (judged_bytes j) sheet.old }
{
    if !j.block {
        return Ok(0);
    }
    let u = j.table;
    let paid = j.payout;
    let s = shown_with(j.n, j.code, u, stands, paid);
    write_answer(sheet, s)
}
