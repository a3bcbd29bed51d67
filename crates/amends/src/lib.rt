// A correction: five lines, of which the first is `right=N`, and what becomes of it at a table whose log is stored.
#![tactic(auto)]

ghost use Rattle.std.specs.Prelude.{◌≡◌, true, ◌<◌, ◌^◌};
ghost use Rattle.paper.specs.Paper.{is_sheet};
ghost use Rattle.table.specs.Take.{Sound};
ghost use Rattle.desk.specs.Desk.{SmallPaid};
ghost use Rattle.blocks.specs.Front.{block_ended};
ghost use Rattle.amends.specs.Righting.{right_of, is_right, number_of, is_six, outside, right_code, parsed_in, righted_by, replayed_of, judged_right};

use blocks::{Block, block_from, entry_of, line_kind};
use desk::{Judged, refused};
use fresh::{Played, replay};
use laws::{either, short_of};
use paper::{Entry, NOT_RIGHT, OUT_OF_RANGE, Refusal, SHARES_POOL, TAKEN, between, or_else, when};
use records::record_in;
use table::settle::no_payout;
use table::table::Table;
use text::line::{after_lines, behind, line_end, number_of};
use text::read_key_number;

// The corrected number, the kind, and all five lines as a block of that number; each is bad where its lines are.
#[derive(Clone, Copy)]
pub struct Right {
    pub n: Option<u32>,
    pub kind: Option<u32>,
    pub block: Block,
}

// The five lines of a correction.
pub fn read_right(lines: &[u8]) -> Right
    ensures { (result ≡ right_of lines.now) × (number_of result < 10 ^ 9) }
{
    let e1 = line_end(lines);
    let n = number_of(lines, b"right", e1);
    let second = behind(lines, e1);
    let e2 = line_end(second);
    let kind = line_kind(second, e2);
    let third = behind(second, e2);
    let e3 = line_end(third);
    let seat = number_of(third, b"seat", e3);
    let fourth = behind(third, e3);
    let e4 = line_end(fourth);
    let a = number_of(fourth, b"a", e4);
    let fifth = behind(fourth, e4);
    let b = number_of(fifth, b"b", line_end(fifth));
    Right {
        n,
        kind,
        block: block_from(n, kind, seat, a, b),
    }
}

// Whether the fifth line is ended by an LF.
fn ended(lines: &[u8]) -> bool
    ensures { result ≡ block_ended lines.now }
{
    let fifth = after_lines(lines, 4);
    line_end(fifth) < fifth.len()
}

// Whether lines are a correction: five of them, and the first is a good `right=N`.
pub fn is_right(lines: &[u8]) -> bool
    ensures { result ≡ is_right lines.now }
{
    match read_key_number(lines, b"right") {
        Some(_) => ended(lines),
        None => false,
    }
}

// Whether a kind is one of the six: hole, fold, check, call, wager, board.
fn is_six(k: u32) -> bool
    ensures { result ≡ is_six k }
{
    between(k, 3, 8)
}

// Whether a `do` of good form is outside the six.
fn outside(kind: Option<u32>) -> bool
    ensures { result ≡ outside kind }
{
    match kind {
        Some(k) => !is_six(k),
        None => false,
    }
}

// 14, then 2: the number is not stored, the stored entry is outside the six, or the new one.
fn right_code(shared: bool, taken: u32, n: u32, old: u8, kind: Option<u32>) -> u8
    ensures { result ≡ right_code shared taken n old kind }
{
    let stored = between(n, 1, taken);
    let other = either(!is_six(old as u32), outside(kind));
    or_else(
        when(shared, SHARES_POOL),
        when(either(!stored, other), OUT_OF_RANGE),
    )
}

// The entry that a block is, if it is one.
fn parsed_in(b: Block) -> Result<Entry, Refusal>
    ensures { result ≡ parsed_in b }
{
    match b {
        Block::Raw {
            n: _,
            kind,
            seat,
            a,
            b,
        } => entry_of(kind, seat, a, b),
        Block::Malformed => Err(Refusal::OutOfRange),
        Block::Nothing => Err(Refusal::OutOfRange),
    }
}

// By what the fresh reading said: 13, or the table as it then stands. A correction pays nothing.
fn righted(t: Table, n: u32, p: Played) -> Judged
    requires { Sound t × Sound p.table }
    ensures { (result ≡ righted_by t n p) × Sound result.table × SmallPaid result.payout }
{
    if p.ok {
        let u = p.table;
        let none = no_payout();
        return Judged {
            block: true,
            n: n,
            code: TAKEN,
            table: u,
            payout: none,
        };
    }
    refused(t, n, NOT_RIGHT)
}

// The whole corrected log read afresh.
fn replayed(t: Table, n: u32, e: Result<Entry, Refusal>, log: &[u8]) -> Judged
    requires { Sound t × (is_sheet t.sheet ≡ true) }
    ensures { (result ≡ replayed_of t n e log.now) × Sound result.table × SmallPaid result.payout }
{
    match e {
        Err(_) => refused(t, n, NOT_RIGHT),
        Ok(x) => {
            let s = t.sheet;
            righted(t, n, replay(s, log, t.taken, short_of(n, 1), x))
        }
    }
}

// A correction judged, at the table whose taken entries are stored in the log. `shared`: the table shares a pool.
pub fn judge_right(t: Table, shared: bool, r: Right, log: &[u8]) -> Judged
    requires { Sound t × (is_sheet t.sheet ≡ true) × (number_of r < 10 ^ 9) }
    ensures { (result ≡ judged_right t shared r log.now) × Sound result.table × SmallPaid result.payout × (result.n < 10 ^ 9) }
{
    let number = r.n;
    let kind = r.kind;
    let block = r.block;
    let n = number.unwrap_or(0);
    let old = record_in(log, short_of(n, 1));
    let code = right_code(shared, t.taken, n, old.kind, kind);
    if code != TAKEN {
        return refused(t, n, code);
    }
    replayed(t, n, parsed_in(block), log)
}
