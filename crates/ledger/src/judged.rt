// What becomes of an entry where the log is stored: the table's own answer, with 15 behind 3.
ghost use Rattle.std.specs.Prelude.{◌≡◌, ◌<◌, ◌^◌};
ghost use Rattle.table.specs.Take.{Sound};
ghost use Rattle.desk.specs.Desk.{number_of_block, SmallPaid};
ghost use Rattle.ledger.specs.Keeping.{Held};
ghost use Rattle.ledger.specs.Entering.{is_full, numbers_in, held_back, judged_entry};

use crate::Book;
use blocks::Block;
use desk::{Judged, judge_block, refused};
use laws::{both, either};
use paper::{NOT_STORED, Numbers, TAKEN, WRONG_MOMENT};
use table::table::Table;

// So many entries are stored and no more.
pub const MOST: u32 = 4096;

// No room for one entry more: so many are stored, or a buffer of so many bytes lacks room for its record, or for the row of a `hand`.
fn is_full(taken: u32, hands: u32, hand: bool, log: usize, index: usize) -> bool
    ensures { result ≡ is_full taken hands hand log index }
{
    let record = log < 8 * (taken as usize) + 8;
    let row = index < 44 * (hands as usize) + 44;
    either(MOST <= taken, either(record, both(hand, row)))
}

// The numbers of a block, all 0 where it has none.
pub fn numbers_in(b: Block) -> Numbers
    ensures { result ≡ numbers_in b }
{
    match b {
        Block::Raw {
            n: _,
            kind,
            seat,
            a,
            b,
        } => Numbers { kind, seat, a, b },
        Block::Malformed => Numbers {
            kind: 0,
            seat: 0,
            a: 0,
            b: 0,
        },
        Block::Nothing => Numbers {
            kind: 0,
            seat: 0,
            a: 0,
            b: 0,
        },
    }
}

// 15 in place of 0 and of 4 to 10, where there is no room.
fn held_back(t: Table, full: bool, j: Judged) -> Judged
    requires { Sound t × Sound j.table × SmallPaid j.payout }
    ensures { (result ≡ held_back t full j) × Sound result.table × SmallPaid result.payout × (result.n ≡ j.n) }
{
    let behind = either(j.code == TAKEN, WRONG_MOMENT <= j.code);
    if both(full, behind) {
        return refused(t, j.n, NOT_STORED);
    }
    j
}

// An entry judged, where the two buffers have so many bytes.
pub fn judge_entry(b: Book, block: Block, log: usize, index: usize) -> Judged
    requires { Held b × (number_of_block block < 10 ^ 9) }
    ensures { (result ≡ judged_entry b block log index) × Sound result.table × SmallPaid result.payout × (result.n < 10 ^ 9) }
{
    let t = b.table;
    let x = numbers_in(block);
    let full = is_full(t.taken, b.hands, x.kind == 2, log, index);
    held_back(t, full, judge_block(t, block))
}
