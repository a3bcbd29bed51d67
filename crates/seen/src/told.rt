// What the entries so far have told beside the table: the last one's verdict, the last settlement with its board, whose hands were killed.
ghost use Rattle.std.specs.Prelude.{◌≡◌};
ghost use Rattle.seen.specs.Told.{said_of, marked_at, dead_after, paid_after, board_after, told_after, told_start};

use blocks::Block;
use desk::Judged;
use laws::both;
use table::table::{Board, Payout};

// The number and the code of the last entry; the board that is shown, and what was paid, until the next hand opens; and for each seat whether its hand was killed
// in this hand.
#[derive(Clone, Copy)]
pub struct Told {
    pub n: u32,
    pub code: u8,
    pub board: Board,
    pub paid: Payout,
    pub dead: [bool; 10],
}

// A block's kind by its place in the table of kinds, and its seat; 12 where it is none.
#[derive(Clone, Copy)]
pub struct Act {
    pub kind: u32,
    pub seat: u32,
}

fn said(b: Block) -> Act
    ensures { result ≡ said_of b }
{
    match b {
        Block::Raw {
            n,
            kind,
            seat,
            a,
            b,
        } => Act { kind, seat },
        Block::Malformed => Act { kind: 12, seat: 0 },
        Block::Nothing => Act { kind: 12, seat: 0 },
    }
}

// The seats with one more marked.
fn marked(dead: [bool; 10], seat: u32) -> [bool; 10]
    ensures { result ≡ marked_at dead seat }
{
    if seat == 0 {
        return dead;
    }
    if 10 < seat {
        return dead;
    }
    let mut next = dead;
    let i = (seat - 1) as usize;
    next[i] = true;
    next
}

// The seats whose hands were killed: none where a hand opens, one more after a taken `dead`.
fn dead_after(dead: [bool; 10], code: u8, a: Act) -> [bool; 10]
    ensures { result ≡ dead_after dead code a }
{
    if both(code == 0, a.kind == 2) {
        return [false; 10];
    }
    if both(code == 0, a.kind == 9) {
        return marked(dead, a.seat);
    }
    dead
}

// What was paid last: nothing once a hand is open.
fn paid_after(old: Payout, paid: Payout, opened: bool) -> Payout
    ensures { result ≡ paid_after old paid opened }
{
    if paid.settled {
        return paid;
    }
    if opened {
        return table::settle::no_payout();
    }
    old
}

// The board that is shown: that of the open hand, or of the hand that was settled last.
fn board_after(old: Board, now: Board, opened: bool) -> Board
    ensures { result ≡ board_after old now opened }
{
    if opened {
        return now;
    }
    old
}

// What is told after a block that was judged at a table.
pub fn after(o: Told, b: Block, j: Judged) -> Told
    ensures { result ≡ told_after o b j }
{
    let t = j.table;
    let open = t.play.opened;
    let old = o.board;
    let now = t.board;
    let before = o.paid;
    let paid = j.payout;
    let dead = o.dead;
    Told {
        n: j.n,
        code: j.code,
        board: board_after(old, now, open),
        paid: paid_after(before, paid, open),
        dead: dead_after(dead, j.code, said(b)),
    }
}

// Before the first entry.
pub fn start(code: u8) -> Told
    ensures { result ≡ told_start code }
{
    let none = table::settle::no_payout();
    Told {
        n: 0,
        code,
        board: Board {
            count: 0,
            cards: [0; 5],
        },
        paid: none,
        dead: [false; 10],
    }
}
