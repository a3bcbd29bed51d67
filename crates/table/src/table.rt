// The state of the table: what changes together.
ghost use Rattle.std.specs.Prelude.{◌≡◌, ◌+◌, ◌≤◌, ◌<◌};
ghost use Rattle.paper.specs.Paper.{when};
ghost use Rattle.paper.specs.Refusals.{number_of};
ghost use Rattle.table.specs.Refused.{number_by};
ghost use Rattle.table.specs.State.{with_chairs, with_sitting, with_taken, with_turn, seat_of, with_chair, no_board, card_added};

use chairs::Chair;
use paper::{Refusal, Sheet, TAKEN};

// How the open hand stands; without one, the puck seat of the last. Seats count from 1, and 0 is no seat: a public type that others read.
#[derive(Clone, Copy)]
pub struct Play {
    pub opened: bool,
    pub puck: u32,
    pub mark: u32,
    pub lift: u32,
    pub turn: u32,
}

// The cards on the board: the first `count` of `cards`.
#[derive(Clone, Copy)]
pub struct Board {
    pub count: u8,
    pub cards: [u8; 5],
}

#[derive(Clone, Copy)]
pub struct Table {
    pub sheet: Sheet,
    pub taken: u32,
    pub sittings: u32,
    pub play: Play,
    pub board: Board,
    pub chairs: [Chair; 10],
}

// What a settled hand pays: to the sitting dealt in at each seat, with its number; all 0 unless a settle was taken.
#[derive(Clone, Copy)]
pub struct Payout {
    pub settled: bool,
    pub fee: u32,
    pub drop: u32,
    pub paid: [u32; 10],
    pub sittings: [u32; 10],
    pub unclaimed: u32,
}

#[derive(Clone, Copy)]
pub struct Taken {
    pub code: u8,
    pub table: Table,
    pub payout: Payout,
}

// Refused for this reason, where the test says so.
pub(crate) fn refuse(b: bool, why: Refusal) -> Result<(), Refusal>
    ensures { number_by result ≡ when b (number_of why) }
{
    if b { Err(why) } else { Ok(()) }
}

// The paper's number for what was found: 0 where nothing refuses it.
pub(crate) fn number(k: Result<(), Refusal>) -> u8
    ensures { result ≡ number_by k }
{
    match k {
        Ok(()) => TAKEN,
        Err(why) => why.number(),
    }
}

impl Table {
    // The table with other chairs.
    pub(crate) fn with_chairs(self, cs: [Chair; 10]) -> Table
        ensures { result ≡ with_chairs self cs }
    {
        let mut u = self;
        u.chairs = cs;
        u
    }

    // The table with the turn at a seat.
    pub(crate) fn with_turn(self, s: u32) -> Table
        ensures { result ≡ with_turn self s }
    {
        let mut u = self;
        u.play.turn = s;
        u
    }

    // The table with the count of sittings handed out.
    pub(crate) fn with_sitting(self, k: u32) -> Table
        ensures { result ≡ with_sitting self k }
    {
        let mut u = self;
        u.sittings = k;
        u
    }

    // The table with another chair at a seat.
    pub(crate) fn with_chair(self, s: u32, c: Chair) -> Table
        ensures { result ≡ with_chair self s c }
    {
        let cs = self.chairs;
        let ds = chairs::seats::put_chair(cs, s, c);
        self.with_chairs(ds)
    }

    // The chair of a seat.
    pub(crate) fn seat_of(self, s: u32) -> Chair
        ensures { result ≡ seat_of self s }
    {
        let cs = self.chairs;
        chairs::seats::chair_at(cs, s)
    }

    // The table with the count of entries taken.
    pub(crate) fn with_taken(self, n: u32) -> Table
        ensures { result ≡ with_taken self n }
    {
        let mut u = self;
        u.taken = n;
        u
    }
}

// One more card on the board.
pub(crate) fn card_added(b: Board, card: u32) -> Board
    requires { (b.count < 5) × (card ≤ 51) }
    ensures { result ≡ card_added b card }
{
    let i = b.count as usize;
    let mut d = b;
    d.cards[i] = card as u8;
    d.count = b.count + 1;
    d
}

pub(crate) fn no_board() -> Board
    ensures { result ≡ no_board }
{
    Board {
        count: 0,
        cards: [0; 5],
    }
}

// The place of a seat's chair among the chairs.
pub(crate) fn place(s: u32) -> usize
    requires { (1 ≤ s) × (s ≤ 10) }
    ensures { (result + 1 ≡ s) × (result < 10) }
{
    (s - 1) as usize
}
