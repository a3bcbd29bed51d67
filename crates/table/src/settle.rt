// What the open hand's pots are, what a settle pays, and the table after it.
ghost use Rattle.std.specs.Prelude.{◌≡◌, map, ◌≤◌, length, replicate, take, true};
ghost use Rattle.paper.specs.Paper.{is_game};
ghost use Rattle.chairs.specs.Chairs.{chips_of};
ghost use Rattle.laws.specs.Tests.{pick};
ghost use Rattle.pots.specs.Runs.{padded};
ghost use Rattle.pots.specs.Settle.{sole};
ghost use Rattle.table.specs.Settle.{Payable, settle_code, totals_of, lives_of, hand_score, score_of, pots_now, back_now, commission_of, payout_now, settled_to, closed_play, no_payout};
ghost use Rattle.table.specs.Refused.{number_by};
ghost use Rattle.table.specs.Standing.{Standing};
ghost use Rattle.table.specs.Take.{Sound, kind_taken};
ghost use Rattle.paper.specs.declared.Entry.TheVariants.{Settle};

use crate::table;
use crate::table::{Board, Payout, Play, Table, Taken, refuse};
use chairs::seats::PutIn;
use chairs::{Chair, Hole};
use laws::{both, either};
use paper::{Refusal, TAKEN};
use pots::{Commission, Stands};

impl Table {
    // One live; or nobody owes and five board cards lie. With two live or more each live seat has all its cards.
    fn settle_code(self) -> Result<(), Refusal>
        requires { Standing self }
        ensures { number_by result ≡ settle_code self }
    {
        let cs = self.chairs;
        let k = chairs::passes::shows(cs, self.sheet.seats, self.sheet.game);
        let none = self.nobody_owes();
        let five = self.board.count == 5;
        let now = both(self.play.opened, either(k.hands == 1, both(none, five)));
        refuse(!now, Refusal::WrongMoment)?;
        refuse(both(2 <= k.hands, k.bare != 0), Refusal::CardsMissing)
    }

    // What each sitting dealt in has put in, and which hands are live.
    fn put_in(self) -> PutIn
        requires { Standing self }
        ensures { (result.totals ≡ totals_of self) × (result.live ≡ lives_of self) }
    {
        let cs = self.chairs;
        chairs::seats::put_in(cs, self.sheet.seats)
    }

    // What the commission of the open hand goes by.
    fn commission(self) -> Commission
        ensures { result ≡ commission_of self }
    {
        Commission {
            rate: self.sheet.rate,
            cap: self.sheet.cap,
            step: self.sheet.step,
            board: self.board.count as u32,
            drop: self.sheet.drop,
        }
    }

    // What a settle pays.
    fn payout(self) -> Payout
        requires { Payable self × Standing self }
        ensures { result ≡ payout_now self }
    {
        let cs = self.chairs;
        let b = self.board;
        let put = chairs::passes::rows(cs, self.sheet.seats);
        let sc = scores_needed(self.sheet.deck, self.sheet.game, b, cs, put.live);
        let puck = self.play.puck as usize;
        let totals = put.totals;
        let s = pots::hand::settle_hand(totals, put.live, sc, self.commission(), puck);
        let due = s.due;
        let p = pots::hand::pay_out(due, put.here);
        let paid = p.paid;
        let sittings = put.sittings;
        Payout {
            settled: true,
            fee: s.fee,
            drop: s.drop,
            paid,
            sittings,
            unclaimed: p.unclaimed,
        }
    }

    // The hand is closed, and what is paid is added to the stacks.
    fn shut(self, p: Payout) -> Table
        requires { Payable self × Standing self × (p ≡ payout_now self) }
        ensures { result ≡ settled_to self }
    {
        let cs = self.chairs;
        let paid = p.paid;
        let sheet = self.sheet;
        let play = self.play;
        let after = closed_play(play);
        let board = table::no_board();
        let ds = chairs::seats::close_all(cs, self.sheet.seats, paid);
        Table {
            sheet: sheet,
            taken: self.taken,
            sittings: self.sittings,
            play: after,
            board: board,
            chairs: ds,
        }
    }

    // A settle: the table after it, and what it pays.
    pub(crate) fn settle_hand(self) -> Taken
        requires { Sound self }
        ensures { result ≡ kind_taken self Settle }
    {
        let k = self.settle_code();
        if k.is_err() {
            return self.judged(k);
        }
        let p = self.payout();
        let u = self.shut(p);
        Taken {
            code: TAKEN,
            table: u,
            payout: p,
        }
    }

    // What was found and a table, and nothing is paid: any entry but a settle that is taken.
    pub(crate) fn judged(self, k: Result<(), Refusal>) -> Taken
        ensures { (result.code ≡ number_by k) × (result.table ≡ self) × (result.payout ≡ no_payout) }
    {
        let p = no_payout();
        Taken {
            code: table::number(k),
            table: self,
            payout: p,
        }
    }
}

// What is kept of the deck's best hand of two hole cards and the board, any mixture.
fn two_score(deck: u32, b: Board, h: Hole) -> u32
    requires { h.count ≡ 2 }
    ensures { result ≡ hand_score deck 2 (take h.count h.cards) b.cards }
{
    let d = h.cards;
    let k = b.cards;
    let seven = [d[0], d[1], k[0], k[1], k[2], k[3], k[4]];
    ladder::kept(deck, cards::best_hand(deck, &seven))
}

// What is kept of the deck's best hand of two of four hole cards with three of the board.
fn four_score(deck: u32, b: Board, h: Hole) -> u32
    requires { h.count ≡ 4 }
    ensures { result ≡ hand_score deck 4 (take h.count h.cards) b.cards }
{
    let d = h.cards;
    let k = b.cards;
    ladder::kept(deck, cards::best_omaha(deck, d, &k))
}

// What is kept of the best hand that a seat's cards make, where all of them were entered.
fn hand_score(deck: u32, game: u32, b: Board, h: Hole) -> u32
    requires { (is_game game ≡ true) × (h.count ≡ game) }
    ensures { result ≡ hand_score deck game (take h.count h.cards) b.cards }
{
    if game == 4 {
        return four_score(deck, b, h);
    }
    two_score(deck, b, h)
}

// What a seat's hand counts in a contest: a hand that is not live, or has not all its cards, is not looked at.
fn score(deck: u32, game: u32, b: Board, c: Chair) -> u32
    requires { is_game game ≡ true }
    ensures { result ≡ score_of deck game b c }
{
    let h = c.hole;
    if both(c.dealt.live, h.count as u32 == game) {
        return hand_score(deck, game, b, h);
    }
    0
}

fn scores(deck: u32, game: u32, b: Board, cs: [Chair; 10]) -> [u32; 10]
    requires { is_game game ≡ true }
    ensures { result ≡ map (score_of deck game b) cs }
{
    let mut all = [0u32; 10];
    for (i, c) in cs.iter().enumerate() {
        all[i] = score(deck, game, b, *c);
    }
    all
}

// The scores that a settle goes by: where one hand alone is live it needs no cards, and no hand is looked at.
fn scores_needed(deck: u32, game: u32, b: Board, cs: [Chair; 10], live: u16) -> [u32; 10]
    requires { is_game game ≡ true }
    ensures { result ≡ pick (sole 10 live) (replicate 10 0) (map (score_of deck game b) cs) }
{
    if pots::hand::sole(live) {
        return [0u32; 10];
    }
    scores(deck, game, b, cs)
}

// No hand: of the last one only the puck seat is kept.
fn closed_play(p: Play) -> Play
    ensures { result ≡ closed_play p }
{
    Play {
        opened: false,
        puck: p.puck,
        mark: 0,
        lift: 0,
        turn: 0,
    }
}

pub fn no_payout() -> Payout
    ensures { result ≡ no_payout }
{
    Payout {
        settled: false,
        fee: 0,
        drop: 0,
        paid: [0; 10],
        sittings: [0; 10],
        unclaimed: 0,
    }
}

// The pots of the open hand, from the lowest, and the sum of returned heights.
pub fn stands_now(t: Table) -> Stands
    requires { (chips_of t.chairs ≤ 100000000) × Standing t }
    ensures { (result.pots.n ≡ length (pots_now t)) × (result.pots.list ≡ padded 9 (pots_now t)) × (result.pots.n ≤ 9) × (result.back ≡ back_now t) }
{
    let put = t.put_in();
    let totals = put.totals;
    pots::stand(totals, put.live)
}
