// The cards: hole and board, a card already in this hand, and the board cards that open a round.
ghost use Rattle.std.specs.Prelude.{◌≡◌, true, ◌≤◌, ◌<◌, take};
ghost use Rattle.chairs.specs.Chairs.{has_card, held_of};
ghost use Rattle.laws.specs.Tests.{either as either_of, pick};
ghost use Rattle.paper.specs.Paper.{in_kind};
ghost use Rattle.paper.specs.declared.Entry.TheVariants.{Hole, Board as OnBoard};
ghost use Rattle.table.specs.State.{seat_of, card_added};
ghost use Rattle.table.specs.Dealing.{in_this_hand, hole_code, board_code};
ghost use Rattle.table.specs.Refused.{number_by};
ghost use Rattle.table.specs.Standing.{Standing};
ghost use Rattle.table.specs.Take.{Sound, kind_taken};

use crate::table;
use crate::table::{Board, Table, Taken, refuse};
use chairs::Chair;
use laws::either;
use paper::Refusal;

impl Table {
    // The seat is live and has not all its cards yet, and the cards are two new ones. c is the seat's chair, which is read once.
    fn hole_code(self, c: Chair, s: u32, a: u32, b: u32) -> Result<(), Refusal>
        requires { Standing self × (c ≡ seat_of self s) }
        ensures { number_by result ≡ hole_code self s a b }
    {
        let full = c.hole.count as u32 == self.sheet.game;
        refuse(!self.play.opened, Refusal::WrongMoment)?;
        refuse(either(!c.dealt.live, full), Refusal::WrongSeat)?;
        refuse(either(a == b, self.used(a, b)), Refusal::CardTwice)
    }

    // Two hole cards are entered; where that is refused, the chair is put there again.
    pub(crate) fn hole(self, s: u32, a: u32, b: u32) -> Taken
        requires { Sound self × (in_kind self.sheet (Hole s a b) ≡ true) }
        ensures { result ≡ kind_taken self (Hole s a b) }
    {
        let mut cs = self.chairs;
        let i = table::place(s);
        let c = cs[i];
        let k = self.hole_code(c, s, a, b);
        let d = held_by(k.is_ok(), c, a, b);
        cs[i] = d;
        self.with_chairs(cs).judged(k)
    }

    // Nobody owes, two hands or more are live, and fewer than five cards lie.
    fn board_code(self, k: u32) -> Result<(), Refusal>
        requires { Standing self }
        ensures { number_by result ≡ board_code self k }
    {
        let off = !self.play.opened;
        let owed = !self.nobody_owes();
        let cs = self.chairs;
        let bd = self.board;
        let n = chairs::passes::board_look(cs, self.sheet.seats, k);
        let few = n.hands < 2;
        let full = 5 <= bd.count;
        let old = either(lies(bd, k), n.holders != 0);
        refuse(
            either(off, either(owed, either(few, full))),
            Refusal::WrongMoment,
        )?;
        refuse(old, Refusal::CardTwice)
    }

    // One card more on the board. From the third on it opens a round: the sweep is that of a new round, and `last` is 0 where none opens.
    pub(crate) fn board(self, a: u32) -> Taken
        requires { Sound self × (in_kind self.sheet (OnBoard a) ≡ true) }
        ensures { result ≡ kind_taken self (OnBoard a) }
    {
        let mut cs = self.chairs;
        let k = self.board_code(a);
        let ok = k.is_ok();
        let b = self.board;
        let d = board_by(ok, b, a);
        let round = laws::both(ok, 3 <= d.count);
        let last = laws::chosen(round, self.sheet.seats, 0) as usize;
        chairs::passes::sweep(&mut cs[..last], |c| c.rounded());
        let mark = laws::chosen(round, 0, self.play.mark);
        let lift = laws::chosen(round, self.sheet.big, self.play.lift);
        let next = self.next_turn(round, &cs, 0, laws::short_of(self.play.puck, 1));
        let mut u = self;
        u.chairs = cs;
        u.board = d;
        u.play.mark = mark;
        u.play.lift = lift;
        u.play.turn = next;
        u.judged(k)
    }

    // Whether one of two cards lies on the board or was entered for a hand.
    fn used(self, a: u32, b: u32) -> bool
        requires { Standing self }
        ensures { result ≡ either_of (in_this_hand self a) (in_this_hand self b) }
    {
        let cs = self.chairs;
        let bd = self.board;
        let k = chairs::seats::holders(cs, self.sheet.seats, a, b);
        let first = either(lies(bd, a), k.first != 0);
        let second = either(lies(bd, b), k.second != 0);
        either(first, second)
    }
}

// The board with one card more, where it is taken.
fn board_by(ok: bool, b: Board, card: u32) -> Board
    requires { (ok ≡ true → b.count < 5) × (card ≤ 51) }
    ensures { result ≡ pick ok (card_added b card) b }
{
    if ok { table::card_added(b, card) } else { b }
}

// Whether a card lies on the board.
fn lies(b: Board, card: u32) -> bool
    ensures { result ≡ has_card card (take b.count b.cards) }
{
    let bs = b.cards;
    chairs::has_card(&bs, b.count, card)
}

// The chair with two hole cards more, or as it was.
fn held_by(ok: bool, c: chairs::Chair, a: u32, b: u32) -> chairs::Chair
    requires { (a ≤ 51) × (b ≤ 51) }
    ensures { result ≡ pick ok (held_of c a b) c }
{
    if ok { c.held(a, b) } else { c }
}
