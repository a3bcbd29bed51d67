// Document 01, "Betting": who owes, whose turn it is, and fold, check, call, wager, dead. For each what refuses it, and the table after it.
ghost use Rattle.std.specs.Prelude.{◌≡◌, true, ◌+◌, ◌-◌, ◌≤◌, leb};
ghost use Rattle.laws.specs.Tests.{pick};
ghost use Rattle.paper.specs.Paper.{in_kind};
ghost use Rattle.paper.specs.SheetAndEntries.{numbers_of};
ghost use Rattle.paper.specs.declared.Entry.TheVariants.{Dead};
ghost use Rattle.chairs.specs.Chairs.{Seats, acted_of, paid_of, round_of};
ghost use Rattle.table.specs.State.{seat_of, with_chairs, with_mark};
ghost use Rattle.table.specs.Betting.{live_hands, first_owing, nobody_owes, turn_code, check_code, call_code, may_raise, is_wager, wager_code, is_act, acted_by, is_full_lift, lift_after, dead_code, turn_after, dead_to};
ghost use Rattle.table.specs.Refused.{number_by};
ghost use Rattle.table.specs.Standing.{Standing, Seated};
ghost use Rattle.table.specs.Take.{Sound, kind_code, kind_taken};

use crate::table;
use crate::table::{Table, Taken, refuse};
use chairs::Chair;
use laws::{both, either};
use paper::{Entry, Refusal};

// The kind of a wager in the table of entries.
const WAGER: u32 = 7;

impl Table {
    // What stops an act out of its moment, at a seat that is not live, or out of turn. c is the seat's chair, which is read once.
    fn turn_code(self, c: Chair, s: u32) -> Result<(), Refusal>
        requires { Standing self × (c ≡ seat_of self s) }
        ensures { number_by result ≡ turn_code self s }
    {
        refuse(self.nobody_owes(), Refusal::WrongMoment)?;
        refuse(!c.dealt.live, Refusal::WrongSeat)?;
        refuse(self.play.turn != s, Refusal::NotInTurn)
    }

    // The round total equals the mark.
    fn check_code(self, c: Chair, s: u32) -> Result<(), Refusal>
        requires { Standing self × (c ≡ seat_of self s) }
        ensures { number_by result ≡ check_code self s }
    {
        self.turn_code(c, s)?;
        refuse(chairs::round_of(c) != self.play.mark, Refusal::NotAllowed)
    }

    // The round total is below the mark.
    fn call_code(self, c: Chair, s: u32) -> Result<(), Refusal>
        requires { Standing self × (c ≡ seat_of self s) }
        ensures { number_by result ≡ call_code self s }
    {
        self.turn_code(c, s)?;
        let below = chairs::round_of(c) < self.play.mark;
        refuse(!below, Refusal::NotAllowed)
    }

    // Whether a wager to a is allowed.
    fn may_wager(self, c: Chair, a: u32) -> bool
        ensures { result ≡ is_wager self c a }
    {
        let put = laws::short_of(a, chairs::round_of(c));
        let whole = put == c.stack;
        let full = reaches_lift(self.play.mark, self.play.lift, a);
        let enough = both(
            self.play.mark < a,
            both(put <= c.stack, either(whole, full)),
        );
        both(may_raise(c), enough)
    }

    fn wager_code(self, c: Chair, s: u32, a: u32) -> Result<(), Refusal>
        requires { Standing self × (c ≡ seat_of self s) }
        ensures { number_by result ≡ wager_code self s a }
    {
        self.turn_code(c, s)?;
        refuse(!self.may_wager(c, a), Refusal::NotAllowed)
    }

    // What stops an act. c is the chair of its seat.
    fn act_code(self, c: Chair, e: Entry) -> Result<(), Refusal>
        requires { Standing self × (is_act e ≡ true) × (c ≡ seat_of self (numbers_of e).seat) }
        ensures { number_by result ≡ kind_code self e }
    {
        match e {
            Entry::Fold(s) => self.turn_code(c, s),
            Entry::Check(s) => self.check_code(c, s),
            Entry::Call(s) => self.call_code(c, s),
            Entry::Wager(s, a) => self.wager_code(c, s, a),
            _ => Err(Refusal::WrongMoment),
        }
    }

    // The chair of the seat that acts, after its act.
    fn act_chair(self, c: Chair, e: Entry) -> Chair
        requires { c.stack + c.dealt.total ≤ 100000000 }
        ensures { result ≡ acted_by self c e }
    {
        match e {
            Entry::Fold(s) => c.folded(),
            Entry::Check(s) => c.acting(),
            Entry::Call(s) => paying(c, self.play.mark),
            Entry::Wager(s, a) => paying(c, a),
            _ => c,
        }
    }

    // Whether a wager to a, above the mark, is a full lift.
    fn is_full_lift(self, a: u32) -> bool
        ensures { result ≡ is_full_lift self a }
    {
        self.play.lift <= laws::short_of(a, self.play.mark)
    }

    // The lift after a wager to a.
    fn lift_after(self, a: u32) -> u32
        ensures { result ≡ lift_after self a }
    {
        let rise = laws::short_of(a, self.play.mark);
        laws::chosen(self.is_full_lift(a), rise, self.play.lift)
    }

    // The seat is live, in a hand with two live or more.
    fn dead_code(self, s: u32) -> Result<(), Refusal>
        requires { Standing self }
        ensures { number_by result ≡ dead_code self s }
    {
        let few = self.lives() < 2;
        refuse(either(!self.play.opened, few), Refusal::WrongMoment)?;
        refuse(!self.seat_of(s).dealt.live, Refusal::WrongSeat)
    }

    // The turn after a hand was killed: on from the seat in turn; else kept, or ended where nobody owes.
    fn turn_after(self, u: Table, s: u32) -> u32
        requires { Seated u × (s ≤ u.sheet.seats) }
        ensures { result ≡ turn_after self u s }
    {
        let now = self.play.turn;
        let none = u.first_owing(0) == 0;
        let kept = laws::chosen(none, 0, now);
        laws::chosen(now == s, u.first_owing(s), kept)
    }

    // As a fold, in or out of turn.
    fn killed(self, s: u32) -> Table
        requires { Seated self × (s ≤ self.sheet.seats) }
        ensures { result ≡ dead_to self s }
    {
        let c = self.seat_of(s).folded();
        let u = self.with_chair(s, c);
        let next = self.turn_after(u, s);
        u.with_turn(next)
    }

    // A hand is given up, or that is refused.
    pub(crate) fn dead(self, s: u32) -> Taken
        requires { Sound self × (in_kind self.sheet (Dead s) ≡ true) }
        ensures { result ≡ kind_taken self (Dead s) }
    {
        let k = self.dead_code(s);
        if k.is_err() {
            return self.judged(k);
        }
        self.killed(s).judged(k)
    }

    // How many hands are live.
    pub(crate) fn lives(self) -> u32
        requires { Standing self }
        ensures { result ≡ live_hands self }
    {
        let cs = self.chairs;
        chairs::seats::lives(cs, self.sheet.seats)
    }

    // The first owing seat clockwise from s, which comes last; 0 where nobody owes.
    fn first_owing(self, s: u32) -> u32
        requires { Seated self × (s ≤ self.sheet.seats) }
        ensures { result ≡ first_owing self s }
    {
        chairs::seats::turn_from(&self.chairs, self.sheet.seats, self.play.mark, s)
    }

    // Whether nobody owes: then, and only then, it is nobody's turn.
    pub(crate) fn nobody_owes(self) -> bool
        requires { Standing self }
        ensures { result ≡ nobody_owes self }
    {
        self.play.turn == 0
    }

    // The turn with other chairs and another mark: the first owing seat clockwise from s; where the entry moves no turn, as it was.
    pub(crate) fn next_turn(self, ok: bool, cs: &[Chair; 10], mark: u32, s: u32) -> u32
        requires { Seats self.sheet.seats cs.now × (s ≤ self.sheet.seats) }
        ensures { result ≡ pick ok (first_owing (with_mark (with_chairs self cs.now) mark self.play.lift) s) self.play.turn }
    {
        if ok {
            chairs::seats::turn_from(cs, self.sheet.seats, mark, s)
        } else {
            self.play.turn
        }
    }

    // Fold, check, call and wager. The sweep is that of a wager, after which every other hand may act again: `last` is 0 where there is none.
    // The seat's chair is read once and put down once, where the act is refused as it was.
    pub(crate) fn act(self, e: Entry) -> Taken
        requires { Sound self × (in_kind self.sheet e ≡ true) × (is_act e ≡ true) }
        ensures { result ≡ kind_taken self e }
    {
        let x = paper::numbers_of(e);
        let mut cs = self.chairs;
        let i = table::place(x.seat);
        let c = cs[i];
        let k = self.act_code(c, e);
        let ok = k.is_ok();
        let d = self.act_by(ok, c, e);
        let wager = both(ok, x.kind == WAGER);
        let full = self.is_full_lift(x.a);
        let last = laws::chosen(wager, self.sheet.seats, 0) as usize;
        chairs::passes::sweep(&mut cs[..last], |b| b.again(full));
        cs[i] = d;
        let mark = laws::chosen(wager, x.a, self.play.mark);
        let lift = laws::chosen(wager, self.lift_after(x.a), self.play.lift);
        let next = self.next_turn(ok, &cs, mark, x.seat);
        let mut u = self;
        u.chairs = cs;
        u.play.mark = mark;
        u.play.lift = lift;
        u.play.turn = next;
        u.judged(k)
    }

    // The chair after an act, or as it was where the act is refused.
    fn act_by(self, ok: bool, c: Chair, e: Entry) -> Chair
        requires { c.stack + c.dealt.total ≤ 100000000 }
        ensures { result ≡ pick ok (acted_by self c e) c }
    {
        if ok { self.act_chair(c, e) } else { c }
    }
}

// "a is at least mark plus lift".
fn reaches_lift(mark: u32, lift: u32, a: u32) -> bool
    ensures { result ≡ leb (mark + lift) a }
{
    mark as u64 + lift as u64 <= a as u64
}

// Whether a seat has its right to raise: short lifts don't give it back.
fn may_raise(c: Chair) -> bool
    ensures { result ≡ may_raise c }
{
    !c.dealt.spent
}

// A seat pays what it is short of a in this round, or its whole stack, and has acted.
fn paying(c: Chair, a: u32) -> Chair
    requires { c.stack + c.dealt.total ≤ 100000000 }
    ensures { result ≡ acted_of (paid_of c (a - round_of c)) }
{
    let put = laws::short_of(a, chairs::round_of(c));
    c.paid(put).acting()
}
