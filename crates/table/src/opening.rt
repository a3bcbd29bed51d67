// Document 01, "Opening": a hand opens, with its puck and its blinds.
ghost use Rattle.std.specs.Prelude.{◌≡◌, true, ◌≤◌};
ghost use Rattle.paper.specs.Paper.{is_seat, in_kind};
ghost use Rattle.paper.specs.declared.Entry.TheVariants.{Hand};
ghost use Rattle.chairs.specs.Chairs.{chips_of};
ghost use Rattle.table.specs.Opening.{hand_code, opened_to};
ghost use Rattle.table.specs.Refused.{number_by};
ghost use Rattle.table.specs.Standing.{Standing};
ghost use Rattle.table.specs.Take.{Sound, kind_taken};

use crate::table::{Play, Table, Taken, refuse};
use chairs::passes::Dealing;
use laws::{both, either};
use paper::Refusal;

impl Table {
    // No hand, and two seats or more hold chips; then the puck seat.
    fn hand_code(self, s: u32) -> Result<(), Refusal>
        requires { Standing self }
        ensures { number_by result ≡ hand_code self s }
    {
        let c = self.seat_of(s);
        let cs = self.chairs;
        let last = self.play.puck;
        let k = chairs::passes::chip_seats(cs, self.sheet.seats, last);
        let ok = both(0 < c.stack, either(last == 0, k.next == s));
        refuse(either(self.play.opened, k.count < 2), Refusal::WrongMoment)?;
        refuse(!ok, Refusal::WrongSeat)
    }

    // A hand opens: everybody is dealt in; the puck sitter posts small, the next dealt-in seat, which is another, big, each at most its stack. The mark is
    // big even if posted short, and the lift is big; first turn to the first owing seat after the big blind.
    fn opened(self, s: u32) -> Table
        requires { (chips_of self.chairs ≤ 100000000) × Standing self × (is_seat self.sheet s ≡ true) × (hand_code self s ≡ 0) }
        ensures { result ≡ opened_to self s }
    {
        let cs = self.chairs;
        let big = self.sheet.big;
        let c = chairs::seats::chair_at(cs, s).dealt_in();
        let next = chairs::passes::chip_seats(cs, self.sheet.seats, s).next;
        let d = chairs::seats::chair_at(cs, next).dealt_in();
        let x = Dealing {
            seat: s,
            chair: c.paid(self.sheet.small),
            other: next,
            second: d.paid(big),
        };
        let ds = chairs::passes::deal_all(cs, self.sheet.seats, x);
        let turn = chairs::seats::turn_from(&ds, self.sheet.seats, big, next);
        let p = Play {
            opened: true,
            puck: s,
            mark: big,
            lift: big,
            turn,
        };
        let mut u = self;
        u.play = p;
        u.chairs = ds;
        u
    }

    // A hand opens, or it is refused.
    pub(crate) fn hand(self, s: u32) -> Taken
        requires { Sound self × (in_kind self.sheet (Hand s) ≡ true) }
        ensures { result ≡ kind_taken self (Hand s) }
    {
        let k = self.hand_code(s);
        if k.is_err() {
            return self.judged(k);
        }
        self.opened(s).judged(k)
    }
}
