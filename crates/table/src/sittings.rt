// Document 01, "Sittings": sit and leave. For each the code that refuses it, and the table after it.
ghost use Rattle.std.specs.Prelude.{◌≡◌, true, ◌+◌, eqb, ltb};
ghost use Rattle.chairs.specs.Chairs.{seated_of};
ghost use Rattle.laws.specs.Tests.{either as either_of, pick};
ghost use Rattle.paper.specs.Paper.{when as when_of, wrong_seat, in_kind};
ghost use Rattle.paper.specs.declared.Entry.TheVariants.{Sit, Leave};
ghost use Rattle.table.specs.State.{seat_of};
ghost use Rattle.table.specs.Sittings.{sit_code};
ghost use Rattle.table.specs.Refused.{number_by};
ghost use Rattle.table.specs.Standing.{Standing};
ghost use Rattle.table.specs.Take.{Sound, kind_taken};

use crate::table;
use crate::table::{Table, Taken, refuse};
use chairs::Chair;
use laws::either;
use paper::Refusal;

// Whether chips and a more are above 100,000,000.
fn too_many(all: u64, a: u32) -> bool
    ensures { result ≡ ltb 100000000 (all + a) }
{
    if 100000000 < all {
        true
    } else {
        100000000 < all + a as u64
    }
}

impl Table {
    // A seat must be empty, and the chips not too many. c is the seat's chair, which is read once.
    fn sit_code(self, c: Chair, s: u32, a: u32) -> Result<(), Refusal>
        requires { Standing self × (c ≡ seat_of self s) }
        ensures { number_by result ≡ sit_code self s a }
    {
        refuse(c.sitting != 0, Refusal::WrongSeat)?;
        let over = too_many(chairs::seats::chips(self.chairs, self.sheet.seats), a);
        refuse(over, Refusal::TooManyChips)
    }

    // A sitting gets the next number; where it is refused, the chair that lies at the seat is put there again.
    pub(crate) fn sit(self, s: u32, a: u32) -> Taken
        requires { Sound self × (in_kind self.sheet (Sit s a) ≡ true) }
        ensures { result ≡ kind_taken self (Sit s a) }
    {
        let mut cs = self.chairs;
        let i = table::place(s);
        let c = cs[i];
        let k = self.sit_code(c, s, a);
        let ok = k.is_ok();
        let n = laws::chosen(ok, self.sittings + 1, self.sittings);
        let d = seated_by(ok, c, n, a);
        cs[i] = d;
        self.with_chairs(cs).with_sitting(n).judged(k)
    }

    // The whole stack is paid out; where that is refused, the chair is put there again.
    pub(crate) fn leave(self, s: u32) -> Taken
        requires { Sound self × (in_kind self.sheet (Leave s) ≡ true) }
        ensures { result ≡ kind_taken self (Leave s) }
    {
        let mut cs = self.chairs;
        let i = table::place(s);
        let c = cs[i];
        let k = leave_code(c);
        let d = seated_by(k.is_ok(), c, 0, 0);
        cs[i] = d;
        self.with_chairs(cs).judged(k)
    }
}

// The seat is occupied, its sitter not live in a hand.
fn leave_code(c: Chair) -> Result<(), Refusal>
    ensures { number_by result ≡ when_of (either_of (eqb c.sitting 0) c.dealt.live) wrong_seat }
{
    refuse(either(c.sitting == 0, c.dealt.live), Refusal::WrongSeat)
}

// The chair with another sitting, or as it was.
fn seated_by(ok: bool, c: chairs::Chair, n: u32, a: u32) -> chairs::Chair
    ensures { result ≡ pick ok (seated_of c n a) c }
{
    if ok { c.seated(n, a) } else { c }
}
