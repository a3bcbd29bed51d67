// What happens at the table, a line for each entry: what a taken one did, in numbers of the table before and after it; the words of a refused one, folded away.
#![tactic(auto)]

use page::pen::{Pen, Writer};
use page::words::{Card, Kind, Refused};
use paper::{Entry, MALFORMED};
use std::fmt;
use std::fmt::Write;

// A block's numbers, and what it did: the sitting of its seat and that sitting's stack, before and after; what it had put in before; whether it was in the
// open hand; and the mark after it.
#[derive(Clone, Copy)]
pub struct Event {
    pub n: u32,
    pub kind: u32,
    pub seat: u32,
    pub a: u32,
    pub b: u32,
    pub sitting: u32,
    pub stack: u32,
    pub put: u32,
    pub inside: bool,
    pub after: u32,
    pub left: u32,
}

// A card of a taken entry is at most 51.
fn card_of(a: u32) -> Card {
    Card(if a < 52 { a as u8 } else { 0 })
}

impl Event {
    // The entry's number and its seat.
    fn put_who(&self, w: &mut Writer<'_>) -> fmt::Result {
        write!(
            w,
            "<p><b>{}</b> seat {} (sitting {}) ",
            self.n, self.seat, self.sitting
        )
    }

    fn put_sat(&self, w: &mut Writer<'_>) -> fmt::Result {
        writeln!(
            w,
            "<p><b>{}</b> seat {}: sitting {} sits down with {}</p>",
            self.n, self.seat, self.after, self.left
        )
    }

    // A sitting leaves: with what it has, and of the open hand it leaves what it put in.
    fn put_left(&self, w: &mut Writer<'_>) -> fmt::Result {
        self.put_who(w)?;
        write!(w, "leaves with {}", self.stack)?;
        if self.inside {
            write!(w, "; its {} stay in this hand", self.put)?;
        }
        w.write_str("</p>\n")
    }

    // A hand is given up, or a turn passed on: what was put in stays.
    fn put_in(&self, w: &mut Writer<'_>, word: &str) -> fmt::Result {
        self.put_who(w)?;
        writeln!(w, "{word} with {} in</p>", self.put)
    }

    // What a call or a wager puts in, and whether it is the whole stack.
    fn put_paid(&self, w: &mut Writer<'_>) -> fmt::Result {
        let paid = self.stack.saturating_sub(self.left);
        let all = if self.left == 0 { ", all-in" } else { "" };
        writeln!(w, "puts in {paid}{all}</p>")
    }

    fn put_call(&self, w: &mut Writer<'_>) -> fmt::Result {
        self.put_who(w)?;
        w.write_str("calls: ")?;
        self.put_paid(w)
    }

    fn put_wager(&self, w: &mut Writer<'_>, to: u32) -> fmt::Result {
        self.put_who(w)?;
        write!(w, "wagers to {to}: ")?;
        self.put_paid(w)
    }

    fn put_hole(&self, w: &mut Writer<'_>, a: u32, b: u32) -> fmt::Result {
        self.put_who(w)?;
        writeln!(w, "holds {} {}</p>", card_of(a), card_of(b))
    }

    fn put_board(&self, w: &mut Writer<'_>, a: u32) -> fmt::Result {
        writeln!(w, "<p><b>{}</b> board: {}</p>", self.n, card_of(a))
    }

    fn put_taken(&self, w: &mut Writer<'_>, e: Entry) -> fmt::Result {
        match e {
            Entry::Sit(_, _) => self.put_sat(w),
            Entry::Leave(_) => self.put_left(w),
            Entry::Hole(_, a, b) => self.put_hole(w, a, b),
            Entry::Fold(_) => self.put_in(w, "folds"),
            Entry::Check(_) => self.put_in(w, "checks"),
            Entry::Call(_) => self.put_call(w),
            Entry::Wager(_, to) => self.put_wager(w, to),
            Entry::Board(a) => self.put_board(w, a),
            Entry::Dead(_) => self.put_in(w, "is declared dead"),
            Entry::Hand(_) | Entry::Settle | Entry::Void => Ok(()),
        }
    }

    fn write_refused(&self, w: &mut Writer<'_>, code: u8, first: bool) -> fmt::Result {
        if first {
            w.write_str("<details>\n<summary>refused</summary>\n")?;
        }
        write!(w, "<p class=\"refused\"><b>{}</b> ", self.n)?;
        if code == MALFORMED {
            w.write_str("a block")?;
        } else {
            self.put_numbers(w)?;
        }
        writeln!(w, ": {code}, {}</p>", Refused(code))
    }

    // The numbers of a refused block, as they were read.
    fn put_numbers(&self, w: &mut Writer<'_>) -> fmt::Result {
        write!(
            w,
            "{} seat {}, a {}, b {}",
            Kind(self.kind),
            self.seat,
            self.a,
            self.b
        )
    }
}

// A line for an entry that was taken; a `hand` and a `settle` have their own.
pub fn put_event(out: &mut [u8], p: Pen, event: &Event, e: Entry) -> Pen {
    let mut w = Writer::over(out, p);
    // the pen keeps whether a write has failed, here and below
    let _ = event.put_taken(&mut w, e);
    w.pen
}

// A refused block, with its words; of one whose form is wrong nothing else is known. The first of a run opens what folds them away.
pub fn put_refused(out: &mut [u8], p: Pen, event: &Event, code: u8, first: bool) -> Pen {
    let mut w = Writer::over(out, p);
    let _ = event.write_refused(&mut w, code, first);
    w.pen
}

// A taken entry closes what folds refused ones away.
pub fn put_folded(out: &mut [u8], p: Pen, refusing: bool) -> Pen {
    let mut w = Writer::over(out, p);
    if refusing {
        let _ = w.write_str("</details>\n");
    }
    w.pen
}
