// A hand's section: its heading and who is dealt in, and when it is settled, or the log ends, the picture of its chips, its tables and what it paid and why.
#![tactic(auto)]

use captions::put_seats;
use chart::put_chart;
use columns::{in_mask, reach, wins};
use notes::Ending;
use page::pen::{Pen, Writer};
use page::words::{Card, put_hand};
use spots::{Chips, pot_at, reach_of_first};
use std::fmt;
use std::fmt::Write;

// The best hand of a sitting: its class, its ranks, and the number that hands are compared by.
#[derive(Clone, Copy)]
pub struct Best {
    pub class: u8,
    pub ranks: [u8; 5],
    pub score: u32,
}

// A sitting in a hand: its number, its stack before, what it put in by round and goes back to it, how its hand ended, where it did before the settle, whether it is still
// there and who sits there now; its cards; its best hand, where it is looked at; what it is paid.
#[derive(Clone, Copy)]
pub struct Part {
    pub sitting: u32,
    pub before: u32,
    pub rounds: [u32; 4],
    pub back: u32,
    pub ended: Option<Ending>,
    pub here: bool,
    pub now: u32,
    pub held: u8,
    pub cards: [u8; 4],
    pub best: Option<Best>,
    pub paid: u32,
}

// What a settled hand was charged: its commission, the drop, and what nobody claims.
#[derive(Clone, Copy)]
pub struct Charged {
    pub fee: u32,
    pub drop: u32,
    pub unclaimed: u32,
}

// A hand: its chips, its sittings by seat, their scores; and what it was charged, where it is settled.
#[derive(Clone, Copy)]
pub struct Hand {
    pub chips: Chips,
    pub parts: [Part; 10],
    pub scores: [u32; 10],
    pub charged: Option<Charged>,
}

// Who is dealt in, with the stack before, and what was posted.
pub fn put_dealt(out: &mut [u8], p: Pen, seat: u64, sitting: u32, before: u32, posted: u32) -> Pen {
    let mut w = Writer::over(out, p);
    // the pen keeps whether a write has failed, here and below
    let _ = write_dealt(&mut w, seat, sitting, before, posted);
    w.pen
}

fn write_dealt(
    w: &mut Writer<'_>,
    seat: u64,
    sitting: u32,
    before: u32,
    posted: u32,
) -> fmt::Result {
    write!(
        w,
        r#"<p class="dealt"><b></b> seat {seat}: sitting {sitting} with {before}"#
    )?;
    if posted != 0 {
        write!(w, ", posts {posted}")?;
    }
    w.write_str("</p>\n")
}

// A sitting's row: the places of its seat among the seats, from 0 and from 1, what it put in together and its score.
#[derive(Clone, Copy)]
struct Row {
    place: usize,
    seat: u64,
    total: u32,
    score: u32,
}

impl Part {
    // Who it is, its stack before, and what it put in, by round and together.
    fn put_numbers(&self, w: &mut Writer<'_>, r: Row) -> fmt::Result {
        write!(
            w,
            r#"<tr class="part"><td>{}</td><td>{}</td><td>{}</td>"#,
            r.seat, self.sitting, self.before
        )?;
        for chips in &self.rounds {
            write!(w, "<td>{chips}</td>")?;
        }
        write!(w, "<td>{}</td>", r.total)
    }

    // How its hand stands, whether it has left, and who sits there now.
    fn put_state(&self, w: &mut Writer<'_>) -> fmt::Result {
        let word = match self.ended {
            None => "live",
            Some(Ending::Folded) => "folded",
            Some(Ending::Dead) => "dead",
        };
        write!(w, "<td>{word}")?;
        if !self.here {
            w.write_str(", left")?;
            if self.now != 0 {
                write!(w, "; now sitting {}", self.now)?;
            }
        }
        w.write_str("</td><td>")
    }

    // Its cards that were entered, and its best five, where its hand is looked at.
    fn put_cards(&self, w: &mut Writer<'_>) -> fmt::Result {
        for k in self.cards.iter().take(self.held as usize) {
            write!(w, " {}", Card(*k))?;
        }
        w.write_str("</td><td>")?;
        if let Some(b) = self.best {
            w.pen = put_hand(w.out, w.pen, b.class, &b.ranks);
        }
        Ok(())
    }

    // What goes back, to whom: to the sitting, or to nobody where it has left.
    fn put_back(&self, w: &mut Writer<'_>) -> fmt::Result {
        if self.back != 0 {
            write!(w, "{} go back", self.back)?;
            if !self.here {
                w.write_str(" and are unclaimed")?;
            }
        }
        w.write_str("</td></tr>\n")
    }

    // What it is paid, and why.
    fn put_paid(&self, w: &mut Writer<'_>, h: &Hand, r: Row) -> fmt::Result {
        write!(w, "</td><td>{}</td><td", self.back)?;
        if h.charged.is_none() {
            return w.write_str("></td><td></td></tr>\n");
        }
        write!(w, r#" class="paid">{}</td><td class="why">"#, self.paid)?;
        put_reasons(w, h, r)?;
        self.put_back(w)
    }

    fn put_row(&self, w: &mut Writer<'_>, h: &Hand, r: Row) -> fmt::Result {
        self.put_numbers(w, r)?;
        self.put_state(w)?;
        self.put_cards(w)?;
        self.put_paid(w, h, r)
    }
}

// Why a seat has of the pots: nobody else contends for one, or no contender has a better hand.
fn put_reasons(w: &mut Writer<'_>, h: &Hand, r: Row) -> fmt::Result {
    for k in 0..h.chips.pots.n {
        let who = pot_at(h.chips.pots, k).who;
        let pot = spots::number_of(k);
        if pots::hand::sole(who) {
            if in_mask(who, r.place) {
                write!(w, "pot {pot}: sole contender. ")?;
            }
        } else if wins(h.scores, who, r.place, r.score) {
            write!(w, "pot {pot}: best hand. ")?;
        }
    }
    Ok(())
}

// The head of the sittings' table.
fn put_parts_head(w: &mut Writer<'_>) -> fmt::Result {
    w.write_str(
        "<table class=\"parts\">\n<caption>Who was dealt in</caption>\n<tr><th>seat</th><th>sitting</th><th>stack before</th><th>before the flop</th><th>flop</th><th>turn</th><th>river</th><th>put in</th>",
    )?;
    w.write_str(
        "<th>hand</th><th>cards</th><th>best five</th><th>goes back</th><th>paid</th><th class=\"why\">why</th></tr>\n",
    )
}

// A row for each seat where somebody was dealt in.
fn put_parts(w: &mut Writer<'_>, h: &Hand) -> fmt::Result {
    put_parts_head(w)?;
    let seats = h.parts.iter().zip(&h.chips.totals).zip(&h.scores);
    for (place, ((q, total), score)) in seats.enumerate() {
        if q.sitting != 0 {
            let r = Row {
                place,
                seat: place as u64 + 1,
                total: *total,
                score: *score,
            };
            q.put_row(w, h, r)?;
        }
    }
    Ok(())
}

// The row of a pot: up to which height it reaches, its chips and its contenders.
fn put_pot(w: &mut Writer<'_>, c: &Chips, k: usize) -> fmt::Result {
    let q = pot_at(c.pots, k);
    let pot = spots::number_of(k);
    let low = u64::from(reach_of_first(c.totals, c.pots, k)) + 1;
    let high = reach(c.totals, q.who);
    let chips = q.amount;
    write!(
        w,
        r#"<tr class="pot"><td>{pot}</td><td>{low} to {high}</td><td>{chips}</td><td>seats"#
    )?;
    w.pen = put_seats(w.out, w.pen, q.who);
    w.write_str("</td></tr>\n")
}

// The table of the pots, with what goes back.
fn put_pots(w: &mut Writer<'_>, c: &Chips) -> fmt::Result {
    w.write_str(
        "<table class=\"pots\">\n<caption>Pots</caption>\n<tr><th>pot</th><th>heights</th><th>chips</th><th>contended by</th></tr>\n",
    )?;
    // a count may be larger than the list, which has no more rows to show
    for k in 0..c.pots.n.min(c.pots.list.len()) {
        put_pot(w, c, k)?;
    }
    writeln!(
        w,
        r#"<tr><td colspan="2">back</td><td class="back">{}</td><td></td></tr>"#,
        c.back
    )?;
    w.write_str("</table>\n")
}

// Fee, drop and what nobody claims.
fn put_charged(w: &mut Writer<'_>, charged: Option<Charged>) -> fmt::Result {
    let Some(
        Charged {
            fee,
            drop,
            unclaimed,
        },
    ) = charged
    else {
        return w.write_str(
            "<p class=\"open\"><strong>The log ends inside this hand: nothing of it is paid.</strong></p>\n",
        );
    };
    write!(
        w,
        r#"<p class="charges">fee <span class="fee">{fee}</span>, unclaimed <span class="unclaimed">{unclaimed}</span>"#
    )?;
    if drop != 0 {
        write!(w, r#", drop <span class="drop">{drop}</span>"#)?;
    }
    w.write_str("</p>\n")
}

// The end of a section: the picture and the tables.
pub fn put_end(out: &mut [u8], p: Pen, h: &Hand) -> Pen {
    let mut w = Writer::over(out, p);
    let _ = write_end(&mut w, h);
    w.pen
}

fn write_end(w: &mut Writer<'_>, h: &Hand) -> fmt::Result {
    w.write_str("<figure>\n")?;
    w.pen = put_chart(w.out, w.pen, &h.chips);
    w.write_str("</figure>\n")?;
    put_pots(w, &h.chips)?;
    put_parts(w, h)?;
    w.write_str("</table>\n")?;
    put_charged(w, h.charged)?;
    w.write_str("</section>\n")
}
