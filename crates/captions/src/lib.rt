// What is written in the picture: its opening, what stands below a column, a label for each pot and for what goes back, and what the looks mean.
#![tactic(auto)]

use columns::{height, in_mask, reach, tallest};
use page::pen::{Pen, Writer};
use spots::{Chips, apart, label_y, more, number_of, pot_at, reach_of_first, right_of, wide, y_at};
use std::fmt;
use std::fmt::Write;

// A column of the picture: its place among the seats from 0, its sitting with what that put in, and its left side.
#[derive(Clone, Copy)]
pub struct Column {
    pub place: usize,
    pub seat: u64,
    pub sitting: u32,
    pub total: u32,
    pub x: u64,
}

// The picture's size and its hatching, whose name has the hand's number, since a page has many pictures.
pub fn put_opening(out: &mut [u8], p: Pen, hand: u64, columns: u32) -> Pen {
    let mut w = Writer::over(out, p);
    // the pen keeps whether a write has failed, here and below
    let _ = write_opening(&mut w, hand, columns);
    w.pen
}

fn write_opening(w: &mut Writer<'_>, hand: u64, columns: u32) -> fmt::Result {
    let wide = more(right_of(columns), 2900);
    let pixels = wide / 10;
    writeln!(
        w,
        r##"<svg xmlns="http://www.w3.org/2000/svg" role="img" width="{pixels}" height="460" viewBox="0 0 {wide} 4600">"##
    )?;
    writeln!(w, "<title>The chips of hand {hand}</title>")?;
    write!(
        w,
        r##"<defs><pattern id="hatch-{hand}" width="80" height="80" patternUnits="userSpaceOnUse" patternTransform="rotate(45)">"##
    )?;
    w.write_str(
        "<rect width=\"80\" height=\"80\" fill=\"#fff\"/><rect width=\"26\" height=\"80\" fill=\"#555\"/></pattern></defs>\n<g font-family=\"Georgia,'DejaVu Serif',serif\" font-size=\"130\" text-anchor=\"middle\">\n",
    )
}

// Below a column: its seat, its sitting, what it has put in, and whether it is out of the hand or has left.
pub fn put_foot(out: &mut [u8], p: Pen, c: &Chips, q: &Column) -> Pen {
    let mut w = Writer::over(out, p);
    let _ = write_foot(&mut w, c, q);
    w.pen
}

fn write_foot(w: &mut Writer<'_>, c: &Chips, q: &Column) -> fmt::Result {
    let x = more(q.x, 260);
    writeln!(
        w,
        r##"<text font-weight="bold" x="{x}" y="3660">seat {}</text>"##,
        q.seat
    )?;
    writeln!(
        w,
        r##"<text x="{x}" y="3810">sitting {}</text>"##,
        q.sitting
    )?;
    writeln!(w, r##"<text x="{x}" y="3960">{} in</text>"##, q.total)?;
    let word = if !in_mask(c.here, q.place) {
        "out, left"
    } else if !in_mask(c.live, q.place) {
        "out"
    } else {
        return Ok(());
    };
    writeln!(w, r##"<text x="{x}" y="4110">{word}</text>"##)
}

// The line from a band to its label.
fn put_leader(w: &mut Writer<'_>, x: u64, from: u64, to: u64) -> fmt::Result {
    let end = more(x, 240);
    writeln!(
        w,
        r##"<path fill="none" stroke="#000" stroke-width="8" d="M{x} {from} L{end} {to}"/>"##
    )
}

// The seats of a mask, each behind a blank.
pub fn put_seats(out: &mut [u8], p: Pen, who: u16) -> Pen {
    let mut w = Writer::over(out, p);
    let _ = write_seats(&mut w, who);
    w.pen
}

fn write_seats(w: &mut Writer<'_>, who: u16) -> fmt::Result {
    for i in 0..10 {
        if in_mask(who, i) {
            let seat = i + 1;
            write!(w, " {seat}")?;
        }
    }
    Ok(())
}

// The label of the k-th pot: its chips, its heights and its contenders.
fn put_label(w: &mut Writer<'_>, c: &Chips, k: usize, labels: u64) -> fmt::Result {
    let most = tallest(c.totals);
    let q = pot_at(c.pots, k);
    let low = reach_of_first(c.totals, c.pots, k);
    let high = reach(c.totals, q.who);
    let mid = more(height(low, most), height(high, most)) / 2;
    let y = label_y(k as u64, labels);
    put_leader(w, right_of(c.columns), y_at(mid), y)?;
    let x = more(right_of(c.columns), 280);
    let pot = number_of(k);
    let chips = q.amount;
    writeln!(
        w,
        r##"<text text-anchor="start" font-weight="bold" x="{x}" y="{y}">pot {pot}: {chips}</text>"##
    )?;
    let y = more(y, 140);
    let first = wide(low) + 1;
    write!(
        w,
        r##"<text text-anchor="start" x="{x}" y="{y}">heights {first} to {high}, seats"##
    )?;
    write_seats(w, q.who)?;
    writeln!(w, "</text>")
}

// The label of what goes back.
fn put_back(w: &mut Writer<'_>, c: &Chips, labels: u64) -> fmt::Result {
    if c.back == 0 {
        return Ok(());
    }
    let most = tallest(c.totals);
    let k = c.pots.n;
    let low = reach_of_first(c.totals, c.pots, k);
    let mid = more(height(low, most), height(most, most)) / 2;
    let y = label_y(k as u64, labels);
    put_leader(w, right_of(c.columns), apart(mid), y)?;
    let x = more(right_of(c.columns), 280);
    let back = c.back;
    writeln!(
        w,
        r##"<text text-anchor="start" font-weight="bold" x="{x}" y="{y}">back: {back}</text>"##
    )?;
    let y = more(y, 140);
    writeln!(
        w,
        r##"<text text-anchor="start" x="{x}" y="{y}">above height {low} nobody contests</text>"##
    )
}

// A label for each pot, and one where something goes back; and what the looks mean.
pub fn put_labels(out: &mut [u8], p: Pen, c: &Chips) -> Pen {
    let mut w = Writer::over(out, p);
    let _ = write_labels(&mut w, c);
    w.pen
}

fn write_labels(w: &mut Writer<'_>, c: &Chips) -> fmt::Result {
    let n = c.pots.n;
    let labels = more(n as u64, u64::from(0 < c.back));
    for k in 0..n {
        put_label(w, c, k, labels)?;
    }
    put_back(w, c, labels)?;
    put_legend(w, c.hand)
}

// What the looks mean, and the picture's end.
fn put_legend(w: &mut Writer<'_>, hand: u64) -> fmt::Result {
    w.write_str(
        "<rect fill=\"#456b94\" stroke=\"#000\" stroke-width=\"8\" x=\"200\" y=\"4330\" width=\"160\" height=\"130\"/>\n<text text-anchor=\"start\" x=\"420\" y=\"4440\">contends</text>\n",
    )?;
    writeln!(
        w,
        r##"<rect fill="url(#hatch-{hand})" stroke="#000" stroke-width="8" x="1250" y="4330" width="160" height="130"/>"##
    )?;
    w.write_str(
        "<text text-anchor=\"start\" x=\"1470\" y=\"4440\">out of the hand: stays in the pots</text>\n<rect fill=\"#fff\" stroke=\"#000\" stroke-width=\"12\" stroke-dasharray=\"40 30\"",
    )?;
    w.write_str(
        " x=\"3900\" y=\"4330\" width=\"160\" height=\"130\"/>\n<text text-anchor=\"start\" x=\"4120\" y=\"4440\">goes back</text>\n</g>\n</svg>\n",
    )
}
