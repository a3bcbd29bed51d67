// The picture of a hand's chips as inline SVG: a column for each sitting, the pots as bands across the columns, returned chips apart above them. Its heights are
// those of crate `columns`; lengths are in tenths of a pixel. It needs nothing of the page around it, so that it can stand alone.
#![tactic(auto)]

use captions::Column;
use columns::{height, in_mask, reach, slab, tallest};
use page::pen::{Pen, Writer};
use spots::{
    BAND, Chips, apart, column_x, less, more, number_of, pot_at, reach_of_first, right_of, sum,
    y_at,
};
use std::fmt;
use std::fmt::Write;

// The band of the k-th pot, from 0.
fn put_band(w: &mut Writer<'_>, c: &Chips, k: usize) -> fmt::Result {
    let q = pot_at(c.pots, k);
    let most = tallest(c.totals);
    let low = height(reach_of_first(c.totals, c.pots, k), most);
    let high = height(reach(c.totals, q.who), most);
    let fill = if k % 2 == 0 { "#f4f4f4" } else { "#dedede" };
    let y = y_at(high);
    let width = less(right_of(c.columns), BAND);
    let tall = less(high, low);
    let pot = number_of(k);
    let chips = q.amount;
    write!(
        w,
        r##"<rect class="band" fill="{fill}" stroke="#666" stroke-width="6" x="{BAND}" y="{y}" width="{width}" height="{tall}""##
    )?;
    writeln!(w, r##" data-pot="{pot}" data-chips="{chips}"/>"##)
}

// Chips of a column as they are drawn: from above, how high, and how many.
#[derive(Clone, Copy)]
struct Piece {
    top: u64,
    tall: u64,
    chips: u32,
}

// The place and size of a piece.
fn put_box(w: &mut Writer<'_>, x: u64, d: Piece) -> fmt::Result {
    write!(
        w,
        r##" x="{x}" y="{}" width="520" height="{}""##,
        d.top, d.tall
    )
}

// Whose a piece is, and how many chips lie in it; the number is written inside where the piece is high enough for it.
fn put_data(w: &mut Writer<'_>, q: &Column, d: Piece) -> fmt::Result {
    writeln!(
        w,
        r##" data-seat="{}" data-sitting="{}" data-chips="{}"/>"##,
        q.seat, q.sitting, d.chips
    )?;
    if d.tall < 130 {
        return Ok(());
    }
    let x = more(q.x, 260);
    let y = more(d.top, d.tall / 2 + 45);
    writeln!(
        w,
        r##"<text stroke="#fff" stroke-width="36" paint-order="stroke" x="{x}" y="{y}">{}</text>"##,
        d.chips
    )
}

// The piece of a column that lies in the k-th pot: a contender's is solid, one of a sitting that does not contend is hatched.
fn put_piece(w: &mut Writer<'_>, c: &Chips, q: &Column, k: usize) -> fmt::Result {
    let pot = pot_at(c.pots, k);
    let low = reach_of_first(c.totals, c.pots, k);
    let chips = slab(q.total, low, reach(c.totals, pot.who));
    if chips == 0 {
        return Ok(());
    }
    let most = tallest(c.totals);
    let high = height(sum(low, chips), most);
    let d = Piece {
        top: y_at(high),
        tall: less(high, height(low, most)),
        chips,
    };
    let hand = c.hand;
    w.write_str("<rect class=\"chips\" fill=\"")?;
    if in_mask(pot.who, q.place) {
        w.write_str("#456b94")?;
    } else {
        write!(w, "url(#hatch-{hand})")?;
    }
    w.write_str("\" stroke=\"#000\" stroke-width=\"8\"")?;
    put_box(w, q.x, d)?;
    let pot = number_of(k);
    write!(w, r##" data-pot="{pot}""##)?;
    put_data(w, q, d)
}

// What goes back to a column's sitting: apart, above the pots.
fn put_returned(w: &mut Writer<'_>, c: &Chips, q: &Column) -> fmt::Result {
    let low = reach_of_first(c.totals, c.pots, c.pots.n);
    let chips = q.total.saturating_sub(low);
    if chips == 0 {
        return Ok(());
    }
    let most = tallest(c.totals);
    let high = height(q.total, most);
    let d = Piece {
        top: apart(high),
        tall: less(high, height(low, most)),
        chips,
    };
    w.write_str(
        "<rect class=\"back\" fill=\"#fff\" stroke=\"#000\" stroke-width=\"12\" stroke-dasharray=\"40 30\"",
    )?;
    put_box(w, q.x, d)?;
    put_data(w, q, d)
}

// A column from the lowest pot up, with what goes back and what stands below it.
fn put_column(w: &mut Writer<'_>, c: &Chips, q: &Column) -> fmt::Result {
    for k in 0..c.pots.n {
        put_piece(w, c, q, k)?;
    }
    put_returned(w, c, q)?;
    w.pen = captions::put_foot(w.out, w.pen, c, q);
    Ok(())
}

// A column for each place where somebody was dealt in.
fn put_columns(w: &mut Writer<'_>, c: &Chips) -> fmt::Result {
    let mut columns = 0;
    for (place, (sitting, total)) in c.sittings.iter().zip(&c.totals).enumerate() {
        if *sitting != 0 {
            let q = Column {
                place,
                seat: place as u64 + 1,
                sitting: *sitting,
                total: *total,
                x: column_x(columns),
            };
            put_column(w, c, &q)?;
            columns = spots::next(columns);
        }
    }
    Ok(())
}

// The picture.
pub fn put_chart(out: &mut [u8], p: Pen, c: &Chips) -> Pen {
    let mut w = Writer::over(out, p);
    // the pen keeps whether a write has failed
    let _ = write_chart(&mut w, c);
    w.pen
}

fn write_chart(w: &mut Writer<'_>, c: &Chips) -> fmt::Result {
    w.pen = captions::put_opening(w.out, w.pen, c.hand, c.columns);
    for k in 0..c.pots.n {
        put_band(w, c, k)?;
    }
    put_columns(w, c)?;
    w.pen = captions::put_labels(w.out, w.pen, c);
    Ok(())
}
