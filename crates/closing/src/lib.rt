// The page's start, and its end: the sittings that are still there, the evening in a table, and the sums that come out.
#![tactic(auto)]

use accounts::{Account, Charges, Sums};
use notes::Notes;
use page::pen::{Pen, Writer};
use page::words::Refused;
use paper::Sheet;
use std::fmt;
use std::fmt::Write;
use table::table::Table;

// The row of a sitting: brought, put in, paid, and what it takes home or has.
pub fn put_row(out: &mut [u8], p: Pen, sitting: u32, seat: u32, a: Account, home: u32) -> Pen {
    let mut w = Writer::over(out, p);
    // the pen keeps whether a write has failed, here and below
    let _ = write_row(&mut w, sitting, seat, a, home);
    w.pen
}

fn write_row(w: &mut Writer<'_>, sitting: u32, seat: u32, a: Account, home: u32) -> fmt::Result {
    let brought = a.brought;
    let put = a.put;
    let paid = a.paid;
    write!(
        w,
        r#"<div class="row"><span>{sitting}</span><span>{seat}</span><span>{brought}</span><span>{put}</span><span>{paid}</span><span>{home}</span>"#
    )
}

// The head of the sittings' rows and the table's sheet.
pub fn put_start(out: &mut [u8], p: Pen, s: Sheet) -> Pen {
    let mut w = Writer::over(out, p);
    let _ = write_start(&mut w, s);
    w.pen
}

fn write_start(w: &mut Writer<'_>, s: Sheet) -> fmt::Result {
    write!(
        w,
        r#"<p class="sheet">A table of {} seats, blinds {} and {}; "#,
        s.seats, s.small, s.big
    )?;
    writeln!(
        w,
        "commission {} thousandths of each pot, at most {} a hand, in steps of {}; {} hole cards of a deck of {}.</p>",
        s.rate, s.cap, s.step, s.game, s.deck
    )?;
    w.write_str(
        "<div class=\"row top\"><span>sitting</span><span>seat</span><span>brought</span><span>put in</span><span>paid</span><span>taken home or has</span><span></span></div>\n",
    )
}

pub fn put_bad_sheet(out: &mut [u8], p: Pen) -> Pen {
    let mut w = Writer::over(out, p);
    let _ = w.write_str(
        "<p class=\"note\">11: the sheet is bad. Nothing of this log is read.</p>\n</body>\n</html>\n",
    );
    w.pen
}

// The rows of those who are still there.
fn put_all_there(w: &mut Writer<'_>, m: &Notes, t: &Table) -> fmt::Result {
    for (i, c) in t.chairs.iter().enumerate() {
        if c.sitting != 0 {
            let a = m.account_now(*c, i);
            write_row(w, c.sitting, i as u32 + 1, a, c.stack)?;
            w.write_str("<span>still there</span></div>\n")?;
        }
    }
    Ok(())
}

// The row of all sittings.
fn put_sums(w: &mut Writer<'_>, s: Sums) -> fmt::Result {
    write!(
        w,
        r#"<div class="row top sums"><span>{} sittings</span><span></span><span>{}</span>"#,
        s.sittings, s.brought
    )?;
    writeln!(
        w,
        "<span>{}</span><span>{}</span><span>{}</span><span>all</span></div>",
        s.put, s.paid, s.home
    )
}

// The two sums that come out: what sittings have, and what hands took.
fn put_proofs(w: &mut Writer<'_>, s: Sums, c: Charges, lies: u64) -> fmt::Result {
    writeln!(
        w,
        r#"<p class="sums">Brought {} and paid {} is put in {} and taken home or there {}.</p>"#,
        s.brought, s.paid, s.put, s.home
    )?;
    write!(
        w,
        r#"<p class="sums">Put in {} is paid {}, fees {}, "#,
        s.put, s.paid, c.fees
    )?;
    writeln!(
        w,
        "drops {}, unclaimed {}, and in the open hand {lies}.</p>",
        c.drops, c.unclaimed
    )?;
    w.write_str("</body>\n</html>\n")
}

// A row for each refusal number that a block got.
fn put_codes(w: &mut Writer<'_>, codes: &[u64; 13]) -> fmt::Result {
    for (code, n) in codes.iter().enumerate().skip(1) {
        if *n != 0 {
            let why = Refused(code as u8);
            writeln!(
                w,
                r#"<tr class="code"><th class="why">refused with {code}: {why}</th><td>{n}</td></tr>"#
            )?;
        }
    }
    Ok(())
}

// The evening in a table.
fn put_table(w: &mut Writer<'_>, m: &Notes) -> fmt::Result {
    let c = m.charges;
    w.write_str("<table id=\"evening\">\n<caption>The evening</caption>\n")?;
    put_count(w, "hands opened", m.hands)?;
    put_count(w, "hands settled", c.hands)?;
    put_count(w, "entries taken", m.codes[0])?;
    put_codes(w, &m.codes)?;
    put_count(w, "fees", c.fees)?;
    put_count(w, "drops", c.drops)?;
    put_count(w, "unclaimed", c.unclaimed)?;
    w.write_str("</table>\n")
}

// A row of the evening: what is counted, and how many.
fn put_count(w: &mut Writer<'_>, what: &str, n: u64) -> fmt::Result {
    writeln!(w, r#"<tr><th class="why">{what}</th><td>{n}</td></tr>"#)
}

// The end of the page.
pub fn put_evening(out: &mut [u8], p: Pen, m: Notes, t: Table) -> Pen {
    let mut w = Writer::over(out, p);
    let _ = write_evening(&mut w, &m, &t);
    w.pen
}

fn write_evening(w: &mut Writer<'_>, m: &Notes, t: &Table) -> fmt::Result {
    put_all_there(w, m, t)?;
    let s = m.sums_now(&t.chairs);
    put_sums(w, s)?;
    put_table(w, m)?;
    put_proofs(w, s, m.charges, notes::lies_in(&t.chairs))
}
