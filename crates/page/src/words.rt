// The page's fixed texts: its head with the style, the words of the kinds of entry and of the refusals, cards, ranks and classes of hands.
use crate::pen::{Pen, Writer};
use std::fmt;
use std::fmt::Write;

// Up to the style's end. The evening and the sittings come last in the bytes, and first on the page by `order`.
pub fn put_head(out: &mut [u8], p: Pen) -> Pen {
    let mut w = Writer::over(out, p);
    // the pen keeps whether a write has failed
    let _ = write_head(&mut w);
    w.pen
}

fn write_head(w: &mut Writer<'_>) -> fmt::Result {
    w.write_str(
        "<!DOCTYPE html>\n<html lang=\"en\">\n<head>\n<meta charset=\"utf-8\">\n<meta name=\"viewport\" content=\"width=device-width\">\n<title>The clerk's box: an evening</title>\n<style>\n",
    )?;
    write_style(w)?;
    write_style_of_rows(w)?;
    w.write_str("</style>\n</head>\n<body>\n<h1>The evening at the table</h1>\n")
}

fn write_style(w: &mut Writer<'_>) -> fmt::Result {
    w.write_str(
        "body{font:15px/1.4 Georgia,'DejaVu Serif',serif;color:#111;background:#fff;max-width:960px;margin:1rem auto;padding:0 16px;display:flex;flex-direction:column}\n",
    )?;
    w.write_str(
        "body>*,section>*{order:3}h1,.sheet,.note{order:0}#evening{order:1}body .row,body .sums{order:2}section{display:contents}p{margin:.15rem 0}table{align-self:flex-start}\n",
    )?;
    w.write_str(
        "h1{margin:.5rem 0}h2{margin:2rem 0 .4rem;border-top:3px double #111;padding-top:.6rem}.note{border:2px solid #111;padding:.4rem .6rem;font-weight:bold}\n",
    )?;
    w.write_str(
        "table{border-collapse:collapse;margin:.6rem 0;font-size:13px}caption{text-align:left;font-weight:bold}th,td{border:1px solid #777;padding:.15rem .45rem;text-align:right;vertical-align:top}.why{text-align:left}\n",
    )
}

fn write_style_of_rows(w: &mut Writer<'_>) -> fmt::Result {
    w.write_str(
        ".row{display:grid;grid-template-columns:1fr 1fr 2fr 2fr 2fr 2fr 3fr;font-size:13px;border-bottom:1px solid #777;text-align:right}.row.top{font-weight:bold;margin-top:1rem;border-bottom:2px solid #111}.row.sums{border-bottom:0;margin:0 0 .5rem}\n",
    )?;
    w.write_str(
        "p b{display:inline-block;min-width:3rem}figure{margin:.6rem 0}svg{max-width:100%;height:auto}details{margin:.15rem 0 .15rem 3rem;border-left:3px solid #777;padding-left:.6rem}summary{cursor:pointer}\n",
    )?;
    w.write_str(
        "@media print{body{max-width:none;margin:0;font-size:11pt}h2,figure,table{break-inside:avoid}h2{break-after:avoid}details>summary{list-style:none}}\n",
    )
}

// Document 01's table of entries.
const KINDS: [&str; 12] = [
    "sit", "leave", "hand", "hole", "fold", "check", "call", "wager", "board", "dead", "settle",
    "void",
];

// The word of a kind, by its place in the table of entries.
#[derive(Clone, Copy)]
pub struct Kind(pub u32);

impl fmt::Display for Kind {
    fn fmt<W: fmt::Write>(&self, f: &mut fmt::Formatter<W>) -> fmt::Result {
        f.write_str(
            KINDS
                .get(self.0 as usize)
                .copied()
                .unwrap_or("an unknown kind"),
        )
    }
}

// Document 01's table of refusal numbers, from 1.
const REFUSALS: [&str; 11] = [
    "the block's form is wrong",
    "unknown kind or number out of range",
    "n is not the next",
    "wrong moment",
    "the seat isn't as asked",
    "not that seat's turn",
    "amount or act not allowed by Betting",
    "a card already in this hand",
    "more than 100,000,000 chips",
    "a live seat has not all its cards entered",
    "the sheet is bad",
];

// A refusal in words, by its number; another number means that the answer sheet is too short.
#[derive(Clone, Copy)]
pub struct Refused(pub u8);

impl fmt::Display for Refused {
    fn fmt<W: fmt::Write>(&self, f: &mut fmt::Formatter<W>) -> fmt::Result {
        f.write_str(match self.0 {
            n @ 1..=11 => REFUSALS[n as usize - 1],
            _ => "the answer sheet is too short",
        })
    }
}

// A rank: 2 to 10 by its number, the others by their letter.
#[derive(Clone, Copy)]
pub struct Rank(pub u8);

impl fmt::Display for Rank {
    fn fmt<W: fmt::Write>(&self, f: &mut fmt::Formatter<W>) -> fmt::Result {
        match self.0 {
            11 => f.write_str("J"),
            12 => f.write_str("Q"),
            13 => f.write_str("K"),
            14 => f.write_str("A"),
            n => write!(f, "{n}"),
        }
    }
}

const SUITS: [&str; 4] = ["♣", "♦", "♥", "♠"];

// A card, 4 × (rank − 2) + suit.
#[derive(Clone, Copy)]
pub struct Card(pub u8);

impl fmt::Display for Card {
    fn fmt<W: fmt::Write>(&self, f: &mut fmt::Formatter<W>) -> fmt::Result {
        let rank = Rank(self.0 / 4 + 2);
        let suit = SUITS[self.0 as usize % 4];
        write!(f, "{rank}{suit}")
    }
}

// cards' table of classes.
const CLASSES: [&str; 8] = [
    "straight flush",
    "four of a kind",
    "full house",
    "flush",
    "straight",
    "three of a kind",
    "two pair",
    "pair",
];

// The class of a hand, by its number in the table of classes.
#[derive(Clone, Copy)]
pub struct Class(pub u8);

impl fmt::Display for Class {
    fn fmt<W: fmt::Write>(&self, f: &mut fmt::Formatter<W>) -> fmt::Result {
        f.write_str(
            CLASSES
                .get(self.0 as usize)
                .copied()
                .unwrap_or("five odd cards"),
        )
    }
}

// A hand: its class and its five ranks.
pub fn put_hand(out: &mut [u8], p: Pen, class: u8, ranks: &[u8; 5]) -> Pen {
    let mut w = Writer::over(out, p);
    let _ = write_hand(&mut w, class, ranks);
    w.pen
}

fn write_hand(w: &mut Writer<'_>, class: u8, ranks: &[u8; 5]) -> fmt::Result {
    let class = Class(class);
    write!(w, "{class}:")?;
    for r in ranks {
        let rank = Rank(*r);
        write!(w, " {rank}")?;
    }
    Ok(())
}
