// A hand as its section needs it: who is dealt in at its opening; at its end its chips, its sittings with what they put in, hold and are paid.
#![tactic(auto)]

ghost use Rattle.std.specs.Prelude.{◌≡◌, map, ltb, count_by};
ghost use Rattle.table.specs.Take.{Sound};
ghost use Rattle.dealings.specs.Dealings.{shown_as, best_of_two, best_of_four, best_with, looked_at, best_at, part_at, parts_from, score_in, chips_shown, charged_by, each_paid, hand_shown};

use chairs::{Chair, Hole};
use notes::Notes;
use page::pen::{Pen, Writer};
use section::{Best, Charged, Hand, Part};
use spots::Chips;
use std::fmt;
use std::fmt::Write;
use table::table::{Board, Payout, Table};

// The heading, which a link can name.
pub fn put_opening(out: &mut [u8], p: Pen, hand: u64, n: u32, puck: u32) -> Pen {
    let mut w = Writer::over(out, p);
    // the pen keeps whether a write has failed
    let _ = write_opening(&mut w, hand, n, puck);
    w.pen
}

fn write_opening(w: &mut Writer<'_>, hand: u64, n: u32, puck: u32) -> fmt::Result {
    writeln!(w, "<section>")?;
    writeln!(w, r#"<h2 id="hand-{hand}">Hand {hand}</h2>"#)?;
    writeln!(w, "<p><b>{n}</b> the puck is at seat {puck}; dealt in:</p>")
}

// Who is dealt in: t is the table before the opening, u the one after it.
pub fn put_all_dealt(out: &mut [u8], p: Pen, t: &Table, u: &Table) -> Pen {
    let mut pen = p;
    for (i, (c, d)) in t.chairs.iter().zip(&u.chairs).enumerate() {
        if d.dealt.sitting != 0 {
            let seat = i as u64 + 1;
            pen = section::put_dealt(out, pen, seat, d.dealt.sitting, c.stack, d.dealt.total);
        }
    }
    pen
}

fn shown(deck: u32, h: cards::Hand) -> Best
    ensures { result ≡ shown_as deck h }
{
    Best {
        class: h.class,
        ranks: [h.r1, h.r2, h.r3, h.r4, h.r5],
        score: cards::strength(deck, h),
    }
}

// The best hand of two hole cards with the board.
fn best_of_two(deck: u32, d: [u8; 4], k: [u8; 5]) -> Best
    ensures { result ≡ best_of_two deck d k }
{
    let seven = [d[0], d[1], k[0], k[1], k[2], k[3], k[4]];
    let h = cards::best_hand(deck, &seven);
    shown(deck, h)
}

// The best hand of two of four hole cards with three of the board.
#[tactic(auto, unfolding(crate::specs::Dealings::best_of_four))]
fn best_of_four(deck: u32, d: [u8; 4], k: [u8; 5]) -> Best
    ensures { result ≡ best_of_four deck d k }
{
    let h = cards::best_omaha(deck, d, &k);
    shown(deck, h)
}

// The best hand of a seat's cards with the board.
#[tactic(auto, unfolding(crate::specs::Dealings::best_with))]
fn best_of(deck: u32, game: u32, b: Board, h: Hole) -> Best
    ensures { result ≡ best_with deck game b h }
{
    if game == 4 {
        return best_of_four(deck, h.cards, b.cards);
    }
    best_of_two(deck, h.cards, b.cards)
}

// Whether a hand is looked at: it is live with all its cards, the board lies, and more than one is live.
#[tactic(auto, unfolding(crate::specs::Dealings::looked_at))]
fn looked_at(live: bool, alone: bool, held: u8, game: u32, count: u8) -> bool
    ensures { result ≡ looked_at live alone held game count }
{
    live && !alone && held as u32 == game && count == 5
}

// The best hand of a chair, where it is looked at.
#[tactic(auto, unfolding(crate::specs::Dealings::best_at))]
fn best_at(t: &Table, c: Chair, alone: bool) -> Option<Best>
    ensures { result ≡ best_at t.now c alone }
{
    let b = t.board;
    if looked_at(c.dealt.live, alone, c.hole.count, t.sheet.game, b.count) {
        return Some(best_of(t.sheet.deck, t.sheet.game, b, c.hole));
    }
    None
}

// The sitting of a place: its stack before the hand, what it put in by round, and how its hand ended.
#[tactic(auto, unfolding(crate::specs::Dealings::part_at, crate::specs::Dealings::part_with))]
fn part_at(m: &Notes, t: &Table, low: u32, alone: bool, c: Chair, i: usize, paid: u32) -> Part
    ensures { result ≡ part_at m.now t.now low alone c i paid }
{
    let rounds = m.rounds.at(i);
    let cards = c.hole.cards;
    Part {
        sitting: c.dealt.sitting,
        before: m.before.get(i).copied().unwrap_or(0),
        rounds,
        back: c.dealt.total.saturating_sub(low),
        ended: m.ended.get(i).copied().unwrap_or(None),
        here: c.sitting == c.dealt.sitting,
        now: c.sitting,
        held: c.hole.count,
        cards,
        best: best_at(t, c, alone),
        paid,
    }
}

// The sittings of the table's chairs.
fn parts_of(m: &Notes, t: &Table, low: u32, alone: bool, paid: [u32; 10]) -> [Part; 10]
    ensures { result ≡ parts_from m.now t.now low alone paid 0 t.now.chairs }
{
    std::array::from_fn(|i| part_at(m, t, low, alone, t.chairs[i], i, paid[i]))
}

fn score_of(q: Part) -> u32
    ensures { result ≡ score_in q }
{
    match q.best {
        Some(b) => b.score,
        None => 0,
    }
}

fn scores_of(parts: [Part; 10]) -> [u32; 10]
    ensures { result ≡ map score_in parts }
{
    parts.map(|q| score_of(q))
}

// How many were dealt in: a column of the picture for each.
fn dealt_in(sittings: [u32; 10]) -> u32
    ensures { result ≡ count_by (ltb 0) sittings }
{
    sittings.iter().filter(|s| 0 < **s).count() as u32
}

// The chips of the open hand.
fn chips_of(m: &Notes, t: &Table) -> Chips
    requires { Sound t.now }
    ensures { result ≡ chips_shown m.now t.now }
{
    let stands = table::settle::stands_now(*t);
    let rows = chairs::passes::rows(t.chairs, t.sheet.seats);
    let totals = rows.totals;
    let sittings = rows.sittings;
    Chips {
        hand: m.hands,
        columns: dealt_in(sittings),
        totals,
        sittings,
        live: rows.live,
        here: rows.here,
        pots: stands.pots,
        back: stands.back,
    }
}

// What a hand was charged, where it is settled.
fn charged(paid: Option<Payout>) -> Option<Charged>
    ensures { result ≡ charged_by paid }
{
    match paid {
        Some(p) => Some(Charged {
            fee: p.fee,
            drop: p.drop,
            unclaimed: p.unclaimed,
        }),
        None => None,
    }
}

// What each was paid: nothing, where the hand is not settled.
fn paid_each(paid: Option<Payout>) -> [u32; 10]
    ensures { result ≡ each_paid paid }
{
    match paid {
        Some(p) => p.paid,
        None => [0; 10],
    }
}

// The hand, with what it paid where it is settled.
fn hand_of(m: &Notes, t: &Table, paid: Option<Payout>) -> Hand
    requires { Sound t.now }
    ensures { result ≡ hand_shown m.now t.now paid }
{
    let chips = chips_of(m, t);
    let low = spots::reach_of_first(chips.totals, chips.pots, chips.pots.n);
    let sole = pots::hand::sole(chips.live);
    let alone = laws::either(paid.is_none(), sole);
    let parts = parts_of(m, t, low, alone, paid_each(paid));
    let scores = scores_of(parts);
    Hand {
        chips,
        parts,
        scores,
        charged: charged(paid),
    }
}

// The end of a settled hand's section.
pub fn put_settled(out: &mut [u8], p: Pen, m: &Notes, t: &Table, paid: Payout) -> Pen
    requires { Sound t.now }
{
    section::put_end(out, p, &hand_of(m, t, Some(paid)))
}

// The log ends inside a hand: how it stands.
pub fn put_unsettled(out: &mut [u8], p: Pen, m: Notes, t: Table) -> Pen
    requires { Sound t }
{
    if !t.play.opened {
        return p;
    }
    section::put_end(out, p, &hand_of(&m.rounds_noted(&t), &t, None))
}
