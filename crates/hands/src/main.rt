// Hands: a line of card numbers after another on standard input, and for each what the box answers when it is asked about them: the class of the
// best five, 8 for a straight flush down to 0 for five odd cards, and their ranks as they are compared; or the paper's number for a refusal. With the
// argument --counted the second reader answers, which counts; with --place the place of the hand is written in place of its class and ranks; with --five
// a line has five cards. With --short the cards are those of the 32-card deck, which has none of these.
#![tactic(auto)]

ghost use Rattle.std.specs.Prelude.{◌≡◌, [], ◌∷◌, ◌+◌, ◌-◌, ◌≤◌, ◌<◌, ⊤, length};
ghost use Rattle.cards.specs.Reading.{reading_of};
ghost use Rattle.hands.specs.Lines.{no_line, grown_of, ended_to, cards_to, taken_to, cards_with, five_of, read_by, answer_of};
ghost use Rattle.hands.specs.Answers.{WroteAt, number_bytes, rank_bytes, hand_bytes, four_bytes, key_bytes, place_bytes, known_bytes, reading_bytes};

use argument::is_argument;
use cards::{Hand, NoHand, any_above, any_twice, best_hand};
use laws::{both, either};
use output::{Failed, Listener, STDOUT_FILENO, flush, read_all};
use std::ops::ControlFlow;

// Answers are written out where less than an answer's room, 18 bytes, is left behind them.
const ENOUGH: usize = 65500;

// What is asked for: five cards in place of seven; the deck; the second reader in place of the first; the hand's place in place of its class and ranks.
#[derive(Clone, Copy)]
struct Wish {
    five: bool,
    deck: u32,
    counted: bool,
    place: bool,
}

// A line that is being read: how many numbers stand in it so far, and the one that has begun, if any.
#[derive(Clone, Copy)]
struct Line {
    have: usize,
    word: Option<u8>,
}

fn fresh() -> Line
    ensures { (result ≡ no_line) × (result.have ≡ 0) }
{
    Line {
        have: 0,
        word: None,
    }
}

// A number with one digit more. What is no number, or does not fit, is 255, which is no card.
fn grown(word: u8, b: u8) -> u8
    ensures { result ≡ grown_of word b }
{
    if b < 48 {
        return 255;
    }
    if 57 < b {
        return 255;
    }
    let n = word as u16 * 10 + (b - 48) as u16;
    if n < 255 { n as u8 } else { 255 }
}

// The number that has begun, if any, becomes the next card. A line of too many is read on, and keeps too many.
fn end_word(l: Line, cards: &mut [u8]) -> Line
    ensures is { (result ≡ ended_to l (length cards.old)) × (cards.new ≡ cards_to l cards.old) }
    ensures held { l.have ≤ length cards.old → result.have ≤ length cards.old }
{
    let Some(word) = l.word else {
        return l;
    };
    if l.have < cards.len() {
        cards[l.have] = word;
        return Line {
            have: l.have + 1,
            word: None,
        };
    }
    Line {
        have: l.have,
        word: None,
    }
}

// A byte of a line: a blank ends a number, any other belongs to one.
fn take_byte(l: Line, cards: &mut [u8], b: u8) -> Line
    ensures is { (result ≡ taken_to l (length cards.old) b) × (cards.new ≡ cards_with l cards.old b) }
    ensures held { l.have ≤ length cards.old → result.have ≤ length cards.old }
{
    if b == 32 {
        return end_word(l, cards);
    }
    Line {
        have: l.have,
        word: Some(grown(l.word.unwrap_or(0), b)),
    }
}

fn put(out: &mut [u8], at: usize, b: u8) -> usize
    requires { at < length out.old }
    ensures wrote { WroteAt (b ∷ []) at out.old out.new result }
    ensures room { result ≡ at + 1 }
{
    out[at] = b;
    at + 1
}

// A number of one digit or two.
fn put_number(out: &mut [u8], at: usize, n: u8) -> usize
    requires { at + 2 ≤ length out.old }
    ensures wrote { WroteAt (number_bytes n) at out.old out.new result }
    ensures room { result ≤ at + 2 }
{
    if n < 10 {
        return put(out, at, 48 + n);
    }
    let next = put(out, at, 48 + n / 10);
    put(out, next, 48 + n % 10)
}

// A rank, behind a blank.
fn put_rank(out: &mut [u8], at: usize, n: u8) -> usize
    requires { at + 3 ≤ length out.old }
    ensures wrote { WroteAt (rank_bytes n) at out.old out.new result }
    ensures room { result ≤ at + 3 }
{
    let next = put(out, at, 32);
    put_number(out, next, n)
}

// The classes are counted from the highest; here the highest is 8.
fn from_lowest(class: u8) -> u8
    ensures { result ≡ 8 - class }
{
    if class <= 8 { 8 - class } else { 0 }
}

fn put_hand(h: Hand, out: &mut [u8], at: usize) -> usize
    requires { at + 17 ≤ length out.old }
    ensures wrote { WroteAt (hand_bytes h) at out.old out.new result }
    ensures room { result ≤ at + 17 }
{
    let a = put_number(out, at, from_lowest(h.class));
    let b = put_rank(out, a, h.r1);
    let c = put_rank(out, b, h.r2);
    let d = put_rank(out, c, h.r3);
    let e = put_rank(out, d, h.r4);
    put_rank(out, e, h.r5)
}

// A number of at most four digits.
fn put_four(out: &mut [u8], at: usize, n: u32) -> usize
    requires { (at + 4 ≤ length out.old) × (n < 10000) }
    ensures wrote { WroteAt (four_bytes n) at out.old out.new result }
    ensures room { result ≤ at + 4 }
{
    if n < 100 {
        return put_number(out, at, n as u8);
    }
    let a = put_number(out, at, (n / 100) as u8);
    let b = put(out, a, (48 + n % 100 / 10) as u8);
    put(out, b, (48 + n % 10) as u8)
}

// `place=`
fn put_key(out: &mut [u8], at: usize) -> usize
    requires { at + 6 ≤ length out.old }
    ensures wrote { WroteAt key_bytes at out.old out.new result }
    ensures room { result ≡ at + 6 }
{
    let a = put(out, at, 112);
    let b = put(out, a, 108);
    let c = put(out, b, 97);
    let d = put(out, c, 99);
    let e = put(out, d, 101);
    put(out, e, 61)
}

fn put_place(h: Hand, out: &mut [u8], at: usize) -> usize
    requires { at + 10 ≤ length out.old }
    ensures wrote { WroteAt (place_bytes h) at out.old out.new result }
    ensures room { result ≤ at + 10 }
{
    let next = put_key(out, at);
    put_four(out, next, ladder::place(h))
}

// A hand by its place, or by its class and ranks.
fn put_known(place: bool, h: Hand, out: &mut [u8], at: usize) -> usize
    requires { at + 17 ≤ length out.old }
    ensures wrote { WroteAt (known_bytes place h) at out.old out.new result }
    ensures room { result ≤ at + 17 }
{
    if place {
        return put_place(h, out, at);
    }
    put_hand(h, out, at)
}

fn put_reading(place: bool, r: Result<Hand, NoHand>, out: &mut [u8], at: usize) -> usize
    requires { at + 17 ≤ length out.old }
    ensures wrote { WroteAt (reading_bytes place r) at out.old out.new result }
    ensures room { result ≤ at + 17 }
{
    match r {
        Ok(h) => put_known(place, h, out, at),
        Err(e) => put_number(out, at, e.number()),
    }
}

// The answer of the second reader, which takes seven cards.
fn read_counted(cards: &[u8]) -> Result<Hand, NoHand>
    ensures { result ≡ reading_of 52 cards.now }
{
    if cards.len() != 7 {
        return Err(NoHand::NotSeven);
    }
    counts::counted([
        cards[0], cards[1], cards[2], cards[3], cards[4], cards[5], cards[6],
    ])
}

// The answer of either reader: it is the same. The second knows the 52 cards only.
fn read_cards(deck: u32, counted: bool, cards: &[u8]) -> Result<Hand, NoHand>
    ensures { result ≡ reading_of deck cards.now }
{
    if both(counted, deck == 52) {
        return read_counted(cards);
    }
    cards::read_hand(deck, cards)
}

// The hand of five cards of the 52: any other number of them or a card above 51 is refused with 2, then a card that comes twice.
fn read_five(cards: &[u8]) -> Result<Hand, NoHand>
    ensures { result ≡ five_of cards.now }
{
    if both(cards.len() == 5, !any_above(cards)) {
        if any_twice(cards) {
            return Err(NoHand::Repeat);
        }
        return Ok(best_hand(52, cards));
    }
    Err(NoHand::NoCard)
}

// The answer about five cards, or about seven.
fn read_by(w: Wish, cards: &[u8]) -> Result<Hand, NoHand>
    ensures { result ≡ read_by w.five w.deck cards.now }
{
    if w.five {
        return read_five(cards);
    }
    read_cards(w.deck, w.counted, cards)
}

// The answer to the line, in a line of its own.
fn answer(w: Wish, l: Line, cards: &mut [u8], out: &mut [u8], at: usize) -> usize
    requires { (l.have ≤ length cards.old) × (at + 18 ≤ length out.old) }
    ensures wrote { WroteAt (answer_of w.five w.deck w.place l cards.old) at out.old out.new result }
    ensures room { result ≤ at + 18 }
{
    let ended = end_word(l, cards);
    let n = ended.have;
    let place = w.place;
    let end = put_reading(place, read_by(w, &cards[0..n]), out, at);
    put(out, end, 10)
}

// What is asked for, the line that is being read and its numbers, and the answers still to be written.
#[derive(Drop)]
struct Desk {
    wish: Wish,
    line: Line,
    cards: [u8; 8],
    out: [u8; 65536],
    at: usize,
}

impl Desk {
    // A byte of the input: an LF ends a line, which is answered. That what is written out fails is not told.
    fn serve_byte(&mut self, b: u8)
        requires { (self.old.line.have ≤ length self.old.cards) × (length self.old.out ≡ 65536) × (self.old.at ≤ 65536) }
        ensures { (self.new.line.have ≤ length self.new.cards) × (length self.new.out ≡ 65536) × (self.new.at ≤ 65536) }
    {
        if b != 10 {
            self.line = take_byte(self.line, &mut self.cards, b);
            return;
        }
        let from = flush(STDOUT_FILENO, &self.out[..self.at], ENOUGH).unwrap_or(0);
        self.at = answer(self.wish, self.line, &mut self.cards, &mut self.out, from);
        self.line = fresh();
    }
}

impl Listener for Desk {
    ghost Held = { λ d. (d.line.have ≤ length d.cards) × (length d.out ≡ 65536) × (d.at ≤ 65536) };

    ghost Heard = { λ _ _ _ _. ⊤ };

    ghost none = { λ _ _. tt };

    ghost on = { λ _ _ _ _ _ _ _ _. tt };

    // Answers every line that ends in this part of the input.
    fn hear(&mut self, part: &[u8]) -> Result<usize, Failed> {
        for b in part {
            self.serve_byte(*b);
        }
        Ok(part.len())
    }

    fn pause(&mut self) -> Result<ControlFlow<()>, Failed> {
        io::write_all(STDOUT_FILENO, &self.out[..self.at]);
        self.at = 0;
        Ok(ControlFlow::Continue(()))
    }
}

// Whether one of the three arguments is this word.
fn is_given(rt: &HostRuntime, word: &[u8]) -> bool {
    either(
        is_argument(rt, 1, word),
        either(is_argument(rt, 2, word), is_argument(rt, 3, word)),
    )
}

// The hands of the 32 cards have no places, and are of seven cards.
fn wished(rt: &HostRuntime) -> Wish {
    let deck = if is_given(rt, b"--short") { 32 } else { 52 };
    Wish {
        five: both(is_given(rt, b"--five"), deck == 52),
        deck,
        counted: is_given(rt, b"--counted"),
        place: both(is_given(rt, b"--place"), deck == 52),
    }
}

// The last line may lack its LF. A read that fails is taken for the end of the input.
fn main(rt: HostRuntime) {
    let mut d = Desk {
        wish: wished(&rt),
        line: fresh(),
        cards: [0; 8],
        out: io::large_buffer(),
        at: 0,
    };
    let _ = read_all(&rt, &mut d, &mut io::large_buffer());
    if d.line.word.is_some() || 0 < d.line.have {
        let mut out = [0u8; 18];
        let n = answer(d.wish, d.line, &mut d.cards, &mut out, 0);
        io::write_all(STDOUT_FILENO, &out[..n]);
    }
}
