// The clerk between two calls in lent bytes, and back: 18 words and ten single bytes, then 28 bytes for each of the ten chairs. A word takes four bytes, the low
// one first. `pack` says that what it has left reads back as the clerk that it was given.
#![tactic(auto)]

ghost use Rattle.std.specs.Prelude.{◌≡◌, ◌++◌, ◌+◌, ◌*◌, ◌≤◌, ◌<◌, ◌^◌, length, drop};
ghost use Rattle.laws.specs.Lists.{All};
ghost use Rattle.writing.specs.AnswerSheet.{Wrote};
ghost use Rattle.lines.specs.Kept.{Room};
ghost use Rattle.records.specs.Bytes.{word_bytes, word_at};
ghost use Rattle.packed.specs.Layout.{words_bytes, is_set, cards_four, cards_five, chair_singles, chair_bytes, chairs_bytes, chair_in, chairs_in, head_words, head_singles, head_bytes, sheet_in, play_in, board_in, fill_in, fields_size, clerk_bytes, clerk_from};
ghost use Rattle.packed.specs.Fits.{IsWord, ChairFits, HeadFits};

use chairs::{Chair, Dealt, Hole};
use lines::Fill;
use paper::Sheet;
use stream::Clerk;
use table::table::{Board, Play, Table};
use writing::put_bytes;

// How many bytes the clerk takes.
pub const FIELDS: usize = 362;

// ---- bytes and words

fn is_set(x: u8) -> bool
    ensures { result ≡ is_set x }
{
    x != 0
}

// A count of kept bytes or lines as a word.
fn word_of(n: usize) -> u32
    requires { n < 2 ^ 32 }
    ensures { result ≡ n }
{
    n as u32
}

// A word's four bytes at the front of a buffer. By its type it is below 2 ^ 32, so that it can be read back.
fn put_word(buffer: &mut [u8], w: u32) -> usize
    requires { 4 ≤ length buffer.old }
    ensures wrote { Wrote (word_bytes w) buffer.old buffer.new result }
    ensures small { IsWord w }
{
    records::put_word(buffer, w)
}

// Words, each behind the last.
fn put_words(buffer: &mut [u8], ws: &[u32]) -> usize
    requires { 4 * length ws.now ≤ length buffer.old }
    ensures wrote { Wrote (words_bytes ws.now) buffer.old buffer.new result }
    ensures small { All IsWord ws.now × (result ≡ 4 * length ws.now) }
{
    let mut at = 0;
    for w in ws {
        at += put_word(&mut buffer[at..], *w);
    }
    at
}

// The word at a place.
fn word_at(b: &[u8], at: usize) -> u32
    requires { at + 4 ≤ length b.now }
    ensures { result ≡ word_at b.now at }
{
    records::four(b[at], b[at + 1], b[at + 2], b[at + 3])
}

// ---- a chair

// A chair's single bytes; an array of four cards has four.
fn chair_singles(d: Dealt, count: u8, cards: [u8; 4]) -> [u8; 8]
    ensures is { result ≡ chair_singles d count cards }
    ensures all { cards ≡ cards_four cards }
{
    [
        u8::from(d.live),
        u8::from(d.acted),
        u8::from(d.spent),
        count,
        cards[0],
        cards[1],
        cards[2],
        cards[3],
    ]
}

fn put_chair(buffer: &mut [u8], c: Chair) -> usize
    requires { 28 ≤ length buffer.old }
    ensures wrote { Wrote (chair_bytes c) buffer.old buffer.new result }
    ensures fits { ChairFits c }
{
    let d = c.dealt;
    let h = c.hole;
    let ws = [c.sitting, c.stack, d.sitting, d.total, d.start];
    let at = put_words(buffer, &ws);
    let k = h.cards;
    let bs = chair_singles(d, h.count, k);
    at + put_bytes(&mut buffer[at..], &bs)
}

// The ten chairs, each behind the last.
fn put_chairs(buffer: &mut [u8], cs: [Chair; 10]) -> usize
    requires { 280 ≤ length buffer.old }
    ensures wrote { Wrote (chairs_bytes cs) buffer.old buffer.new result }
    ensures fits { All ChairFits cs × (length cs ≡ 10) }
{
    let mut at = 0;
    for c in &cs {
        at += put_chair(&mut buffer[at..], *c);
    }
    at
}

fn chair_in(b: &[u8]) -> Chair
    requires { 28 ≤ length b.now }
    ensures { result ≡ chair_in b.now }
{
    let dealt = Dealt {
        sitting: word_at(b, 8),
        total: word_at(b, 12),
        start: word_at(b, 16),
        live: is_set(b[20]),
        acted: is_set(b[21]),
        spent: is_set(b[22]),
    };
    let hole = Hole {
        count: b[23],
        cards: [b[24], b[25], b[26], b[27]],
    };
    Chair {
        sitting: word_at(b, 0),
        stack: word_at(b, 4),
        dealt,
        hole,
    }
}

fn chairs_in(b: &[u8]) -> [Chair; 10]
    requires { 280 ≤ length b.now }
    ensures { result ≡ chairs_in 10 b.now }
{
    let none = chairs::no_chair();
    let mut cs = [none; 10];
    for i in 0..10 {
        let c = chair_in(&b[28 * i..]);
        cs[i] = c;
    }
    cs
}

// ---- what is not a chair's

fn head_words(t: Table, m: Fill) -> [u32; 18]
    requires { Room m }
    ensures { result ≡ head_words t m }
{
    let s = t.sheet;
    let p = t.play;
    [
        s.seats,
        s.small,
        s.big,
        s.rate,
        s.cap,
        s.step,
        s.game,
        s.deck,
        s.drop,
        t.taken,
        t.sittings,
        p.puck,
        p.mark,
        p.lift,
        p.turn,
        word_of(m.count),
        word_of(m.lines),
        word_of(m.width),
    ]
}

// The single bytes that are no chair's; an array of five cards has five.
fn head_singles(c: Clerk, count: u8, cards: [u8; 5]) -> [u8; 10]
    ensures is { result ≡ head_singles c count cards }
    ensures all { cards ≡ cards_five cards }
{
    [
        u8::from(c.opened),
        u8::from(c.shut),
        u8::from(c.table.play.opened),
        u8::from(c.fill.bad),
        count,
        cards[0],
        cards[1],
        cards[2],
        cards[3],
        cards[4],
    ]
}

fn put_head(buffer: &mut [u8], c: Clerk) -> usize
    requires { Room c.fill × (82 ≤ length buffer.old) }
    ensures wrote { Wrote (head_bytes c) buffer.old buffer.new result }
    ensures fits { HeadFits c }
{
    let t = c.table;
    let ws = head_words(t, c.fill);
    let at = put_words(buffer, &ws);
    let b = t.board;
    let k = b.cards;
    let bs = head_singles(c, b.count, k);
    at + put_bytes(&mut buffer[at..], &bs)
}

fn sheet_in(b: &[u8]) -> Sheet
    requires { 82 ≤ length b.now }
    ensures { result ≡ sheet_in b.now }
{
    Sheet {
        seats: word_at(b, 0),
        small: word_at(b, 4),
        big: word_at(b, 8),
        rate: word_at(b, 12),
        cap: word_at(b, 16),
        step: word_at(b, 20),
        game: word_at(b, 24),
        deck: word_at(b, 28),
        drop: word_at(b, 32),
    }
}

fn play_in(b: &[u8]) -> Play
    requires { 82 ≤ length b.now }
    ensures { result ≡ play_in b.now }
{
    Play {
        opened: is_set(b[74]),
        puck: word_at(b, 44),
        mark: word_at(b, 48),
        lift: word_at(b, 52),
        turn: word_at(b, 56),
    }
}

fn board_in(b: &[u8]) -> Board
    requires { 82 ≤ length b.now }
    ensures { result ≡ board_in b.now }
{
    Board {
        count: b[76],
        cards: [b[77], b[78], b[79], b[80], b[81]],
    }
}

fn fill_in(b: &[u8]) -> Fill
    requires { 82 ≤ length b.now }
    ensures { result ≡ fill_in b.now }
{
    Fill {
        count: word_at(b, 60) as usize,
        lines: word_at(b, 64) as usize,
        width: word_at(b, 68) as usize,
        bad: is_set(b[75]),
    }
}

// ---- the clerk

// The clerk into the first bytes, all behind them as it was. What is there then reads back as the clerk.
pub fn pack(buffer: &mut [u8], c: Clerk)
    requires { Room c.fill × (fields_size ≤ length buffer.old) }
    ensures bytes { buffer.new ≡ clerk_bytes c ++ drop fields_size buffer.old }
    ensures back { clerk_from buffer.new ≡ c }
{
    let at = put_head(buffer, c);
    let t = c.table;
    let cs = t.chairs;
    put_chairs(&mut buffer[at..], cs);
}

// The clerk that stands in the first bytes.
pub fn unpack(b: &[u8]) -> Clerk
    requires { fields_size ≤ length b.now }
    ensures { result ≡ clerk_from b.now }
{
    let table = Table {
        sheet: sheet_in(b),
        taken: word_at(b, 36),
        sittings: word_at(b, 40),
        play: play_in(b),
        board: board_in(b),
        chairs: chairs_in(&b[82..]),
    };
    Clerk {
        opened: is_set(b[72]),
        shut: is_set(b[73]),
        table,
        fill: fill_in(b),
    }
}
