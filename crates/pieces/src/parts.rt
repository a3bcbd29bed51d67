// What stands in a picture, each at a place of a lent sheet: a number in eleven columns, a word, cards, the seats of a pot.
ghost use Rattle.std.specs.Prelude.{◌+◌, ◌≤◌, ◌<◌, length};

use figures::grouped::grouped;
use figures::put::put;
use figures::row::{REFUSALS, words_of};

// A row has 79 columns and its LF.
pub const COLUMNS: usize = 80;

// A picture has 23 rows.
pub const GRID: usize = 23 * COLUMNS;

// The byte of an empty picture at a place.
fn blank_at(i: usize) -> u8 {
    if i % COLUMNS == 79 { 10 } else { 32 }
}

// An empty picture.
pub fn blank(out: &mut [u8])
    requires { 1840 ≤ length out.old }
{
    for (i, b) in out[..GRID].iter_mut().enumerate() {
        *b = blank_at(i);
    }
}

// A number in eleven columns.
pub fn put_number(out: &mut [u8], at: usize, n: u32)
    requires { at + 11 ≤ length out.old }
{
    let g = grouped(n);
    put(out, at, &g);
}

// A number where there is one, or the word `none`.
pub fn put_or_none(out: &mut [u8], at: usize, n: u32)
    requires { at + 11 ≤ length out.old }
{
    if n == 0 {
        put(out, at, b"       none");
        return;
    }
    put_number(out, at, n);
}

// A seat's number in two columns.
pub fn put_seat(out: &mut [u8], at: usize, seat: u32)
    requires { at + 2 ≤ length out.old }
{
    if 9 < seat {
        put(out, at, b"10");
        return;
    }
    let digit = [32, (48 + seat) as u8];
    put(out, at, &digit);
}

// The word for a seat's state, by the numbers of `seen::seat`.
fn state_text(k: u32) -> [u8; 8] {
    match k {
        0 => *b"empty   ",
        1 => *b"left    ",
        2 => *b"waits   ",
        3 => *b"no chips",
        4 => *b"live    ",
        5 => *b"all-in  ",
        6 => *b"folded  ",
        _ => *b"dead    ",
    }
}

// A seat's state in a word.
pub fn put_state(out: &mut [u8], at: usize, k: u32)
    requires { at + 8 ≤ length out.old }
{
    let text = state_text(k);
    put(out, at, &text);
}

// A mark for each card that was entered.
pub fn put_entered(out: &mut [u8], at: usize, count: u8)
    requires { at + 4 ≤ length out.old }
{
    if count == 2 {
        put(out, at, b"**");
        return;
    }
    if count == 4 {
        put(out, at, b"****");
    }
}

const RANKS: [u8; 13] = *b"23456789TJQKA";

const SUITS: [u8; 4] = *b"cdhs";

// A card: its rank and its suit.
fn put_card(out: &mut [u8], at: usize, card: u8)
    requires { at + 2 ≤ length out.old }
{
    if card < 52 {
        let r = (card / 4) as usize;
        let s = (card % 4) as usize;
        put(out, at, &[RANKS[r], SUITS[s]]);
    }
}

// The first so many of five cards, three columns each.
pub fn put_cards(out: &mut [u8], at: usize, cards: [u8; 5], count: u8)
    requires { at + 15 ≤ length out.old }
{
    for (k, card) in cards.iter().enumerate() {
        if k < count as usize {
            put_card(out, at + 3 * k, *card);
        }
    }
}

// The seats of a mask, each in its own columns.
pub fn put_mask(out: &mut [u8], at: usize, who: u16)
    requires { at + 20 ≤ length out.old }
{
    for i in 0..10 {
        if (who >> i) & 1 == 1 {
            put_seat(out, at + 2 * i, i as u32 + 1);
        }
    }
}

// A refusal in words.
pub fn put_refusal(out: &mut [u8], at: usize, code: u8)
    requires { at + 40 ≤ length out.old }
{
    let k = code as usize;
    if k < REFUSALS {
        let text = words_of(k);
        put(out, at, &text);
    }
}
