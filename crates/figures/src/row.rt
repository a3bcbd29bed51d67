// One row of the picture: its left half, a label and a number; its right half, an amount or a word; and the rules around it.
ghost use Rattle.std.specs.Prelude.{◌≡◌, [], ◌+◌, ◌≤◌, ◌<◌, length, get_or};
ghost use Rattle.laws.specs.Tests.{pick};
ghost use Rattle.figures.specs.Placing.{Put};
ghost use Rattle.figures.specs.Words.{rule, labels, words, refusals};
ghost use Rattle.figures.specs.ScreenRow.{half_row, lit_of, cell_of, left_of, words_row, amount_of, lamp_cell, counted_of};

use crate::font::cells;
use crate::grouped::{column, grouped};
use crate::put::{put, put_if};
use laws::either;

// How many kinds of line an answer has; the empty label stands behind theirs.
pub const KINDS: usize = 11;

// The left edge and the label of each kind of line, and the empty label.
const LABELS: [[u8; 12]; KINDS + 1] = [
    *b"| entry     ",
    *b"| code      ",
    *b"| turn      ",
    *b"| mark      ",
    *b"| pot       ",
    *b"| back      ",
    *b"| fee       ",
    *b"| sitting   ",
    *b"| paid      ",
    *b"| unclaimed ",
    *b"| jackpot   ",
    *b"|           ",
];

// How many refusal numbers there are: document 01's table, and those of the requests No. 12 and No. 13.
pub const REFUSALS: usize = 18;

// The refusals in words, by document 01's table and the requests.
const WORDS: [[u8; 40]; REFUSALS] = [
    *b"0: taken                                ",
    *b"1: the block's form is wrong            ",
    *b"2: unknown kind or number out of range  ",
    *b"3: n is not the next                    ",
    *b"4: wrong moment                         ",
    *b"5: the seat isn't as asked              ",
    *b"6: not that seat's turn                 ",
    *b"7: amount or act not allowed by Betting ",
    *b"8: a card already in this hand          ",
    *b"9: sit: more than 100,000,000 chips     ",
    *b"10: a live seat has no cards entered    ",
    *b"11: the sheet is bad                    ",
    *b"12: the answer sheet is too short       ",
    *b"13: put right, an entry would be refused",
    *b"14: a shared pool: nothing is put right ",
    *b"15: the stored log is full              ",
    *b"16: the proposal does not pay exactly   ",
    *b"17: the proposer leaves something unpaid",
];

// A line of this kind is a left half, whose right half comes with the next line: an entry's number, a sitting's.
pub fn half(kind: usize) -> bool
    ensures { result ≡ half_row kind }
{
    either(kind == 0, kind == 7)
}

// How many pots stand in a row after a line of this kind.
pub fn counted(pots: u32, kind: usize) -> u32
    ensures { (result ≡ counted_of pots kind) × (result ≤ 999999999) }
{
    if kind == 4 {
        if pots < 999999999 {
            return pots + 1;
        }
        return 999999999;
    }
    0
}

// A rule across the picture, where a test passes.
pub fn put_rule_if(out: &mut [u8], at: usize, test: bool) -> usize
    requires { at + 45 ≤ length out.old }
    ensures { Put (pick test rule []) at out.old out.new result × (result ≤ at + 45) }
{
    put_if(
        out,
        at,
        test,
        b"+------------------------------------------+\n",
    )
}

// Bytes in a colour.
fn put_lit(out: &mut [u8], at: usize, colour: bool, ink: &[u8], bytes: &[u8]) -> usize
    requires { at + length ink.now + length bytes.now + 4 ≤ length out.old }
    ensures { Put (lit_of colour ink.now bytes.now) at out.old out.new result × (result ≤ at + length ink.now + length bytes.now + 4) }
{
    let a = put_if(out, at, colour, ink);
    let b = put(out, a, bytes);
    put_if(out, b, colour, b"\x1b[0m")
}

// The right half of a row.
pub fn put_cell(out: &mut [u8], at: usize, colour: bool, ink: &[u8], bytes: &[u8]) -> usize
    requires { (length ink.now ≤ 7) × (length bytes.now ≡ 11) × (at + 33 ≤ length out.old) }
    ensures { Put (cell_of colour ink.now bytes.now) at out.old out.new result × (result ≤ at + 33) }
{
    let a = put(out, at, b"        ");
    let b = put_lit(out, a, colour, ink, bytes);
    put(out, b, b" |\n")
}

// The left half of a row.
pub fn put_left(out: &mut [u8], at: usize, kind: usize, shown: bool, n: u32) -> usize
    requires { (kind < length labels) × (at + 23 ≤ length out.old) }
    ensures { Put (left_of kind shown n) at out.old out.new result × (result ≤ at + 23) }
{
    let a = put(out, at, &LABELS[kind]);
    put(out, a, &column(shown, n))
}

// A refusal in words.
pub fn words_of(code: usize) -> [u8; 40]
    requires { code < refusals }
    ensures { result ≡ get_or words code [] }
{
    WORDS[code]
}

// The row that gives a refusal in words.
pub fn put_words(out: &mut [u8], at: usize, colour: bool, code: usize) -> usize
    requires { (code < refusals) × (at + 56 ≤ length out.old) }
    ensures { Put (words_row colour code) at out.old out.new result × (result ≤ at + 56) }
{
    let a = put(out, at, b"| ");
    let b = put_lit(out, a, colour, b"\x1b[1;31m", &WORDS[code]);
    put(out, b, b" |\n")
}

// A row's amount.
pub fn put_amount(out: &mut [u8], at: usize, n: u32) -> usize
    requires { at + 33 ≤ length out.old }
    ensures { Put (amount_of n) at out.old out.new result × (result ≤ at + 33) }
{
    let g = grouped(n);
    put_cell(out, at, false, b"", &g)
}

// A row of the lamp in the place of an amount.
pub fn put_lamp_cell(out: &mut [u8], at: usize, colour: bool, seat: u32, row: u32) -> usize
    requires { (row < 5) × (at + 33 ≤ length out.old) }
    ensures { Put (lamp_cell colour seat row) at out.old out.new result × (result ≤ at + 33) }
{
    let g = cells(seat, row);
    put_cell(out, at, colour, b"\x1b[1;33m", &g)
}
