// The table sheet: its lines, by a table of keys.
ghost use Rattle.std.specs.Prelude.{◌≡◌, ◌<◌};
ghost use Rattle.text.specs.TableSheet.{sheet_lines, sheet_number, value_in, all_good, sheet_of, sheet_end, sheet_with};

use crate::line::{after_lines, read_key_number};
use paper::{Refusal, Sheet, is_sheet};

// How many lines a sheet has.
pub const LINES: usize = 9;

// The most bytes that are kept of a sheet or of a block: a line is kept up to its 33rd byte, and its LF.
pub const ROOM: usize = LINES * 34;

// The key of a line of the sheet, and how many letters it has.
#[derive(Clone, Copy)]
pub struct Key {
    pub bytes: [u8; 5],
    pub letters: usize,
}

pub const KEYS: [Key; LINES] = [
    Key {
        bytes: *b"seats",
        letters: 5,
    },
    Key {
        bytes: *b"small",
        letters: 5,
    },
    Key {
        bytes: *b"big  ",
        letters: 3,
    },
    Key {
        bytes: *b"rate ",
        letters: 4,
    },
    Key {
        bytes: *b"cap  ",
        letters: 3,
    },
    Key {
        bytes: *b"step ",
        letters: 4,
    },
    Key {
        bytes: *b"game ",
        letters: 4,
    },
    Key {
        bytes: *b"deck ",
        letters: 4,
    },
    Key {
        bytes: *b"drop ",
        letters: 4,
    },
];

// The number of the sheet's k-th line.
fn sheet_number(log: &[u8], k: usize) -> Option<u32>
    requires { k < sheet_lines }
    ensures { result ≡ sheet_number k log.now }
{
    let key = KEYS[k];
    let bytes = key.bytes;
    let letters = key.letters;
    read_key_number(after_lines(log, k), &bytes[0..letters])
}

// Whether each of the sheet's lines is good.
fn all_good(log: &[u8]) -> bool
    ensures { result ≡ all_good sheet_lines log.now }
{
    for k in 0..LINES {
        if sheet_number(log, k).is_none() {
            return false;
        }
    }
    true
}

fn value_at(log: &[u8], k: usize) -> u32
    requires { k < sheet_lines }
    ensures { result ≡ value_in (sheet_number k log.now) }
{
    sheet_number(log, k).unwrap_or(0)
}

// The sheet of the numbers of its lines, good or not.
fn sheet_with(log: &[u8]) -> Sheet
    ensures { result ≡ sheet_with log.now }
{
    Sheet {
        seats: value_at(log, 0),
        small: value_at(log, 1),
        big: value_at(log, 2),
        rate: value_at(log, 3),
        cap: value_at(log, 4),
        step: value_at(log, 5),
        game: value_at(log, 6),
        deck: value_at(log, 7),
        drop: value_at(log, 8),
    }
}

// The sheet at the front of a log, or code 11: one of its lines is missing, malformed or out of its range.
pub fn read_sheet(log: &[u8]) -> Result<Sheet, Refusal>
    ensures { result ≡ sheet_of log.now }
{
    if all_good(log) {
        let s = sheet_with(log);
        if is_sheet(s) {
            return Ok(s);
        }
    }
    Err(Refusal::BadSheet)
}

// What follows the sheet.
pub fn after_sheet(log: &[u8]) -> &[u8]
    ensures { result.now ≡ sheet_end log.now }
{
    after_lines(log, LINES)
}
