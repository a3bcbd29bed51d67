// Which answer line a line is, by a table of the keys.
ghost use Rattle.std.specs.Prelude.{◌≡◌, ◌<◌, get_or};
ghost use Rattle.text.specs.Line.{value_of};
ghost use Rattle.picture.specs.Lines.{Answering, line_kinds, mosts, after_zeros, nine_of, number_as, line_with, line_at, answer_line};

use crate::Line;
use figures::row::KINDS;
use text::decimal::number_in;
use text::line::{line_end, value_of};

// The letters of a key and how many they are, and the greatest number that the box writes there.
#[derive(Clone, Copy)]
struct Key {
    letters: [u8; 9],
    count: usize,
    most: u32,
}

const KEYS: [Key; KINDS] = [
    Key {
        letters: *b"n        ",
        count: 1,
        most: 999999999,
    },
    Key {
        letters: *b"code     ",
        count: 4,
        most: 17,
    },
    Key {
        letters: *b"turn     ",
        count: 4,
        most: 10,
    },
    Key {
        letters: *b"mark     ",
        count: 4,
        most: 999999999,
    },
    Key {
        letters: *b"pot      ",
        count: 3,
        most: 999999999,
    },
    Key {
        letters: *b"back     ",
        count: 4,
        most: 999999999,
    },
    Key {
        letters: *b"fee      ",
        count: 3,
        most: 999999999,
    },
    Key {
        letters: *b"sitting  ",
        count: 7,
        most: 999999999,
    },
    Key {
        letters: *b"paid     ",
        count: 4,
        most: 999999999,
    },
    Key {
        letters: *b"unclaimed",
        count: 9,
        most: 999999999,
    },
    Key {
        letters: *b"jackpot  ",
        count: 7,
        most: 999999999,
    },
];

// The key whose number has nine digits, with zeros in front.
const JACKPOT: usize = 10;

// The bytes behind the zeros in front; the last byte is none of these.
fn after_zeros(part: &[u8]) -> &[u8]
    ensures { result.now ≡ after_zeros part.now }
{
    let mut left = part;
    while 1 < left.len() && left[0] == b'0' {
        left = &left[1..];
    }
    left
}

// The number that nine digits are.
fn nine_in(part: &[u8]) -> Option<u32>
    ensures { result ≡ nine_of part.now }
{
    if part.len() == 9 {
        return number_in(after_zeros(part));
    }
    None
}

// What stands behind the k-th key as a number.
fn number_as(k: usize, part: &[u8]) -> Option<u32>
    ensures { result ≡ number_as k part.now }
{
    if k == JACKPOT {
        return nine_in(part);
    }
    number_in(part)
}

// The number of a line that has this key, the k-th.
fn number_behind(line: &[u8], key: &[u8], k: usize) -> Option<u32>
    ensures { result ≡ number_as k (value_of key.now line.now) }
{
    number_as(k, value_of(line, key, line_end(line)))
}

// A number that stands behind the k-th key makes an answer line where it is not too great.
fn line_with(k: usize, most: u32, x: Option<u32>) -> Line
    requires { (k < line_kinds) × (most ≡ get_or mosts k 0) }
    ensures { (result ≡ line_with k most x) × Answering result }
{
    let Some(v) = x else {
        return Line {
            kind: KINDS,
            value: 0,
        };
    };
    if v <= most {
        return Line { kind: k, value: v };
    }
    Line {
        kind: KINDS,
        value: 0,
    }
}

// The line with the k-th key.
fn line_at(line: &[u8], k: usize) -> Line
    requires { k < line_kinds }
    ensures { (result ≡ line_at k line.now) × Answering result }
{
    let row = KEYS[k];
    let letters = row.letters;
    let count = row.count;
    let x = number_behind(line, &letters[0..count], k);
    line_with(k, row.most, x)
}

// What a line with its LF says.
pub(crate) fn read_line(line: &[u8]) -> Line
    ensures { (result ≡ answer_line line.now) × Answering result }
{
    for k in 0..KINDS {
        let l = line_at(line, k);
        if l.kind < KINDS {
            return l;
        }
    }
    Line {
        kind: KINDS,
        value: 0,
    }
}
