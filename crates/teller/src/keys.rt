// What a line says: which of the keys that are looked at it begins with, and its number.
ghost use Rattle.std.specs.Prelude.{◌≡◌, ◌<◌, ◌^◌};
ghost use Rattle.laws.specs.Tests.{pick};
ghost use Rattle.text.specs.Line.{has_key};
ghost use Rattle.teller.specs.Lines.{other_line, keyed_line, said_of};

use text::line::starts_with;
use text::read_key_number;

pub const SITTING: u32 = 3;

pub const PAID: u32 = 4;

pub const UNCLAIMED: u32 = 5;

pub const GIVE: u32 = 6;

const OTHER: u32 = 7;

// The key's place among those that are looked at; whether the number behind the key is of good form, and the number.
#[derive(Clone, Copy)]
pub struct Line {
    pub kind: u32,
    pub good: bool,
    pub value: u32,
}

// A line that is not looked at.
fn other() -> Line
    ensures { result ≡ other_line }
{
    Line {
        kind: OTHER,
        good: false,
        value: 0,
    }
}

// Whether a line begins with this key and `=`.
fn has_key(line: &[u8], key: &[u8]) -> bool
    ensures { result ≡ has_key key.now line.now }
{
    if starts_with(line, key) {
        let k = key.len();
        if k < line.len() {
            return line[k] == 61;
        }
    }
    false
}

// The line as one of this key.
fn keyed(line: &[u8], key: &[u8], kind: u32) -> Line
    ensures { (result ≡ pick (has_key key.now line.now) (keyed_line kind key.now line.now) other_line) × (result.value < 10 ^ 9) }
{
    if has_key(line, key) {
        let x = read_key_number(line, key);
        return Line {
            kind,
            good: x.is_some(),
            value: x.unwrap_or(0),
        };
    }
    other()
}

// What a line with its LF says. No two keys begin with the same letter.
pub fn said(line: &[u8]) -> Line
    ensures { (result ≡ said_of line.now) × (result.value < 10 ^ 9) }
{
    if line.len() == 0 {
        return other();
    }
    match line[0] {
        b'r' => keyed(line, b"rows", 0),
        b'w' => keyed(line, b"worth", 1),
        b'c' => keyed(line, b"count", 2),
        b's' => keyed(line, b"sitting", SITTING),
        b'p' => keyed(line, b"paid", PAID),
        b'u' => keyed(line, b"unclaimed", UNCLAIMED),
        b'g' => keyed(line, b"give", GIVE),
        _ => other(),
    }
}
