// The twelve kinds: their words, 1 to 8 small letters, and the entry that a kind makes of a block's numbers.
ghost use Rattle.std.specs.Prelude.{◌≡◌, true, ◌≤◌, ◌<◌, length, take};
ghost use Rattle.text.specs.Bytes.{all_within, pack_of};
ghost use Rattle.blocks.specs.Block.{all_letters, kind_names, place_in, kind_of};
ghost use Rattle.blocks.specs.Entry.{entry_at, parsed_of};

use paper::{Entry, Numbers, Refusal, makes_entry};

// The words of the twelve kinds in the order of the paper's table, each as one number, its first letter the lowest byte.
const KINDS: [u64; 12] = [
    0x746973,
    0x657661656c,
    0x646e6168,
    0x656c6f68,
    0x646c6f66,
    0x6b63656863,
    0x6c6c6163,
    0x7265676177,
    0x6472616f62,
    0x64616564,
    0x656c74746573,
    0x64696f76,
];

// A word of at most eight bytes as one number, its first byte the lowest.
fn packed(w: &[u8]) -> u64
    requires { length w.now ≤ 8 }
    ensures { result ≡ pack_of w.now }
{
    let mut v: u64 = 0;
    for i in (0..w.len()).rev() {
        v = v * 256 + u64::from(w[i]);
    }
    v
}

// The place of a word of small letters in the table of kinds, 12 where it is none of them.
pub fn kind_place(w: &[u8]) -> usize
    requires { (length w.now ≤ 8) × (all_letters w.now ≡ true) }
    ensures { result ≡ place_in kind_names w.now }
{
    let word = packed(w);
    for (k, kind) in KINDS.iter().enumerate() {
        if *kind == word {
            return k;
        }
    }
    12
}

// Whether each byte is within lo to hi.
fn all_within(w: &[u8], lo: u8, hi: u8) -> bool
    ensures { result ≡ all_within lo hi w.now }
{
    for b in w {
        if *b < lo || hi < *b {
            return false;
        }
    }
    true
}

// The kind that a word names, where it is a word.
pub fn kind_of(w: &[u8]) -> Option<u32>
    ensures { result ≡ kind_of w.now }
{
    if w.len() < 1 {
        return None;
    }
    if 8 < w.len() {
        return None;
    }
    if all_within(w, 97, 122) {
        return Some(kind_place(w) as u32);
    }
    None
}

// The entry of the k-th kind.
pub fn entry_at(k: usize, seat: u32, a: u32, b: u32) -> Entry
    requires { k < 12 }
    ensures { result ≡ entry_at k seat a b }
{
    match k {
        0 => Entry::Sit(seat, a),
        1 => Entry::Leave(seat),
        2 => Entry::Hand(seat),
        3 => Entry::Hole(seat, a, b),
        4 => Entry::Fold(seat),
        5 => Entry::Check(seat),
        6 => Entry::Call(seat),
        7 => Entry::Wager(seat, a),
        8 => Entry::Board(a),
        9 => Entry::Dead(seat),
        10 => Entry::Settle,
        _ => Entry::Void,
    }
}

// The entry that a block's numbers make, or code 2: an unknown kind, or an unused number that is not 0.
pub fn entry_of(kind: u32, seat: u32, a: u32, b: u32) -> Result<Entry, Refusal>
    ensures { result ≡ parsed_of kind seat a b }
{
    let x = Numbers {
        kind: kind,
        seat: seat,
        a: a,
        b: b,
    };
    if makes_entry(x) {
        return Ok(entry_at(kind as usize, seat, a, b));
    }
    Err(Refusal::OutOfRange)
}

// How many small letters stand at the front of `part`, eight at most.
pub fn letter_run(part: &[u8]) -> usize
    ensures { (result ≤ 8) × (result ≤ length part.now) × (all_letters (take result part.now) ≡ true) }
{
    let most = part.len().min(8);
    for i in 0..most {
        if part[i] < 97 || 122 < part[i] {
            return i;
        }
    }
    most
}
