// The word of a kind and its LF at the front of a part that has room for any: a word of the table by its length and its bytes as one number, another letter by letter.
ghost use Rattle.std.specs.Prelude.{◌≡◌, true, [], ◌+◌, ◌*◌, ◌≤◌, ◌<◌, length, get_or, take};
ghost use Rattle.text.specs.Bytes.{pack_of};
ghost use Rattle.blocks.specs.Block.{all_letters, kind_names, place_in};

use crate::firsts::four;
use crate::kind::{kind_place, letter_run};
use crate::runs::Run;

// The kind whose word has these four letters, 12 where there is none; then five letters and six, the first four of them as one number.
fn kind_of_four(w: u32) -> u32
    ensures { result < 12 → (w ≡ pack_of (get_or kind_names result [])) × (length (get_or kind_names result []) ≡ 4) }
{
    match w {
        0x646e6168 => 2,
        0x656c6f68 => 3,
        0x646c6f66 => 4,
        0x6c6c6163 => 6,
        0x64616564 => 9,
        0x64696f76 => 11,
        _ => 12,
    }
}

fn when_last(last: u8, letter: u8, kind: u32) -> u32
    ensures { result < 12 → (last ≡ letter) × (result ≡ kind) }
{
    if last == letter {
        return kind;
    }
    12
}

fn kind_of_five(w: u32, last: u8) -> u32
    ensures { result < 12 → (last * 4294967296 + w ≡ pack_of (get_or kind_names result [])) × (length (get_or kind_names result []) ≡ 5) }
{
    match w {
        0x7661656c => when_last(last, 101, 1),
        0x63656863 => when_last(last, 107, 5),
        0x65676177 => when_last(last, 114, 7),
        0x72616f62 => when_last(last, 100, 8),
        _ => 12,
    }
}

fn kind_of_six(w: u32, fifth: u8, last: u8) -> u32
    ensures { result < 12 → ((last * 256 + fifth) * 4294967296 + w ≡ pack_of (get_or kind_names result [])) × (length (get_or kind_names result []) ≡ 6) }
{
    if w == 0x74746573 {
        if fifth == 108 {
            return when_last(last, 101, 10);
        }
    }
    12
}

// A word of the table and its LF; the value is 12 where there is none. `sit` and its LF are four bytes.
fn known_word(part: &[u8]) -> Run
    requires { 9 ≤ length part.now }
    ensures { result.value < 12 → (result.count ≤ 8) × (take result.count part.now ≡ get_or kind_names result.value []) × (get_or part.now result.count 0 ≡ 10) }
{
    let w = four(part);
    if part[4] == 10 {
        return Run {
            count: 4,
            value: kind_of_four(w),
        };
    }
    if part[5] == 10 {
        return Run {
            count: 5,
            value: kind_of_five(w, part[4]),
        };
    }
    if part[6] == 10 {
        return Run {
            count: 6,
            value: kind_of_six(w, part[4], part[5]),
        };
    }
    if w == 0x0a746973 {
        return Run { count: 3, value: 0 };
    }
    Run {
        count: 0,
        value: 12,
    }
}

// Any word and its LF, letter by letter: how many letters, and its place in the table of kinds; none where there is no such word.
fn any_word(part: &[u8]) -> Run
    requires { 9 ≤ length part.now }
    ensures { (result.count ≤ 8) × (0 < result.count → (all_letters (take result.count part.now) ≡ true) × (get_or part.now result.count 0 ≡ 10) × (result.value ≡ place_in kind_names (take result.count part.now))) }
{
    let e = letter_run(part);
    if part[e] == 10 {
        return Run {
            count: e,
            value: kind_place(&part[0..e]) as u32,
        };
    }
    Run { count: 0, value: 0 }
}

// The word and its LF at the front of `part`.
pub fn word_ended(part: &[u8]) -> Run
    requires { 9 ≤ length part.now }
    ensures { (result.count ≤ 8) × (0 < result.count → (all_letters (take result.count part.now) ≡ true) × (get_or part.now result.count 0 ≡ 10) × (result.value ≡ place_in kind_names (take result.count part.now))) }
{
    let k = known_word(part);
    if k.value < 12 {
        return k;
    }
    any_word(part)
}
