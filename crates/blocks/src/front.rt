// The block at the front of a log, with its length: five well-formed lines are read at one go, with no look for a line's end first, and other bytes by
// the reader.
ghost use Rattle.std.specs.Prelude.{◌≡◌, [], ◌∷◌, ◌+◌, ◌≤◌, ◌<◌, length, Some, None, IfSome};
ghost use Rattle.text.specs.Line.{line_number};
ghost use Rattle.blocks.specs.Block.{line_kind, rest_of};
ghost use Rattle.blocks.specs.Front.{front_of, AtOneGo};

use crate::Block;
use crate::firsts::{four, two};
use crate::reader::{read_block, rest};
use crate::runs::{Run, number_behind, number_ended};
use crate::words::word_ended;
use text::line::{after_lines, line_end};

// The block, how many bytes it uses up, and whether its fifth LF has come.
#[derive(Clone, Copy)]
pub struct Front {
    pub block: Block,
    pub used: usize,
    pub whole: bool,
}

// A line's value, and where the next line starts.
#[derive(Clone, Copy)]
pub struct Line {
    pub value: u32,
    pub next: usize,
}

// The line whose value is these bytes and starts at `from`, with its LF behind them; none where there are no bytes.
fn line_from(from: usize, d: Run) -> Option<Line>
    requires { (from ≤ 5) × (d.count ≤ 9) }
    ensures { (0 < d.count → result ≡ Some (record { value = d.value; next = from + d.count + 1 })) × (d.count ≡ 0 → result ≡ None) }
{
    if d.count == 0 {
        return None;
    }
    Some(Line {
        value: d.value,
        next: from + d.count + 1,
    })
}

// The line of each key, at the front of a log that has room for any such line.
fn n_line(log: &[u8]) -> Option<Line>
    requires { 12 ≤ length log.now }
    ensures { IfSome result (λ r. AtOneGo (line_number (110 ∷ []) log.now) log.now r × (r.next ≤ 12)) }
{
    if two(log) == 0x3d6e {
        return line_from(2, number_ended(&log[2..]));
    }
    None
}

fn do_line(log: &[u8]) -> Option<Line>
    requires { 12 ≤ length log.now }
    ensures { IfSome result (λ r. AtOneGo (line_kind log.now) log.now r × (r.next ≤ 12)) }
{
    if two(log) == 0x6f64 {
        if log[2] == 61 {
            return line_from(3, word_ended(&log[3..]));
        }
    }
    None
}

fn seat_line(log: &[u8]) -> Option<Line>
    requires { 15 ≤ length log.now }
    ensures { IfSome result (λ r. AtOneGo (line_number (115 ∷ 101 ∷ 97 ∷ 116 ∷ []) log.now) log.now r × (r.next ≤ 15)) }
{
    if four(log) == 0x74616573 {
        if log[4] == 61 {
            return line_from(5, number_behind(log, 5));
        }
    }
    None
}

fn a_line(log: &[u8]) -> Option<Line>
    requires { 12 ≤ length log.now }
    ensures { IfSome result (λ r. AtOneGo (line_number (97 ∷ []) log.now) log.now r × (r.next ≤ 12)) }
{
    if two(log) == 0x3d61 {
        return line_from(2, number_behind(log, 2));
    }
    None
}

fn b_line(log: &[u8]) -> Option<Line>
    requires { 12 ≤ length log.now }
    ensures { IfSome result (λ r. AtOneGo (line_number (98 ∷ []) log.now) log.now r × (r.next ≤ 12)) }
{
    if two(log) == 0x3d62 {
        return line_from(2, number_behind(log, 2));
    }
    None
}

// Five well-formed lines have at most 63 bytes: `n`, `a` and `b` 12 each, `do` 12 and `seat` 15.
const FULL: usize = 64;

// Five well-formed lines; none where they are not.
fn at_one_go(log: &[u8]) -> Option<Front>
    ensures { IfSome result (λ f. f ≡ front_of log.now) }
{
    if log.len() < FULL {
        return None;
    }
    let n = n_line(log)?;
    let second = &log[n.next..];
    let kind = do_line(second)?;
    let third = &second[kind.next..];
    let seat = seat_line(third)?;
    let fourth = &third[seat.next..];
    let a = a_line(fourth)?;
    let b = b_line(&fourth[a.next..])?;
    Some(Front {
        block: Block::Raw {
            n: n.value,
            kind: kind.value,
            seat: seat.value,
            a: a.value,
            b: b.value,
        },
        used: n.next + kind.next + seat.next + a.next + b.next,
        whole: true,
    })
}

// The block at the front of the log, by the ends of its lines.
fn line_by_line(log: &[u8]) -> Front
    ensures { result ≡ front_of log.now }
{
    let fifth = after_lines(log, 4);
    let left = rest(log);
    Front {
        block: read_block(log),
        used: log.len() - left.len(),
        whole: line_end(fifth) < fifth.len(),
    }
}

// The block at the front of the log.
pub fn read_front(log: &[u8]) -> Front
    ensures { result ≡ front_of log.now }
{
    if let Some(f) = at_one_go(log) {
        return f;
    }
    line_by_line(log)
}

// What follows the block that was read: the log from the entry's end onward, handed on to the next reading.
pub fn front_rest(log: &[u8], used: usize) -> &[u8]
    requires { used ≡ (front_of log.now).used }
    ensures { result.now ≡ rest_of log.now }
{
    &log[used..]
}
