// A block of five lines at the front of a log, and the rest of the log, which is handed on to the next reading.
ghost use Rattle.std.specs.Prelude.{◌≡◌};
ghost use Rattle.text.specs.Line.{line_len};
ghost use Rattle.blocks.specs.Block.{rest_of, line_kind, block_from, block_of};

use crate::Block;
use crate::kind::kind_of;
use text::line::{after_lines, behind, line_end, number_of, value_of};

// How many lines a block has: n, do, seat, a, b.
pub const BLOCK_LINES: usize = 5;

// What follows the first block, whatever its lines hold: the rest of the log.
pub fn rest(log: &[u8]) -> &[u8]
    ensures { result.now ≡ rest_of log.now }
{
    after_lines(log, BLOCK_LINES)
}

// The kind of the log's first line, which ends at e.
pub fn line_kind(log: &[u8], e: usize) -> Option<u32>
    requires { e ≡ line_len log.now }
    ensures { result ≡ line_kind log.now }
{
    kind_of(value_of(log, b"do", e))
}

// Five readings make a block where none of them is bad.
pub fn block_from(
    n: Option<u32>,
    kind: Option<u32>,
    seat: Option<u32>,
    a: Option<u32>,
    b: Option<u32>,
) -> Block
    ensures { result ≡ block_from n kind seat a b }
{
    let (Some(n), Some(kind), Some(seat), Some(a), Some(b)) = (n, kind, seat, a, b) else {
        return Block::Malformed;
    };
    Block::Raw {
        n,
        kind,
        seat,
        a,
        b,
    }
}

// The block at the front of the log. The end of each line is looked for once.
pub fn read_block(log: &[u8]) -> Block
    ensures { result ≡ block_of log.now }
{
    if log.len() == 0 {
        return Block::Nothing;
    }
    let e1 = line_end(log);
    let n = number_of(log, b"n", e1);
    let second = behind(log, e1);
    let e2 = line_end(second);
    let kind = line_kind(second, e2);
    let third = behind(second, e2);
    let e3 = line_end(third);
    let seat = number_of(third, b"seat", e3);
    let fourth = behind(third, e3);
    let e4 = line_end(fourth);
    let a = number_of(fourth, b"a", e4);
    let fifth = behind(fourth, e4);
    let b = number_of(fifth, b"b", line_end(fifth));
    block_from(n, kind, seat, a, b)
}
