// Blocks that come in parts: the unfinished block is kept, each line cut after 33 bytes, and answered at its sixteenth LF.
ghost use Rattle.std.specs.Prelude.{◌≡◌, ◌≤◌, ◌<◌, eqb, length, drop};
ghost use Rattle.laws.specs.Tests.{both};
ghost use Rattle.writing.specs.AnswerSheet.{Wrote};
ghost use Rattle.rounds.specs.RoundParts.{state_of, keep_of, gather_of, Room, Held, kept_after, bytes_after, close_bytes};

use crate::answering::{answer, judge, put_outcome};
use crate::reading::read_numbers;
use laws::both;

// How far a lent buffer is filled by what is kept: its bytes, its LFs, and the bytes of the line that is not ended.
#[derive(Clone, Copy)]
pub struct Fill {
    pub count: usize,
    pub lines: usize,
    pub width: usize,
}

impl Fill {
    // Whether nothing is kept.
    fn is_empty(self) -> bool
        ensures { result ≡ both (eqb self.count 0) (both (eqb self.lines 0) (eqb self.width 0)) }
    {
        both(self.count == 0, both(self.lines == 0, self.width == 0))
    }
}

// Nothing is kept.
pub fn empty() -> Fill
    ensures { Held result × (result.count ≡ 0) × (result.lines ≡ 0) × (result.width ≡ 0) }
{
    Fill {
        count: 0,
        lines: 0,
        width: 0,
    }
}

// One byte more.
fn keep(buf: &mut [u8], m: Fill, b: u8) -> Fill
    requires { Held m × (544 ≤ length buf.old) }
    ensures { (state_of result buf.new ≡ keep_of (state_of m buf.old) b) × Room result }
{
    let at = m.count;
    if b == 10 {
        buf[at] = b;
        return Fill {
            count: at + 1,
            lines: m.lines + 1,
            width: 0,
        };
    }
    if m.width < 33 {
        buf[at] = b;
        return Fill {
            count: at + 1,
            lines: m.lines,
            width: m.width + 1,
        };
    }
    m
}

#[derive(Clone, Copy)]
struct Progress {
    fill: Fill,
    used: usize,
}

// The bytes of a part up to the LF of a block's last line, or all of them.
fn gather(buf: &mut [u8], m: Fill, part: &[u8]) -> Progress
    requires { Held m × (544 ≤ length buf.old) }
    ensures kept { (state_of result.fill buf.new ≡ (gather_of (state_of m buf.old) part.now).kept) × (drop result.used part.now ≡ (gather_of (state_of m buf.old) part.now).left) }
    ensures room { Room result.fill × (result.used ≤ length part.now) × (0 < length part.now → 0 < result.used) }
{
    let mut fill = m;
    for (i, b) in part.iter().enumerate() {
        fill = keep(buf, fill, *b);
        if 16 <= fill.lines {
            return Progress { fill, used: i + 1 };
        }
    }
    Progress {
        fill,
        used: part.len(),
    }
}

// What is kept after some bytes, how many were used up and how many written.
#[derive(Clone, Copy)]
pub struct Fed {
    pub fill: Fill,
    pub used: usize,
    pub written: usize,
}

// The bytes of a part by way of the buffer: up to the end of a block, which is answered, or all of them, which are kept.
fn feed_kept(m: Fill, buf: &mut [u8], part: &[u8], out: &mut [u8]) -> Fed
    requires { Held m × (544 ≤ length buf.old) × (216 ≤ length out.old) }
    ensures left { drop result.used part.now ≡ (gather_of (state_of m buf.old) part.now).left }
    ensures kept { state_of result.fill buf.new ≡ kept_after (gather_of (state_of m buf.old) part.now).kept }
    ensures wrote { Wrote (bytes_after (gather_of (state_of m buf.old) part.now).kept) out.old out.new result.written }
    ensures held { Held result.fill × (result.used ≤ length part.now) × (0 < length part.now → 0 < result.used) × (result.written ≤ 216) }
{
    let g = gather(buf, m, part);
    if g.fill.lines < 16 {
        return Fed {
            fill: g.fill,
            used: g.used,
            written: 0,
        };
    }
    let written = answer(&buf[..g.fill.count], out);
    Fed {
        fill: empty(),
        used: g.used,
        written,
    }
}

// The bytes of a part up to the end of a block, which is answered, or all of them, which are kept. A well-formed block that lies whole at the front of the
// part, behind nothing that is kept, is answered where it lies.
pub fn feed(m: Fill, buf: &mut [u8], part: &[u8], out: &mut [u8]) -> Fed
    requires { Held m × (544 ≤ length buf.old) × (216 ≤ length out.old) }
    ensures left { drop result.used part.now ≡ (gather_of (state_of m buf.old) part.now).left }
    ensures kept { state_of result.fill buf.new ≡ kept_after (gather_of (state_of m buf.old) part.now).kept }
    ensures wrote { Wrote (bytes_after (gather_of (state_of m buf.old) part.now).kept) out.old out.new result.written }
    ensures held { Held result.fill × (result.used ≤ length part.now) × (0 < length part.now → 0 < result.used) × (result.written ≤ 216) }
{
    if m.is_empty() {
        if let Some(s) = read_numbers(part) {
            let written = put_outcome(out, judge(s.numbers));
            return Fed {
                fill: empty(),
                used: s.used,
                written,
            };
        }
    }
    feed_kept(m, buf, part, out)
}

// The end of the input: a block that is not whole is answered too.
pub fn close(m: Fill, buf: &[u8], out: &mut [u8]) -> usize
    requires { Held m × (544 ≤ length buf.now) × (216 ≤ length out.old) }
    ensures { Wrote (close_bytes (state_of m buf.now)) out.old out.new result × (result ≤ 216) }
{
    if m.count == 0 {
        return 0;
    }
    answer(&buf[..m.count], out)
}
