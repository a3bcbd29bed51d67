// Lines that come in parts: the unfinished ones are kept in a lent buffer, each cut after 33 bytes.
#![tactic(auto)]

ghost use Rattle.std.specs.Prelude.{◌≡◌, ◌≤◌, ◌<◌, length};
ghost use Rattle.writing.specs.AnswerSheet.{over};
ghost use Rattle.text.specs.TableSheet.{sheet_lines};
ghost use Rattle.lines.specs.Kept.{nothing, lines_of, bad_of, keep_of, gather_of, kept_in, fill_of, progress_of, kept_most, Room};

use text::sheet::LINES;

// How far a lent buffer is filled by what is kept: its bytes, its LFs, the bytes of the line that is not ended, and whether a line of it has grown past 32 bytes.
#[derive(Clone, Copy)]
pub struct Fill {
    pub count: usize,
    pub lines: usize,
    pub width: usize,
    pub bad: bool,
}

// How many lines are read together: before the sheet was read the sheet's, then a block's five.
pub fn lines_of(opened: bool) -> usize
    ensures { (result ≡ lines_of opened) × (0 < result) × (result ≤ sheet_lines) }
{
    if opened { 5 } else { LINES }
}

// Nothing is kept.
pub fn empty() -> Fill
    ensures { (result ≡ fill_of nothing) × Room result }
{
    Fill {
        count: 0,
        lines: 0,
        width: 0,
        bad: false,
    }
}

// Whether lines are bad once one of so many bytes grows by one.
fn bad_with(width: usize, bad: bool) -> bool
    ensures { result ≡ bad_of width bad }
{
    if width == 32 {
        return true;
    }
    bad
}

// One byte more.
fn keep(buf: &mut [u8], m: Fill, b: u8) -> Fill
    requires { Room m × (m.lines < sheet_lines) × (kept_most ≤ length buf.old) }
    ensures { (result ≡ fill_of (keep_of (kept_in m buf.old) b)) × (buf.new ≡ over (keep_of (kept_in m buf.old) b).bytes buf.old) × Room result }
{
    let at = m.count;
    if b == 10 {
        buf[at] = b;
        return Fill {
            count: at + 1,
            lines: m.lines + 1,
            width: 0,
            bad: m.bad,
        };
    }
    if m.width < 33 {
        buf[at] = b;
        return Fill {
            count: at + 1,
            lines: m.lines,
            width: m.width + 1,
            bad: bad_with(m.width, m.bad),
        };
    }
    m
}

#[derive(Clone, Copy)]
pub struct Progress {
    pub fill: Fill,
    pub used: usize,
}

// The bytes of a part up to the LF of the last of so many lines, or all of them.
pub fn gather(buf: &mut [u8], m: Fill, part: &[u8], want: usize) -> Progress
    requires { Room m × (m.lines < want) × (want ≤ sheet_lines) × (kept_most ≤ length buf.old) }
    ensures got { result ≡ progress_of (gather_of want (kept_in m buf.old) part.now) }
    ensures kept { buf.new ≡ over (gather_of want (kept_in m buf.old) part.now).kept.bytes buf.old }
    ensures room { Room result.fill × (result.used ≤ length part.now) × (0 < length part.now → 0 < result.used) }
{
    let mut fill = m;
    for (i, b) in part.iter().enumerate() {
        fill = keep(buf, fill, *b);
        if want <= fill.lines {
            return Progress { fill, used: i + 1 };
        }
    }
    Progress {
        fill,
        used: part.len(),
    }
}
