// A log that comes in parts: the unfinished sheet or block is kept, each line cut after 33 bytes, and answered at its last LF.
#![tactic(auto)]

ghost use Rattle.std.specs.Prelude.{◌≡◌, true, false, ◌+◌, ◌≤◌, ◌<◌, length, eqb};
ghost use Rattle.blocks.specs.Front.{block_ended};
ghost use Rattle.writing.specs.AnswerSheet.{over, Wrote};
ghost use Rattle.lines.specs.Kept.{gather_of, kept_in, nothing, fill_of, Room, kept_most};
ghost use Rattle.table.specs.Take.{Sound};
ghost use Rattle.stream.specs.Onward.{lines_of, lines_done, closing, any_short};
ghost use Rattle.stream.specs.InPlace.{awaits_block};
ghost use Rattle.stream.specs.Feeding.{longest_answer, state_of, state_at, kept_by, Held, start_of, Gave, FedOn, used_of, buffer_of};

use answers::LONGEST;
use blocks::rest;
use desk::log::{read_lone_sheet, refuse_sheet};
use lines::{Fill, empty, gather, lines_of};
use paper::STAND_IN;
use place::{RanInPlace, in_place};
use table::table::Table;
use table::take::new_table;
use text::line::{after_lines, line_end};

pub mod place;

// The clerk between two bytes: whether the sheet was read, whether it was bad, the table, and what is kept.
#[derive(Clone, Copy)]
pub struct Clerk {
    pub opened: bool,
    pub shut: bool,
    pub table: Table,
    pub fill: Fill,
}

// The clerk after a part of the log, how many of its bytes are used up, how many bytes are written, and whether a block had no room for its answer: it is used
// up and not taken (code 12).
#[derive(Clone, Copy)]
pub struct Fed {
    pub clerk: Clerk,
    pub used: usize,
    pub written: usize,
    pub short: bool,
}

// Whole lines: the clerk after them, with nothing kept.
#[derive(Clone, Copy)]
pub struct ClerkAfter {
    pub clerk: Clerk,
    pub written: usize,
    pub short: bool,
}

// Whether the fifth line of a block is ended.
fn ended(block: &[u8]) -> bool
    ensures { result ≡ block_ended block.now }
{
    let fifth = after_lines(block, 4);
    line_end(fifth) < fifth.len()
}

// The clerk at a table, with nothing kept.
fn clerk_after(table: Table, written: usize, short: bool) -> ClerkAfter
    ensures { result ≡ record { clerk = record { opened = true; shut = false; table = table; fill = fill_of nothing }; written = written; short = short } }
{
    let z = empty();
    ClerkAfter {
        clerk: Clerk {
            opened: true,
            shut: false,
            table,
            fill: z,
        },
        written,
        short,
    }
}

// One whole block in place: where none of its bytes were used up its answer had no room (code 12).
fn told(a: RanInPlace) -> ClerkAfter
    ensures { result ≡ record { clerk = record { opened = true; shut = false; table = a.table; fill = fill_of nothing }; written = a.written; short = eqb a.used 0 } }
{
    let u = a.table;
    clerk_after(u, a.written, a.used == 0)
}

// A block that the table answers. One that is not whole is malformed, as five empty lines are.
fn whole_block(t: Table, block: &[u8], out: &mut [u8]) -> ClerkAfter
    requires { Sound t }
    ensures gave { Gave t (lines_done (length out.old) (state_at true t) block.now) out.old out.new result.clerk result.written result.short }
    ensures held { Held result.clerk × (result.written ≤ length out.old) }
{
    if block.len() == 0 {
        return clerk_after(t, 0, false);
    }
    if ended(block) {
        let left = rest(block);
        let e = block.len() - left.len();
        return told(in_place(t, &block[0..e], out));
    }
    told(in_place(t, b"\n\n\n\n\n", out))
}

// The sheet: it opens the table, or is bad.
fn whole_sheet(t: Table, block: &[u8], out: &mut [u8]) -> ClerkAfter
    requires { Sound t }
    ensures gave { Gave t (lines_done (length out.old) (state_at false t) block.now) out.old out.new result.clerk result.written result.short }
    ensures held { Held result.clerk × (result.written ≤ length out.old) }
{
    let z = empty();
    match read_lone_sheet(block) {
        Err(_) => ClerkAfter {
            clerk: Clerk {
                opened: false,
                shut: true,
                table: t,
                fill: z,
            },
            written: refuse_sheet(out),
            short: false,
        },
        Ok(s) => ClerkAfter {
            clerk: Clerk {
                opened: true,
                shut: false,
                table: new_table(s),
                fill: z,
            },
            written: 0,
            short: false,
        },
    }
}

// Whole lines: the sheet, or a block that the table answers.
fn whole(opened: bool, t: Table, block: &[u8], out: &mut [u8]) -> ClerkAfter
    requires { Sound t }
    ensures gave { Gave t (lines_done (length out.old) (state_at opened t) block.now) out.old out.new result.clerk result.written result.short }
    ensures held { Held result.clerk × (result.written ≤ length out.old) }
{
    if opened {
        return whole_block(t, block, out);
    }
    whole_sheet(t, block, out)
}

// A part of the log by way of the buffer: its bytes are kept up to the end of the sheet or of a block, which is answered, or all of them.
fn feed_kept(opened: bool, t: Table, m: Fill, buf: &mut [u8], part: &[u8], out: &mut [u8]) -> Fed
    requires { Sound t × Room m × (m.lines < lines_of opened) × (kept_most ≤ length buf.old) }
    ensures fed { FedOn (length out.old) (record { opened = opened; shut = false; table = t; fill = m }) buf.old part.now out.old buf.new out.new result }
    ensures used { (result.used ≡ (gather_of (lines_of opened) (kept_in m buf.old) part.now).used) × (buf.new ≡ over (gather_of (lines_of opened) (kept_in m buf.old) part.now).kept.bytes buf.old) }
    ensures held { Held result.clerk × (result.used ≤ length part.now) × (0 < length part.now → 0 < result.used) × (result.written ≤ length out.old) }
{
    let want = lines_of(opened);
    let g = gather(buf, m, part, want);
    let k = g.fill;
    let n = k.lines;
    if n < want {
        let d = Clerk {
            opened: opened,
            shut: false,
            table: t,
            fill: k,
        };
        return Fed {
            clerk: d,
            used: g.used,
            written: 0,
            short: false,
        };
    }
    let e = k.count;
    let s = whole(opened, t, &buf[0..e], out);
    let d = s.clerk;
    Fed {
        clerk: d,
        used: g.used,
        written: s.written,
        short: s.short,
    }
}

// Whether the sheet was read and nothing of the next block is kept.
fn awaits_block(opened: bool, m: Fill) -> bool
    ensures { result ≡ awaits_block opened m }
{
    if m.lines == 0 {
        if m.width == 0 {
            return opened;
        }
    }
    false
}

// A part of the log where a block is awaited: the whole blocks at its front where they lie; where there is none with room for its answer, by way of the buffer.
fn feed_awaiting(t: Table, m: Fill, buf: &mut [u8], part: &[u8], out: &mut [u8]) -> Fed
    requires { Sound t × Room m × (awaits_block true m ≡ true) × (kept_most ≤ length buf.old) }
    ensures fed { FedOn (length out.old) (record { opened = true; shut = false; table = t; fill = m }) buf.old part.now out.old buf.new out.new result }
    ensures used { (result.used ≡ used_of (record { opened = true; shut = false; table = t; fill = m }) buf.old part.now (length out.old)) × (buf.new ≡ buffer_of (record { opened = true; shut = false; table = t; fill = m }) buf.old part.now (length out.old)) }
    ensures held { Held result.clerk × (result.used ≤ length part.now) × (0 < length part.now → 0 < result.used) × (result.written ≤ length out.old) }
{
    let a = in_place(t, part, out);
    if a.used == 0 {
        return feed_kept(true, t, m, buf, part, out);
    }
    let u = a.table;
    let z = empty();
    let d = Clerk {
        opened: true,
        shut: false,
        table: u,
        fill: z,
    };
    Fed {
        clerk: d,
        used: a.used,
        written: a.written,
        short: false,
    }
}

// A part of the log: where a block is awaited, the whole blocks at its front, answered where they lie; else its bytes up to the end of the
// sheet or of a block, which is answered, or all of them. A block whose answer has no room is used up where it is the first of a call; behind others it is left for
// the next call, where it is first.
pub fn feed(c: Clerk, buf: &mut [u8], part: &[u8], out: &mut [u8]) -> Fed
    requires { Held c × (kept_most ≤ length buf.old) }
    ensures fed { FedOn (length out.old) c buf.old part.now out.old buf.new out.new result }
    ensures used { (result.used ≡ used_of c buf.old part.now (length out.old)) × (buf.new ≡ buffer_of c buf.old part.now (length out.old)) }
    ensures held { Held result.clerk × (result.used ≤ length part.now) × (0 < length part.now → 0 < result.used) × (result.written ≤ length out.old) }
{
    if c.shut {
        return Fed {
            clerk: c,
            used: part.len(),
            written: 0,
            short: false,
        };
    }
    let t = c.table;
    let m = c.fill;
    if awaits_block(c.opened, m) {
        return feed_awaiting(t, m, buf, part, out);
    }
    feed_kept(c.opened, t, m, buf, part, out)
}

// A part of the log, block after block, until it is used up, or until there is less room than the longest answer takes.
pub fn feed_on(c: Clerk, buf: &mut [u8], part: &[u8], out: &mut [u8]) -> Fed
    requires { Held c × (kept_most ≤ length buf.old) }
    ensures fed { FedOn longest_answer c buf.old part.now out.old buf.new out.new result }
    ensures held { Held result.clerk × (result.used ≤ length part.now) × (result.written ≤ length out.old) }
    ensures far { (result.used < length part.now → length out.old < result.written + longest_answer) × (0 < length part.now → longest_answer ≤ length out.old → 0 < result.used) }
{
    let mut clerk = c;
    let mut used: usize = 0;
    let mut at: usize = 0;
    while used < part.len() && LONGEST <= out.len() - at {
        let f = feed(clerk, buf, &part[used..], &mut out[at..]);
        clerk = f.clerk;
        used += f.used;
        at += f.written;
    }
    Fed {
        clerk,
        used,
        written: at,
        short: false,
    }
}

// Before the first byte.
pub fn start() -> Clerk
    ensures { (result ≡ start_of) × Held result }
{
    let t = new_table(STAND_IN);
    let z = empty();
    Clerk {
        opened: false,
        shut: false,
        table: t,
        fill: z,
    }
}

// What the close has written, and whether the last answer had no room (code 12).
#[derive(Clone, Copy)]
pub struct Closed {
    pub written: usize,
    pub short: bool,
}

// The end of the log: a sheet that is not whole is bad, and a block that is not whole is malformed.
pub fn close(c: Clerk, buf: &[u8], out: &mut [u8]) -> Closed
    requires { Held c × (kept_most ≤ length buf.now) }
    ensures bytes { Wrote (closing (length out.old) (state_of c) (kept_by c buf.now)).bytes out.old out.new result.written }
    ensures short { result.short ≡ any_short (closing (length out.old) (state_of c) (kept_by c buf.now)).codes }
    ensures within { result.written ≤ length out.old }
{
    if c.shut {
        return Closed {
            written: 0,
            short: false,
        };
    }
    let m = c.fill;
    let e = m.count;
    if c.opened {
        if e == 0 {
            return Closed {
                written: 0,
                short: false,
            };
        }
        let t = c.table;
        let a = whole_block(t, &buf[0..e], out);
        return Closed {
            written: a.written,
            short: a.short,
        };
    }
    Closed {
        written: refuse_sheet(out),
        short: false,
    }
}
