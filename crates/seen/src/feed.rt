// The log as it arrives, up to the end of the sheet or of a block: then something new is known.
ghost use Rattle.std.specs.Prelude.{◌≡◌, true, ◌≤◌, ◌<◌, length};
ghost use Rattle.paper.specs.Paper.{is_sheet};
ghost use Rattle.lines.specs.Kept.{kept_most};
ghost use Rattle.seen.specs.Seen.{Held, after_block, shut_of, laid_of, after_sheet, after_lines, kept_on, seen_start, fed_of, buffer_of, closed_to, ends_open};

use crate::told;
use crate::told::Told;
use blocks::read_block;
use desk::judge;
use desk::log::read_lone_sheet;
use lines::{Fill, empty, gather, lines_of};
use paper::{BAD_SHEET, STAND_IN, Sheet};
use table::table::Table;
use table::take::new_table;

// Whether the sheet was read, whether it is bad, the table, what is kept of unfinished lines, and what was told.
#[derive(Clone, Copy)]
pub struct Seen {
    pub opened: bool,
    pub shut: bool,
    pub table: Table,
    pub fill: Fill,
    pub told: Told,
}

// How much of a part was used up, and whether something new is known: a sheet or a block has ended in it.
#[derive(Clone, Copy)]
pub struct Fed {
    pub seen: Seen,
    pub used: usize,
    pub fresh: bool,
}

// Before the first byte.
pub fn start() -> Seen
    ensures { (result ≡ seen_start) × Held result }
{
    let t = new_table(STAND_IN);
    let z = empty();
    let o = told::start(0);
    Seen {
        opened: false,
        shut: false,
        table: t,
        fill: z,
        told: o,
    }
}

// After a block.
fn after_block(s: Seen, block: &[u8]) -> Seen
    requires { Held s }
    ensures { (result ≡ after_block s block.now) × Held result }
{
    let t = s.table;
    let j = judge(t, block);
    let o = s.told;
    let p = told::after(o, read_block(block), j);
    let u = j.table;
    let z = empty();
    Seen {
        opened: true,
        shut: false,
        table: u,
        fill: z,
        told: p,
    }
}

// A sheet that is bad.
fn bad_sheet(s: Seen) -> Seen
    requires { Held s }
    ensures { (result ≡ shut_of s) × Held result }
{
    let t = s.table;
    let z = empty();
    let o = told::start(BAD_SHEET);
    Seen {
        opened: false,
        shut: true,
        table: t,
        fill: z,
        told: o,
    }
}

// A good sheet: the table is laid.
fn good_sheet(sheet: Sheet) -> Seen
    requires { is_sheet sheet ≡ true }
    ensures { (result ≡ laid_of sheet) × Held result }
{
    let t = new_table(sheet);
    let z = empty();
    let o = told::start(0);
    Seen {
        opened: true,
        shut: false,
        table: t,
        fill: z,
        told: o,
    }
}

// After the sheet: the table is laid, or the sheet is bad and all that follows it is passed over.
fn after_sheet(s: Seen, block: &[u8]) -> Seen
    requires { Held s }
    ensures { (result ≡ after_sheet s block.now) × Held result }
{
    match read_lone_sheet(block) {
        Err(_) => bad_sheet(s),
        Ok(sheet) => good_sheet(sheet),
    }
}

// After whole lines: the sheet's, or a block's.
fn after_lines(s: Seen, block: &[u8]) -> Seen
    requires { Held s }
    ensures { (result ≡ after_lines s block.now) × Held result }
{
    if s.opened {
        return after_block(s, block);
    }
    after_sheet(s, block)
}

// The same with other lines kept.
fn keeping(s: Seen, m: Fill) -> Seen
    ensures { result ≡ kept_on s m }
{
    let mut u = s;
    u.fill = m;
    u
}

// A part of the log up to the end of the sheet or of a block, or all of it. After a bad sheet all of it is passed over.
pub fn feed(s: Seen, buf: &mut [u8], part: &[u8]) -> Fed
    requires { Held s × (kept_most ≤ length buf.old) }
    ensures fed { (result ≡ fed_of s buf.old part.now) × (buf.new ≡ buffer_of s buf.old part.now) }
    ensures held { Held result.seen × (result.used ≤ length part.now) × (0 < length part.now → 0 < result.used) }
{
    if s.shut {
        return Fed {
            seen: s,
            used: part.len(),
            fresh: false,
        };
    }
    let want = lines_of(s.opened);
    let g = gather(buf, s.fill, part, want);
    let k = g.fill;
    if k.lines < want {
        return Fed {
            seen: keeping(s, k),
            used: g.used,
            fresh: false,
        };
    }
    let e = k.count;
    Fed {
        seen: after_lines(s, &buf[0..e]),
        used: g.used,
        fresh: true,
    }
}

// The end of the log: a sheet that is not whole is bad, and a block that is not whole is malformed.
pub fn close(s: Seen, buf: &[u8]) -> Seen
    requires { Held s × (kept_most ≤ length buf.now) }
    ensures { (result ≡ closed_to s buf.now) × Held result }
{
    if s.shut {
        return s;
    }
    let m = s.fill;
    let e = m.count;
    if s.opened {
        if e == 0 {
            return s;
        }
        return after_block(s, &buf[0..e]);
    }
    bad_sheet(s)
}

// Whether the end of the log is worth a picture: where it ends inside a hand, a block or the sheet.
pub fn ends_open(s: Seen) -> bool
    ensures { result ≡ ends_open s }
{
    if s.shut {
        return false;
    }
    let t = s.table;
    let whole = laws::both(s.opened, s.fill.count == 0);
    laws::either(!whole, t.play.opened)
}
