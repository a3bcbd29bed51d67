// A log copied fair as it comes in parts: the unfinished sheet or block is kept, each line cut after 33 bytes, and copied or noted as left out at its last LF.
#![tactic(auto)]

ghost use Rattle.std.specs.Prelude.{◌≡◌, false, ◌⊎◌, ◌+◌, ◌≤◌, ◌<◌, length};
ghost use Rattle.writing.specs.AnswerSheet.{Wrote};
ghost use Rattle.text.specs.Codes.{eleven};
ghost use Rattle.lines.specs.Kept.{nothing, fill_of, kept_most};
ghost use Rattle.logs.specs.FairCopy.{note_most};
ghost use Rattle.copier.specs.Onward.{Unread, Open, Shut, lines_done, closing};
ghost use Rattle.copier.specs.Feeding.{state_at, state_of, kept_by, copier_in, Held, start_of, Gave, FedOn, used_of, buffer_of};

use lines::{Fill, empty, gather, lines_of};
use logs::copy::{NOTE, copy_block, copy_sheet, next_number, write_note};
use paper::{STAND_IN, Sheet};
use text::sheet::{ROOM, read_sheet};
use writing::put_bytes;

// The copier between two bytes: whether the sheet was read, whether it was bad, the sheet, how many blocks were read, and what is kept.
#[derive(Clone, Copy)]
pub struct Copier {
    pub opened: bool,
    pub shut: bool,
    pub sheet: Sheet,
    pub count: u32,
    pub fill: Fill,
}

// The copier after a part of the log, how many of its bytes are used up, and how many bytes of the copy and of the notes are written.
#[derive(Clone, Copy)]
pub struct Fed {
    pub copier: Copier,
    pub used: usize,
    pub written: usize,
    pub noted: usize,
}

// Whole lines: the copier after them, with nothing kept.
#[derive(Clone, Copy)]
pub struct CopierAfter {
    pub copier: Copier,
    pub written: usize,
    pub noted: usize,
}

// Before the first byte: the sheet is a stand-in until it is read.
pub fn start() -> Copier
    ensures { (result ≡ start_of) × Held result }
{
    let s = STAND_IN;
    let z = empty();
    Copier {
        opened: false,
        shut: false,
        sheet: s,
        count: 0,
        fill: z,
    }
}

// Behind the sheet or a block, with nothing kept.
fn behind(s: Sheet, count: u32) -> Copier
    ensures { (result ≡ copier_in (Open s count) (fill_of nothing)) × Held result }
{
    let z = empty();
    Copier {
        opened: true,
        shut: false,
        sheet: s,
        count,
        fill: z,
    }
}

// Behind a bad sheet.
fn closed_down() -> Copier
    ensures { (result ≡ copier_in Shut (fill_of nothing)) × Held result }
{
    let s = STAND_IN;
    let z = empty();
    Copier {
        opened: false,
        shut: true,
        sheet: s,
        count: 0,
        fill: z,
    }
}

// The one line about a bad sheet.
fn note_bad(notes: &mut [u8]) -> usize
    requires { note_most ≤ length notes.old }
    ensures { Wrote eleven notes.old notes.new result }
{
    put_bytes(notes, b"code=11\n")
}

// A block behind the first `count`.
fn whole_block(s: Sheet, count: u32, block: &[u8], copy: &mut [u8], notes: &mut [u8]) -> CopierAfter
    requires { (length block.now ≤ length copy.old) × (note_most ≤ length notes.old) }
    ensures gave { Gave (lines_done (Open s count) block.now) copy.old notes.old copy.new notes.new result.copier result.written result.noted }
    ensures held { Held result.copier × (result.written ≤ length copy.old) × (result.noted ≤ length notes.old) }
{
    let n = next_number(count);
    let k = copy_block(s, block, copy);
    let noted = write_note(n, k.code, notes);
    let d = behind(s, n);
    CopierAfter {
        copier: d,
        written: k.written,
        noted,
    }
}

// The sheet: it is copied, or is bad, and nothing will be copied.
fn whole_sheet(block: &[u8], copy: &mut [u8], notes: &mut [u8]) -> CopierAfter
    requires { (length block.now ≤ length copy.old) × (note_most ≤ length notes.old) }
    ensures gave { Gave (lines_done Unread block.now) copy.old notes.old copy.new notes.new result.copier result.written result.noted }
    ensures held { Held result.copier × (result.written ≤ length copy.old) × (result.noted ≤ length notes.old) }
{
    match read_sheet(block) {
        Err(_) => {
            let d = closed_down();
            CopierAfter {
                copier: d,
                written: 0,
                noted: note_bad(notes),
            }
        }
        Ok(s) => {
            let k = copy_sheet(s, copy);
            let d = behind(s, 0);
            CopierAfter {
                copier: d,
                written: k.written,
                noted: 0,
            }
        }
    }
}

// Whole lines: the sheet, or a block.
fn whole(
    opened: bool,
    s: Sheet,
    count: u32,
    block: &[u8],
    copy: &mut [u8],
    notes: &mut [u8],
) -> CopierAfter
    requires { (length block.now ≤ length copy.old) × (note_most ≤ length notes.old) }
    ensures gave { Gave (lines_done (state_at opened s count) block.now) copy.old notes.old copy.new notes.new result.copier result.written result.noted }
    ensures held { Held result.copier × (result.written ≤ length copy.old) × (result.noted ≤ length notes.old) }
{
    if opened {
        return whole_block(s, count, block, copy, notes);
    }
    whole_sheet(block, copy, notes)
}

// A part of the log while the sheet is not bad: its bytes are kept up to the end of the sheet or of a block, or all of them.
fn feed_kept(
    opened: bool,
    s: Sheet,
    count: u32,
    m: Fill,
    buf: &mut [u8],
    part: &[u8],
    copy: &mut [u8],
    notes: &mut [u8],
) -> Fed
    requires { Held (record { opened = opened; shut = false; sheet = s; count = count; fill = m }) × (kept_most ≤ length buf.old) × (kept_most ≤ length copy.old) × (note_most ≤ length notes.old) }
    ensures fed { FedOn (record { opened = opened; shut = false; sheet = s; count = count; fill = m }) buf.old part.now copy.old notes.old buf.new copy.new notes.new result }
    ensures used { (result.used ≡ used_of (record { opened = opened; shut = false; sheet = s; count = count; fill = m }) buf.old part.now) × (buf.new ≡ buffer_of (record { opened = opened; shut = false; sheet = s; count = count; fill = m }) buf.old part.now) }
    ensures held { Held result.copier × (result.used ≤ length part.now) × (0 < length part.now → 0 < result.used) × (result.written ≤ length copy.old) × (result.noted ≤ length notes.old) }
{
    let want = lines_of(opened);
    let g = gather(buf, m, part, want);
    let k = g.fill;
    let n = k.lines;
    if n < want {
        let d = Copier {
            opened: opened,
            shut: false,
            sheet: s,
            count: count,
            fill: k,
        };
        return Fed {
            copier: d,
            used: g.used,
            written: 0,
            noted: 0,
        };
    }
    let e = k.count;
    let t = whole(opened, s, count, &buf[0..e], copy, notes);
    let d = t.copier;
    Fed {
        copier: d,
        used: g.used,
        written: t.written,
        noted: t.noted,
    }
}

// A part of the log: its bytes up to the end of the sheet or of a block, which is copied or noted as left out, or all of them; behind a bad sheet all of them.
pub fn feed(c: Copier, buf: &mut [u8], part: &[u8], copy: &mut [u8], notes: &mut [u8]) -> Fed
    requires { Held c × (kept_most ≤ length buf.old) × (kept_most ≤ length copy.old) × (note_most ≤ length notes.old) }
    ensures fed { FedOn c buf.old part.now copy.old notes.old buf.new copy.new notes.new result }
    ensures used { (result.used ≡ used_of c buf.old part.now) × (buf.new ≡ buffer_of c buf.old part.now) }
    ensures held { Held result.copier × (result.used ≤ length part.now) × (0 < length part.now → 0 < result.used) × (result.written ≤ length copy.old) × (result.noted ≤ length notes.old) }
{
    if c.shut {
        return Fed {
            copier: c,
            used: part.len(),
            written: 0,
            noted: 0,
        };
    }
    let s = c.sheet;
    let m = c.fill;
    feed_kept(c.opened, s, c.count, m, buf, part, copy, notes)
}

// A part of the log, block after block, until it is used up, or until there is less room than a copy or a note may take.
pub fn copy_on(c: Copier, buf: &mut [u8], part: &[u8], copy: &mut [u8], notes: &mut [u8]) -> Fed
    requires { Held c × (kept_most ≤ length buf.old) }
    ensures fed { FedOn c buf.old part.now copy.old notes.old buf.new copy.new notes.new result }
    ensures held { Held result.copier × (result.used ≤ length part.now) × (result.written ≤ length copy.old) × (result.noted ≤ length notes.old) }
    ensures far { (result.used < length part.now → (length copy.old < result.written + kept_most) ⊎ (length notes.old < result.noted + note_most)) × (0 < length part.now → kept_most ≤ length copy.old → note_most ≤ length notes.old → 0 < result.used) }
{
    let mut copier = c;
    let mut used: usize = 0;
    let mut at: usize = 0;
    let mut said: usize = 0;
    while used < part.len() && ROOM <= copy.len() - at && NOTE <= notes.len() - said {
        let f = feed(
            copier,
            buf,
            &part[used..],
            &mut copy[at..],
            &mut notes[said..],
        );
        copier = f.copier;
        used += f.used;
        at += f.written;
        said += f.noted;
    }
    Fed {
        copier,
        used,
        written: at,
        noted: said,
    }
}

// What the close has written of the copy and of the notes.
#[derive(Clone, Copy)]
pub struct Closed {
    pub written: usize,
    pub noted: usize,
}

// The end of the log: a sheet that is not whole is bad, and a block that is not whole is left out.
pub fn close(c: Copier, buf: &[u8], copy: &mut [u8], notes: &mut [u8]) -> Closed
    requires { Held c × (kept_most ≤ length buf.now) × (kept_most ≤ length copy.old) × (note_most ≤ length notes.old) }
    ensures copied { Wrote (closing (state_of c) (kept_by c buf.now)).copy copy.old copy.new result.written }
    ensures said { Wrote (closing (state_of c) (kept_by c buf.now)).notes notes.old notes.new result.noted }
    ensures within { (result.written ≤ length copy.old) × (result.noted ≤ length notes.old) }
{
    if c.shut {
        return Closed {
            written: 0,
            noted: 0,
        };
    }
    let m = c.fill;
    let e = m.count;
    if c.opened {
        if e == 0 {
            return Closed {
                written: 0,
                noted: 0,
            };
        }
        let s = c.sheet;
        let t = whole_block(s, c.count, &buf[0..e], copy, notes);
        return Closed {
            written: t.written,
            noted: t.noted,
        };
    }
    Closed {
        written: 0,
        noted: note_bad(notes),
    }
}
