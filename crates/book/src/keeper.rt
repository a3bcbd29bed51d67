// The book as its input arrives: the unfinished sheet or block is kept, and each is taken at its last LF; a block that lies whole in a part is taken where it lies.
ghost use Rattle.std.specs.Prelude.{◌≡◌, ◌≤◌, ◌<◌, ◌^◌, length};
ghost use Rattle.blocks.specs.Block.{block_of};
ghost use Rattle.lines.specs.Kept.{kept_most};
ghost use Rattle.ledger.specs.Keeping.{Held};
ghost use Rattle.book.specs.Ready.{Ready};

use blocks::{Block, read_block, read_front};
use desk::log::lone;
use laws::both;
use ledger::{Book, answer, opened};
use lines::{Fill, empty, gather, lines_of};
use logs::copy::{next_number, write_note};
use paper::{STAND_IN, Sheet};
use text::sheet::read_sheet;

// The book between two bytes: whether the log is asked for in place of the answers, whether the sheet was read, whether to go on, the sheet, the book, how
// many blocks were read, what is kept of the unfinished lines, and how many bytes the last step used up and wrote.
// One struct goes from step to step: a struct in another, taken out and put back at each step, made the check longer (docs/BENCHMARKS.md).
#[derive(Clone, Copy)]
pub struct Keeper {
    pub as_log: bool,
    pub opened: bool,
    pub more: bool,
    pub sheet: Sheet,
    pub book: Book,
    pub count: u32,
    pub fill: Fill,
    pub used: usize,
    pub written: usize,
}

// Before the first byte.
pub fn start(as_log: bool) -> Keeper
    ensures { Ready result }
{
    let s = STAND_IN;
    let b = opened(s);
    let z = empty();
    Keeper {
        as_log,
        opened: false,
        more: true,
        sheet: s,
        book: b,
        count: 0,
        fill: z,
        used: 0,
        written: 0,
    }
}

// The sheet: it opens the book, whose table shares no pool and drops nothing, or is bad and ends it.
fn take_sheet(mut k: Keeper, lines: &[u8]) -> Keeper
    requires { Held k.book }
    ensures { Ready result × (result.used ≡ k.used) × (result.written ≡ 0) }
{
    let z = empty();
    k.fill = z;
    k.written = 0;
    match read_sheet(lines) {
        Err(_) => {
            k.more = false;
            k
        }
        Ok(s) => {
            let b = opened(lone(s));
            k.opened = true;
            k.sheet = s;
            k.book = b;
            k
        }
    }
}

// What is said about a block that was answered: its answer, which has been written; or, where the log is asked for, a line in its place where it was refused.
fn said(as_log: bool, number: u32, code: u8, written: usize, out: &mut [u8]) -> usize
    requires { (number < 10 ^ 9) × (written ≤ length out.old) }
    ensures { result ≤ length out.old }
{
    if as_log {
        return write_note(number, code, out);
    }
    written
}

// The block at the front of some lines, or what is left of one at the end of the input.
fn take_block(
    mut k: Keeper,
    lines: &[u8],
    block: Block,
    log: &mut [u8],
    index: &mut [u8],
    out: &mut [u8],
) -> Keeper
    requires { Held k.book × (block ≡ block_of lines.now) }
    ensures { Ready result × (result.used ≡ k.used) × (result.written ≤ length out.old) }
{
    let b = k.book;
    let a = answer(b, false, lines, block, log, index, out);
    let c = a.book;
    let z = empty();
    k.book = c;
    k.fill = z;
    k.count = next_number(k.count);
    k.written = said(k.as_log, k.count, a.code, a.written, out);
    k
}

// Whole lines, or what is left of a block at the end of the input: the sheet, or a block.
pub fn take_lines(
    k: Keeper,
    lines: &[u8],
    log: &mut [u8],
    index: &mut [u8],
    out: &mut [u8],
) -> Keeper
    requires { Held k.book }
    ensures { Ready result × (result.used ≡ k.used) × (result.written ≤ length out.old) }
{
    if k.opened {
        return take_block(k, lines, read_block(lines), log, index, out);
    }
    take_sheet(k, lines)
}

// The bytes of a part up to the end of the sheet or of a block, by way of the buffer, or all of the part, which is kept.
fn take_kept(
    mut k: Keeper,
    buf: &mut [u8],
    log: &mut [u8],
    index: &mut [u8],
    part: &[u8],
    out: &mut [u8],
) -> Keeper
    requires { Ready k × (kept_most ≤ length buf.old) × (0 < length part.now) }
    ensures { Ready result × (0 < result.used) × (result.used ≤ length part.now) × (result.written ≤ length out.old) }
{
    let want = lines_of(k.opened);
    let m = k.fill;
    let g = gather(buf, m, part, want);
    let kept = g.fill;
    k.fill = kept;
    k.used = g.used;
    k.written = 0;
    if kept.lines < want {
        return k;
    }
    let e = kept.count;
    take_lines(k, &buf[0..e], log, index, out)
}

// Whether the sheet was read and nothing of the next block is kept.
fn awaits_block(k: Keeper) -> bool {
    both(k.opened, k.fill.count == 0)
}

// What comes next of a part: where a block is awaited and lies whole at its front, that block where it lies; else by way of the buffer.
pub fn take_one(
    mut k: Keeper,
    buf: &mut [u8],
    log: &mut [u8],
    index: &mut [u8],
    part: &[u8],
    out: &mut [u8],
) -> Keeper
    requires { Ready k × (kept_most ≤ length buf.old) × (0 < length part.now) }
    ensures { Ready result × (0 < result.used) × (result.used ≤ length part.now) × (result.written ≤ length out.old) }
{
    if awaits_block(k) {
        let f = read_front(part);
        if f.whole {
            let b = f.block;
            k.used = f.used;
            return take_block(k, part, b, log, index, out);
        }
    }
    take_kept(k, buf, log, index, part, out)
}
