// A log copied fair, block by block: an entry in range as it is written, and a line about a block that is left out.
ghost use Rattle.std.specs.Prelude.{◌≡◌, ◌≤◌, ◌<◌, ◌^◌, length};
ghost use Rattle.paper.specs.Paper.{is_sheet};
ghost use Rattle.writing.specs.AnswerSheet.{Wrote, sheet_after};
ghost use Rattle.logs.specs.LogText.{sheet_text, put_of, put_after};
ghost use Rattle.logs.specs.FairCopy.{entry_copy, block_copy, note_text, note_in, next_number, copied_as, left_as, entry_copied, copied_of};

use crate::{write_entry, write_sheet};
use blocks::{Block, entry_of, read_block};
use laws::least;
use paper::{Entry, MALFORMED, OUT_OF_RANGE, Refusal, Sheet, TAKEN};
use writing::{put_bytes, put_digits, write_number_line};

// No line about a block that is left out is longer.
pub const NOTE: usize = 31;

// A block's code, 0 where it was copied, and how many bytes were written.
#[derive(Clone, Copy)]
pub struct Copied {
    pub code: u8,
    pub written: usize,
}

fn left_out(code: u8) -> Copied
    ensures { result ≡ left_as code }
{
    Copied { code, written: 0 }
}

fn told(p: Result<usize, Refusal>) -> Copied
    ensures { result ≡ copied_as p }
{
    match p {
        Ok(k) => Copied {
            code: TAKEN,
            written: k,
        },
        Err(why) => left_out(why.number()),
    }
}

fn copy_entry(sheet: Sheet, n: u32, p: Result<Entry, Refusal>, buffer: &mut [u8]) -> Copied
    ensures answer { result ≡ entry_copied sheet n p buffer.old }
    ensures bytes { buffer.new ≡ sheet_after (entry_copy sheet n p) buffer.old }
{
    match p {
        Err(_) => left_out(OUT_OF_RANGE),
        Ok(e) => told(write_entry(sheet, n, e, buffer)),
    }
}

// A sheet, written at the front of the buffer where it is a good one.
pub fn copy_sheet(s: Sheet, buffer: &mut [u8]) -> Copied
    ensures answer { result ≡ copied_as (put_of (is_sheet s) (sheet_text s) buffer.old) }
    ensures bytes { buffer.new ≡ put_after (is_sheet s) (sheet_text s) buffer.old }
    ensures within { result.written ≤ length buffer.old }
{
    told(write_sheet(s, buffer))
}

// The block at the front of a log, written back at the front of the buffer where it is an entry in range.
pub fn copy_block(sheet: Sheet, log: &[u8], buffer: &mut [u8]) -> Copied
    ensures answer { result ≡ copied_of sheet log.now buffer.old }
    ensures bytes { buffer.new ≡ sheet_after (block_copy sheet log.now) buffer.old }
    ensures within { result.written ≤ length buffer.old }
{
    match read_block(log) {
        Block::Raw {
            n,
            kind,
            seat,
            a,
            b,
        } => {
            let p = entry_of(kind, seat, a, b);
            copy_entry(sheet, n, p, buffer)
        }
        Block::Malformed => left_out(MALFORMED),
        Block::Nothing => left_out(MALFORMED),
    }
}

// The number of the block behind the first `count`.
pub fn next_number(count: u32) -> u32
    ensures { (result ≡ next_number count) × (result < 10 ^ 9) }
{
    least(count, 999999998) + 1
}

// The line about a block that is left out.
fn put_note(buffer: &mut [u8], number: u32, code: u32) -> usize
    requires { (number < 10 ^ 9) × (code < 10 ^ 9) × (length (note_text number code) ≤ length buffer.old) }
    ensures { Wrote (note_text number code) buffer.old buffer.new result }
{
    let a = put_bytes(buffer, b"block=");
    let b = a + put_digits(&mut buffer[a..], number);
    b + write_number_line(&mut buffer[b..], b" code", code)
}

// The line about a block that is left out, at the front of a buffer that has room for any such line.
pub fn write_note(number: u32, code: u8, buffer: &mut [u8]) -> usize
    requires { number < 10 ^ 9 }
    ensures bytes { Wrote (note_in number code (length buffer.old)) buffer.old buffer.new result }
    ensures within { result ≤ length buffer.old }
{
    if code == TAKEN {
        return 0;
    }
    if buffer.len() < NOTE {
        return 0;
    }
    put_note(buffer, number, u32::from(code))
}
