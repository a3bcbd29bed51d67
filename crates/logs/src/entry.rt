// An entry with its n: five lines, of which the kind's stands in a table.
ghost use Rattle.std.specs.Prelude.{◌≡◌, [], ◌≤◌, ◌<◌, length, get_or};
ghost use Rattle.paper.specs.SheetAndEntries.{kind_names};
ghost use Rattle.writing.specs.AnswerSheet.{Wrote};
ghost use Rattle.logs.specs.LogText.{word_line, block_text, entry_text, is_entry, put_of, put_after, SmallEntry};

use laws::both;
use paper::{Entry, Numbers, Refusal, Sheet, in_range, is_sheet, numbers_of};
use writing::{digit_count, put_bytes, write_number_line};

// A kind's line with its LF, and how many bytes it has.
#[derive(Clone, Copy)]
struct KindLine {
    line: [u8; 10],
    bytes: usize,
}

// The twelve kinds in the order of the paper's table.
const KINDS: [KindLine; 12] = [
    KindLine {
        line: *b"do=sit\n   ",
        bytes: 7,
    },
    KindLine {
        line: *b"do=leave\n ",
        bytes: 9,
    },
    KindLine {
        line: *b"do=hand\n  ",
        bytes: 8,
    },
    KindLine {
        line: *b"do=hole\n  ",
        bytes: 8,
    },
    KindLine {
        line: *b"do=fold\n  ",
        bytes: 8,
    },
    KindLine {
        line: *b"do=check\n ",
        bytes: 9,
    },
    KindLine {
        line: *b"do=call\n  ",
        bytes: 8,
    },
    KindLine {
        line: *b"do=wager\n ",
        bytes: 9,
    },
    KindLine {
        line: *b"do=board\n ",
        bytes: 9,
    },
    KindLine {
        line: *b"do=dead\n  ",
        bytes: 8,
    },
    KindLine {
        line: *b"do=settle\n",
        bytes: 10,
    },
    KindLine {
        line: *b"do=void\n  ",
        bytes: 8,
    },
];

// How long the five lines of a block's numbers are.
fn block_len(n: u32, x: Numbers) -> usize
    requires { SmallEntry n x }
    ensures { result ≡ length (block_text n x) }
{
    let k = x.kind as usize;
    let row = KINDS[k];
    // the four keys n, seat, a and b, and `=` and LF for each
    let keys: usize = 15;
    keys + row.bytes + digit_count(n) + digit_count(x.seat) + digit_count(x.a) + digit_count(x.b)
}

// The line of the k-th kind.
fn put_kind(buffer: &mut [u8], k: usize) -> usize
    requires { (k < 12) × (length (word_line (get_or kind_names k [])) ≤ length buffer.old) }
    ensures { Wrote (word_line (get_or kind_names k [])) buffer.old buffer.new result }
{
    let row = KINDS[k];
    let line = row.line;
    let e = row.bytes;
    put_bytes(buffer, &line[0..e])
}

// The five lines of a block's numbers, each behind the last.
fn put_block(buffer: &mut [u8], n: u32, x: Numbers) -> usize
    requires { SmallEntry n x × (length (block_text n x) ≤ length buffer.old) }
    ensures { Wrote (block_text n x) buffer.old buffer.new result }
{
    let a = write_number_line(buffer, b"n", n);
    let k = x.kind as usize;
    let b = a + put_kind(&mut buffer[a..], k);
    let c = b + write_number_line(&mut buffer[b..], b"seat", x.seat);
    let d = c + write_number_line(&mut buffer[c..], b"a", x.a);
    d + write_number_line(&mut buffer[d..], b"b", x.b)
}

// The entry and its n at the front of the buffer; or nothing, where a number is outside its range, the seat read against the sheet, or the buffer is too
// short.
pub fn write_entry(sheet: Sheet, n: u32, e: Entry, buffer: &mut [u8]) -> Result<usize, Refusal>
    ensures answer { result ≡ put_of (is_entry sheet n e) (entry_text n e) buffer.old }
    ensures bytes { buffer.new ≡ put_after (is_entry sheet n e) (entry_text n e) buffer.old }
{
    if both(is_sheet(sheet), in_range(sheet, n, e)) {
        let x = numbers_of(e);
        if buffer.len() < block_len(n, x) {
            return Err(Refusal::NoRoom);
        }
        return Ok(put_block(buffer, n, x));
    }
    Err(Refusal::OutOfRange)
}
