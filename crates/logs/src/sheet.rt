// The table sheet, line after line by text's table of sheet lines.
ghost use Rattle.std.specs.Prelude.{◌≡◌, true, ◌≤◌, length};
ghost use Rattle.paper.specs.Paper.{sheet_values, is_sheet};
ghost use Rattle.writing.specs.AnswerSheet.{Wrote};
ghost use Rattle.logs.specs.LogText.{sheet_text, put_of, put_after};

use paper::{Refusal, Sheet, is_sheet};
use text::sheet::LINES;
use writing::sheet::{line_len, put_line};

// A sheet's numbers in the order of its lines.
fn values_of(s: Sheet) -> [u32; LINES]
    ensures { result ≡ sheet_values s }
{
    [
        s.seats, s.small, s.big, s.rate, s.cap, s.step, s.game, s.deck, s.drop,
    ]
}

// How long a good sheet is.
fn sheet_len(s: Sheet) -> usize
    requires { is_sheet s ≡ true }
    ensures { result ≡ length (sheet_text s) }
{
    let values = values_of(s);
    let mut at: usize = 0;
    for (k, n) in values.iter().enumerate() {
        at += line_len(k, *n);
    }
    at
}

// A good sheet, each line behind the last.
fn put_sheet(s: Sheet, buffer: &mut [u8]) -> usize
    requires { (is_sheet s ≡ true) × (length (sheet_text s) ≤ length buffer.old) }
    ensures { Wrote (sheet_text s) buffer.old buffer.new result }
{
    let values = values_of(s);
    let mut at: usize = 0;
    for (k, n) in values.iter().enumerate() {
        at += put_line(&mut buffer[at..], k, *n);
    }
    at
}

// The sheet at the front of the buffer; or nothing, where a number is outside its range or the buffer is too short.
pub fn write_sheet(s: Sheet, buffer: &mut [u8]) -> Result<usize, Refusal>
    ensures answer { result ≡ put_of (is_sheet s) (sheet_text s) buffer.old }
    ensures bytes { buffer.new ≡ put_after (is_sheet s) (sheet_text s) buffer.old }
{
    if is_sheet(s) {
        if buffer.len() < sheet_len(s) {
            return Err(Refusal::NoRoom);
        }
        return Ok(put_sheet(s, buffer));
    }
    Err(Refusal::OutOfRange)
}
