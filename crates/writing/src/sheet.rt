// The table sheet's lines, by the table that reads them.
ghost use Rattle.std.specs.Prelude.{◌≡◌, [], ◌≤◌, ◌<◌, ◌^◌, length, get_or};
ghost use Rattle.text.specs.Line.{number_line};
ghost use Rattle.text.specs.TableSheet.{sheet_lines, sheet_keys};
ghost use Rattle.writing.specs.AnswerSheet.{Wrote};

use crate::decimal::digit_count;
use crate::writer::write_number_line;
use text::sheet::KEYS;

// How long the sheet's k-th line is with the number n.
pub fn line_len(k: usize, n: u32) -> usize
    requires { k < sheet_lines }
    ensures { (result ≡ length (number_line (get_or sheet_keys k []) n)) × (result ≤ 16) }
{
    let key = KEYS[k];
    key.letters + digit_count(n) + 2
}

// The sheet's k-th line with the number n and its LF at the front of the buffer.
pub fn put_line(buffer: &mut [u8], k: usize, n: u32) -> usize
    requires { (k < sheet_lines) × (n < 10 ^ 9) × (length (number_line (get_or sheet_keys k []) n) ≤ length buffer.old) }
    ensures { Wrote (number_line (get_or sheet_keys k []) n) buffer.old buffer.new result }
{
    let key = KEYS[k];
    let bytes = key.bytes;
    let letters = key.letters;
    write_number_line(buffer, &bytes[0..letters], n)
}
