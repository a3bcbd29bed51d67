// Lines written at the front of a lent sheet: each writer is lent the part that starts where the last one ended.
ghost use Rattle.std.specs.Prelude.{[], ◌∷◌, ◌++◌, ◌≤◌, ◌<◌, ◌^◌, length};
ghost use Rattle.text.specs.Line.{number_line};
ghost use Rattle.text.specs.Number.{digits};
ghost use Rattle.writing.specs.AnswerSheet.{Wrote};
ghost use Rattle.writing.specs.Nine.{nine_line};

use crate::decimal::{few_count, few_first, put_digits, put_nine, put_one, put_pair};

// One byte at the front of the sheet.
fn put_byte(sheet: &mut [u8], b: u8) -> usize
    requires { 1 ≤ length sheet.old }
    ensures { Wrote (b ∷ []) sheet.old sheet.new result }
{
    sheet[0] = b;
    1
}

// The bytes of `bytes` at the front of the sheet.
pub fn put_bytes(sheet: &mut [u8], bytes: &[u8]) -> usize
    requires { length bytes.now ≤ length sheet.old }
    ensures { Wrote bytes.now sheet.old sheet.new result }
{
    let n = bytes.len();
    sheet[..n].copy_from_slice(bytes);
    n
}

// What a line begins with: `key=` at the front of the sheet.
fn put_key(sheet: &mut [u8], key: &[u8]) -> usize
    requires { length key.now < length sheet.old }
    ensures { Wrote (key.now ++ (61 ∷ [])) sheet.old sheet.new result }
{
    let a = put_bytes(sheet, key);
    a + put_byte(&mut sheet[a..], b'=')
}

// The line `key=n` with its LF at the front of the sheet.
pub fn write_number_line(sheet: &mut [u8], key: &[u8], n: u32) -> usize
    requires { (n < 10 ^ 9) × (length (number_line key.now n) ≤ length sheet.old) }
    ensures { Wrote (number_line key.now n) sheet.old sheet.new result }
{
    let a = put_key(sheet, key);
    a + put_end(&mut sheet[a..], n)
}

// The end of a line: the digits of n and the LF. One digit or two, as most numbers of an answer have, go without a call and to places that are known beforehand.
fn put_end(sheet: &mut [u8], n: u32) -> usize
    requires { (n < 10 ^ 9) × (length (digits n) < length sheet.old) }
    ensures { Wrote (digits n ++ (10 ∷ [])) sheet.old sheet.new result }
{
    if n < 10 {
        return end_one(sheet, n);
    }
    if n < 100 {
        return end_pair(sheet, n);
    }
    let c = put_digits(sheet, n);
    c + put_byte(&mut sheet[c..], 10)
}

fn end_one(sheet: &mut [u8], n: u32) -> usize
    requires { (n < 10) × (2 ≤ length sheet.old) }
    ensures { Wrote (digits n ++ (10 ∷ [])) sheet.old sheet.new result }
{
    let c = put_one(sheet, n);
    c + put_byte(&mut sheet[c..], 10)
}

fn end_pair(sheet: &mut [u8], n: u32) -> usize
    requires { ((10 ≤ n) × (n < 100)) × (3 ≤ length sheet.old) }
    ensures { Wrote (digits n ++ (10 ∷ [])) sheet.old sheet.new result }
{
    let c = put_pair(sheet, n);
    c + put_byte(&mut sheet[c..], 10)
}

// The line `key=n`, as `write_number_line` writes it, for a number that has one digit about as often as two, as a pot's chips: these are written with no
// branch, which would often be foretold wrongly.
pub fn write_amount_line(sheet: &mut [u8], key: &[u8], n: u32) -> usize
    requires { (n < 10 ^ 9) × (length (number_line key.now n) ≤ length sheet.old) }
    ensures { Wrote (number_line key.now n) sheet.old sheet.new result }
{
    let a = put_key(sheet, key);
    a + end_amount(&mut sheet[a..], n)
}

fn end_amount(sheet: &mut [u8], n: u32) -> usize
    requires { (n < 10 ^ 9) × (length (digits n) < length sheet.old) }
    ensures { Wrote (digits n ++ (10 ∷ [])) sheet.old sheet.new result }
{
    if n < 100 {
        return end_few(sheet, n);
    }
    let c = put_digits(sheet, n);
    c + put_byte(&mut sheet[c..], 10)
}

// One digit or two and the LF, which takes the second one's place where there is one digit.
fn end_few(sheet: &mut [u8], n: u32) -> usize
    requires { (n < 100) × (length (digits n) < length sheet.old) }
    ensures { Wrote (digits n ++ (10 ∷ [])) sheet.old sheet.new result }
{
    let k = few_count(n);
    let first = few_first(n);
    sheet[0] = (48 + first) as u8;
    sheet[1] = (48 + n % 10) as u8;
    sheet[k] = 10;
    k + 1
}

// The line `key=n` with n in nine digits, zeros in front, and its LF at the front of the sheet.
pub fn write_nine_line(sheet: &mut [u8], key: &[u8], n: u32) -> usize
    requires { (n < 10 ^ 9) × (length (nine_line key.now n) ≤ length sheet.old) }
    ensures { Wrote (nine_line key.now n) sheet.old sheet.new result }
{
    let a = put_key(sheet, key);
    let b = a + put_nine(&mut sheet[a..], n);
    b + put_byte(&mut sheet[b..], 10)
}
