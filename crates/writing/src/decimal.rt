// Numbers: their decimal digits, with no leading zero save `0`; and in nine digits, with zeros in front.
ghost use Rattle.std.specs.Prelude.{◌≡◌, [], ◌∷◌, ◌+◌, ◌/◌, ◌%◌, ◌≤◌, ◌<◌, ◌^◌, length, ltb};
ghost use Rattle.laws.specs.Tests.{pick};
ghost use Rattle.text.specs.Number.{digits};
ghost use Rattle.writing.specs.AnswerSheet.{Wrote};
ghost use Rattle.writing.specs.Nine.{nine_digits};

use crate::writer::put_bytes;

// The decimal digits of n at the front of the sheet, by two and by four, with no loop: what stands in front first, then the last four, where there are more.
// Every divisor stands there as a number, so that no division by a number that is known only later is made.
pub fn put_digits(sheet: &mut [u8], n: u32) -> usize
    requires { (n < 10 ^ 9) × (length (digits n) ≤ length sheet.old) }
    ensures { Wrote (digits n) sheet.old sheet.new result }
{
    if n < 1000 {
        return put_three(sheet, n);
    }
    if n < 10000 {
        return put_four(sheet, n);
    }
    let k = put_five(sheet, n / 10000);
    k + put_four(&mut sheet[k..], n % 10000)
}

// The digits of a number of at most five; one first, since there most numbers below 100,000 end.
fn put_five(sheet: &mut [u8], n: u32) -> usize
    requires { (n < 100000) × (length (digits n) ≤ length sheet.old) }
    ensures { Wrote (digits n) sheet.old sheet.new result }
{
    if n < 10 {
        return put_one(sheet, n);
    }
    if n < 1000 {
        return put_three(sheet, n);
    }
    let k = put_three(sheet, n / 100);
    k + put_pair(&mut sheet[k..], n % 100)
}

// The digits of a number of at most three.
fn put_three(sheet: &mut [u8], n: u32) -> usize
    requires { (n < 1000) × (length (digits n) ≤ length sheet.old) }
    ensures { Wrote (digits n) sheet.old sheet.new result }
{
    if n < 10 {
        return put_one(sheet, n);
    }
    if n < 100 {
        return put_pair(sheet, n);
    }
    let k = put_one(sheet, n / 100);
    k + put_pair(&mut sheet[k..], n % 100)
}

// Four digits, zeros in front.
fn put_four(sheet: &mut [u8], n: u32) -> usize
    requires { (n < 10000) × (4 ≤ length sheet.old) }
    ensures { Wrote ((48 + n / 100 / 10) ∷ (48 + n / 100 % 10) ∷ (48 + n % 100 / 10) ∷ (48 + n % 100 % 10) ∷ []) sheet.old sheet.new result }
{
    let k = put_pair(sheet, n / 100);
    k + put_pair(&mut sheet[k..], n % 100)
}

// Two digits, a zero in front.
pub(crate) fn put_pair(sheet: &mut [u8], n: u32) -> usize
    requires { (n < 100) × (2 ≤ length sheet.old) }
    ensures { Wrote ((48 + n / 10) ∷ (48 + n % 10) ∷ []) sheet.old sheet.new result }
{
    sheet[0] = (48 + n / 10) as u8;
    sheet[1] = (48 + n % 10) as u8;
    2
}

// One digit.
pub(crate) fn put_one(sheet: &mut [u8], n: u32) -> usize
    requires { (n < 10) × (1 ≤ length sheet.old) }
    ensures { Wrote (digits n) sheet.old sheet.new result }
{
    sheet[0] = (48 + n) as u8;
    1
}

// How many digits a number below 100 has, and the first of them: each one choice of two numbers, which the compiler makes with no branch.
pub(crate) fn few_count(n: u32) -> usize
    requires { n < 100 }
    ensures { (result ≡ pick (ltb n 10) 1 2) × (result ≤ 2) }
{
    if n < 10 { 1 } else { 2 }
}

pub(crate) fn few_first(n: u32) -> u32
    requires { n < 100 }
    ensures { (result ≡ pick (ltb n 10) n (n / 10)) × (result < 10) }
{
    if n < 10 { n } else { n / 10 }
}

// How many decimal digits n has; 9 where it has more.
pub fn digit_count(n: u32) -> usize
    ensures { result ≡ length (digits n) }
{
    let mut m = n;
    for k in 1..9 {
        if m < 10 {
            return k;
        }
        m /= 10;
    }
    9
}

const ZEROS: [u8; 9] = *b"000000000";

// The nine decimal digits of n at the front of the sheet, zeros in front.
pub(crate) fn put_nine(sheet: &mut [u8], n: u32) -> usize
    requires { (n < 10 ^ 9) × (9 ≤ length sheet.old) }
    ensures { Wrote (nine_digits n) sheet.old sheet.new result }
{
    let zeros = ZEROS;
    let k = 9 - digit_count(n);
    let a = put_bytes(sheet, &zeros[0..k]);
    a + put_digits(&mut sheet[a..], n)
}
