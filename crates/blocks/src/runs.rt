// Digits at the front of a part that has room for any number: read with no test of the part's length.
ghost use Rattle.std.specs.Prelude.{◌≡◌, true, ◌+◌, ◌-◌, ◌*◌, ◌≤◌, ◌<◌, length, get_or, take, drop, Some};
ghost use Rattle.text.specs.Number.{number_of, all_digits, value_from};

// Bytes at the front of a part: how many, and their value.
#[derive(Clone, Copy)]
pub struct Run {
    pub count: usize,
    pub value: u32,
}

const NO_RUN: Run = Run { count: 0, value: 0 };

// A byte as a digit: at most 9 where it is one. The digits are 0x30 to 0x39, so one test is enough.
fn digit(b: u8) -> u32
    ensures { result ≤ 9 → (48 ≤ b) × (b ≤ 57) × (result ≡ b - 48) }
{
    u32::from(b) ^ 48
}

// The digits at the front of `part`, at most nine of them.
fn digit_run(part: &[u8]) -> Run
    requires { 10 ≤ length part.now }
    ensures { (result.count ≤ 9) × (all_digits (take result.count part.now) ≡ true) × (result.value ≡ value_from 0 (take result.count part.now)) }
{
    let mut v: u32 = 0;
    for i in 0..9 {
        let d = digit(part[i]);
        if 9 < d {
            return Run { count: i, value: v };
        }
        v = v * 10 + d;
    }
    Run { count: 9, value: v }
}

// A number and its LF at the front of `part`: its digits; none where there is no such number.
pub fn number_ended(part: &[u8]) -> Run
    requires { 10 ≤ length part.now }
    ensures { (result.count ≤ 9) × (0 < result.count → (number_of (take result.count part.now) ≡ Some result.value) × (get_or part.now result.count 0 ≡ 10)) }
{
    let d = digit_run(part);
    let e = d.count;
    if part[e] == 10 {
        if e <= 1 {
            return d;
        }
        if part[0] != 48 {
            return d;
        }
    }
    NO_RUN
}

// One digit, and two of which the first is no zero; none where they are no digits.
fn one_digit(a: u32) -> Run
    ensures { (result.count ≤ 1) × (0 < result.count → (result.count ≡ 1) × (a ≤ 9) × (result.value ≡ a)) }
{
    if 9 < a {
        return NO_RUN;
    }
    Run { count: 1, value: a }
}

fn two_digits(a: u32, b: u32) -> Run
    ensures { (result.count ≤ 2) × (0 < result.count → (result.count ≡ 2) × (a ≤ 9) × (0 < a) × (b ≤ 9) × (result.value ≡ a * 10 + b)) }
{
    if 9 < a {
        return NO_RUN;
    }
    if a == 0 {
        return NO_RUN;
    }
    if 9 < b {
        return NO_RUN;
    }
    Run {
        count: 2,
        value: a * 10 + b,
    }
}

// A number and its LF from `from` on, with one or two digits at one go: most lines have no more.
pub fn number_behind(log: &[u8], from: usize) -> Run
    requires { from + 10 ≤ length log.now }
    ensures { (result.count ≤ 9) × (0 < result.count → (number_of (take result.count (drop from log.now)) ≡ Some result.value) × (get_or (drop from log.now) result.count 0 ≡ 10)) }
{
    let d = digit(log[from]);
    if log[from + 1] == 10 {
        return one_digit(d);
    }
    if log[from + 2] == 10 {
        return two_digits(d, digit(log[from + 1]));
    }
    number_ended(&log[from..])
}
