// A line of numbers, byte by byte: its numbers go into lent places, and what is known of the line is a small struct.
ghost use Rattle.std.specs.Prelude.{◌≡◌, length};
ghost use Rattle.try_pots.specs.Numbers.{no_scan, begun_of, spoilt_of, digit_to, ended_to, numbers_to, taken_to, numbers_with};

use laws::{both, either};

// A line so far: how many numbers are done, the number that is not, whether that has a digit, and whether the line is no line of numbers.
#[derive(Clone, Copy)]
pub struct Scan {
    pub count: usize,
    pub value: u32,
    pub some: bool,
    pub bad: bool,
}

pub fn fresh() -> Scan
    ensures { result ≡ no_scan }
{
    Scan {
        count: 0,
        value: 0,
        some: false,
        bad: false,
    }
}

// Whether the line has a byte other than a blank.
pub fn begun(s: Scan) -> bool
    ensures { result ≡ begun_of s }
{
    either(s.bad, either(s.some, 0 < s.count))
}

fn spoilt(s: Scan) -> Scan
    ensures { result ≡ spoilt_of s }
{
    Scan {
        count: s.count,
        value: 0,
        some: false,
        bad: true,
    }
}

// One digit more. A byte that is none is not taken, nor a number above 999,999,999.
fn with_digit(s: Scan, b: u8) -> Scan
    ensures { result ≡ digit_to s b }
{
    if both(s.value <= 99999999, both(48 <= b, b <= 57)) {
        return Scan {
            count: s.count,
            value: s.value * 10 + (b - 48) as u32,
            some: true,
            bad: s.bad,
        };
    }
    spoilt(s)
}

// The number that a blank or the line's end has ended, put into its place.
pub fn with_number(nums: &mut [u32], s: Scan) -> Scan
    ensures { (result ≡ ended_to s (length nums.old)) × (nums.new ≡ numbers_to s nums.old) }
{
    if !s.some {
        return s;
    }
    let at = s.count;
    if nums.len() <= at {
        return spoilt(s);
    }
    nums[at] = s.value;
    Scan {
        count: at + 1,
        value: 0,
        some: false,
        bad: s.bad,
    }
}

pub fn with_byte(nums: &mut [u32], s: Scan, b: u8) -> Scan
    ensures { (result ≡ taken_to s (length nums.old) b) × (nums.new ≡ numbers_with s nums.old b) }
{
    if b == 32 {
        return with_number(nums, s);
    }
    with_digit(s, b)
}
