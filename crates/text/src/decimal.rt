// Numbers: 1 to 9 decimal digits, with no leading zero save `0`.
ghost use Rattle.std.specs.Prelude.{◌≡◌, ◌≤◌, length};
ghost use Rattle.text.specs.Number.{number_of, digits_from};

// The value of at most nine digits.
fn digits_value(part: &[u8]) -> Option<u32>
    requires { length part.now ≤ 9 }
    ensures { result ≡ digits_from 0 part.now }
{
    let mut v: u32 = 0;
    for b in part {
        if *b < 48 || 57 < *b {
            return None;
        }
        v = v * 10 + u32::from(*b - 48);
    }
    Some(v)
}

// What the bytes of `part` are as a number.
pub fn number_in(part: &[u8]) -> Option<u32>
    ensures { result ≡ number_of part.now }
{
    if part.len() == 0 {
        return None;
    }
    if 9 < part.len() {
        return None;
    }
    if part[0] == 48 {
        if part.len() == 1 {
            return Some(0);
        }
        return None;
    }
    digits_value(part)
}
