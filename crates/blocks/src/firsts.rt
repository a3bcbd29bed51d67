// The first bytes of a part as one number, the first byte the lowest: so several are compared at one go. The compiler makes each of these one load.
ghost use Rattle.std.specs.Prelude.{◌≡◌, true, ◌≤◌, length, take};
ghost use Rattle.text.specs.Bytes.{all_within, pack_of};

pub fn two(s: &[u8]) -> u32
    requires { 2 ≤ length s.now }
    ensures { (result ≡ pack_of (take 2 s.now)) × (all_within 0 255 (take 2 s.now) ≡ true) }
{
    u32::from(s[1]) * 256 + u32::from(s[0])
}

pub fn four(s: &[u8]) -> u32
    requires { 4 ≤ length s.now }
    ensures { (result ≡ pack_of (take 4 s.now)) × (all_within 0 255 (take 4 s.now) ≡ true) }
{
    ((u32::from(s[3]) * 256 + u32::from(s[2])) * 256 + u32::from(s[1])) * 256 + u32::from(s[0])
}
