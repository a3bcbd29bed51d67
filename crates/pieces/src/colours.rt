// The colours of a picture that stands on a terminal, written over it: the lamp in amber, a refusal in red.
ghost use Rattle.std.specs.Prelude.{◌≡◌, ◌+◌, ◌≤◌, ◌<◌, length};

use crate::parts::put_refusal;
use figures::font::cells;
use figures::put::put;

// A row of the lamp in amber: first the place on the terminal where it stands.
fn put_amber(out: &mut [u8], at: usize, seat: u32, row: u32) -> usize
    requires { (row < 5) × (at + 28 ≤ length out.old) }
    ensures { result ≡ at + 28 }
{
    let place = [27, 91, (50 + row) as u8, 59, 55, 72];
    let a = put(out, at, &place);
    let b = put(out, a, b"\x1b[1;33m");
    let g = cells(seat, row);
    let c = put(out, b, &g);
    put(out, c, b"\x1b[0m")
}

// The lamp in amber, where it is lit.
fn put_lit(out: &mut [u8], from: usize, seat: u32) -> usize
    requires { from + 140 ≤ length out.old }
    ensures { result ≤ from + 140 }
{
    if seat == 0 {
        return from;
    }
    let mut at = from;
    for row in 0..5 {
        at = put_amber(out, at, seat, row);
    }
    at
}

// The refusal in red.
fn put_red(out: &mut [u8], from: usize, code: u8) -> usize
    requires { from + 67 ≤ length out.old }
    ensures { result ≤ from + 67 }
{
    if code == 0 {
        return from;
    }
    let a = put(out, from, b"\x1b[1;19H\x1b[1;31mREFUSED  ");
    put_refusal(out, a, code);
    put(out, a + 40, b"\x1b[0m")
}

// The colours, and then the cursor goes below the picture.
pub fn put_colours(out: &mut [u8], from: usize, turn: u32, code: u8) -> usize
    requires { from + 214 ≤ length out.old }
    ensures { result ≤ from + 214 }
{
    let a = put_lit(out, from, turn);
    let b = put_red(out, a, code);
    put(out, b, b"\x1b[24;1H")
}
