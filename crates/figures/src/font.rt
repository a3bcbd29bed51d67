// The turn lamp's digits, five rows of five dots each.
ghost use Rattle.std.specs.Prelude.{◌≡◌, ◌<◌};
ghost use Rattle.figures.specs.Lamp.{dot_of, bits_of, cells_of};

use laws::chosen;

// The digits 0 to 9, each as its five rows from the top, a row as five bits.
const FONT: [u32; 50] = [
    // 0
    0b01110, 0b10001, 0b10001, 0b10001, 0b01110,
    // 1
    0b00100, 0b01100, 0b00100, 0b00100, 0b01110,
    // 2
    0b11110, 0b00001, 0b01110, 0b10000, 0b11111,
    // 3
    0b11110, 0b00001, 0b01110, 0b00001, 0b11110,
    // 4
    0b10010, 0b10010, 0b11111, 0b00010, 0b00010,
    // 5
    0b11111, 0b10000, 0b11110, 0b00001, 0b11110,
    // 6
    0b01110, 0b10000, 0b11110, 0b10001, 0b01110,
    // 7
    0b11111, 0b00001, 0b00010, 0b00100, 0b00100,
    // 8
    0b01110, 0b10001, 0b01110, 0b10001, 0b01110,
    // 9
    0b01110, 0b10001, 0b01111, 0b00001, 0b01110,
];

// A row of a digit.
fn bits(digit: u32, row: u32) -> u32
    requires { (digit < 10) × (row < 5) }
    ensures { result ≡ bits_of digit row }
{
    let k = (digit * 5 + row) as usize;
    FONT[k]
}

// A dot of a row: `#` where its bit is set.
fn dot(row: u32, p: u32) -> u8
    requires { 0 < p }
    ensures { result ≡ dot_of row p }
{
    if row / p % 2 == 1 { 35 } else { 32 }
}

// A row of the lamp for a seat: the tens, which are dark below ten, a blank, the units.
pub fn cells(seat: u32, row: u32) -> [u8; 11]
    requires { row < 5 }
    ensures { result ≡ cells_of seat row }
{
    let t = chosen(seat < 10, 0, bits(1, row));
    let u = bits(seat % 10, row);
    [
        dot(t, 16),
        dot(t, 8),
        dot(t, 4),
        dot(t, 2),
        dot(t, 1),
        32,
        dot(u, 16),
        dot(u, 8),
        dot(u, 4),
        dot(u, 2),
        dot(u, 1),
    ]
}
