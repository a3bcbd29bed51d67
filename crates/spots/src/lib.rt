// What is drawn of a hand's chips, and where things stand in the picture, in tenths of a pixel: small total sums that always fit.
#![tactic(auto)]

ghost use Rattle.std.specs.Prelude.{◌≡◌, ◌-◌};
ghost use Rattle.spots.specs.Spots.{pot_at, reach_of_first, number_of_pot, column_x, right_of, next_column, y_at, apart_at, label_y, more_by};

use columns::reach;
use pots::{Pot, Pots};

// What is drawn of a hand: its number, how many were dealt in, what each put in, its sitting (0 where nobody was dealt in), who is live and who is still there,
// the pots, and what goes back.
#[derive(Clone, Copy)]
pub struct Chips {
    pub hand: u64,
    pub columns: u32,
    pub totals: [u32; 10],
    pub sittings: [u32; 10],
    pub live: u16,
    pub here: u16,
    pub pots: Pots,
    pub back: u32,
}

// The k-th pot, from 0; an empty one where there is none.
pub fn pot_at(ps: Pots, k: usize) -> Pot
    ensures { result ≡ pot_at ps k }
{
    let none = Pot { amount: 0, who: 0 };
    ps.list.get(k).copied().unwrap_or(none)
}

// Up to which height the first k pots reach.
pub fn reach_of_first(totals: [u32; 10], ps: Pots, k: usize) -> u32
    ensures { result ≡ reach_of_first totals ps k }
{
    if k == 0 {
        return 0;
    }
    let q = pot_at(ps, k - 1);
    reach(totals, q.who)
}

// Where the bands begin, from the left.
pub const BAND: u64 = 200;

// The foot of the columns, from above.
const FOOT: u64 = 3500;

// How far returned chips are drawn above the rest.
const APART: u64 = 160;

// A sum that fits: neither number is taken for more than 1,000,000,000.
pub fn more(a: u64, b: u64) -> u64
    ensures { result ≡ more_by a b }
{
    if 1000000000 < a {
        return a;
    }
    if 1000000000 < b {
        return a;
    }
    a + b
}

pub fn less(a: u64, b: u64) -> u64
    ensures { result ≡ a - b }
{
    a.saturating_sub(b)
}

pub fn sum(a: u32, b: u32) -> u32
    ensures { result ≡ more_by a b }
{
    more(u64::from(a), u64::from(b)) as u32
}

pub fn wide(x: u32) -> u64
    ensures { result ≡ x }
{
    u64::from(x)
}

// The number of the pot at a place.
pub fn number_of(k: usize) -> u64
    ensures { result ≡ number_of_pot k }
{
    if k < 9 { k as u64 + 1 } else { 9 }
}

// One column more.
pub fn next(j: u32) -> u32
    ensures { result ≡ next_column j }
{
    if j < 10 { j + 1 } else { 10 }
}

// The left side of the j-th column, from 0.
pub fn column_x(j: u32) -> u64
    ensures { result ≡ column_x j }
{
    if j < 9 { 340 + 800 * j as u64 } else { 7540 }
}

// The right side of the bands across so many columns.
pub fn right_of(columns: u32) -> u64
    ensures { result ≡ right_of columns }
{
    if columns < 10 {
        return 200 + 800 * columns as u64;
    }
    8200
}

// A height of the picture, from above.
pub fn y_at(high: u64) -> u64
    ensures { result ≡ y_at high }
{
    less(FOOT, high)
}

// A height of what goes back.
pub fn apart(high: u64) -> u64
    ensures { result ≡ apart_at high }
{
    less(FOOT - APART, high)
}

// Where the k-th of so many labels stands, from the lowest: they are spread evenly, so that none lies on another.
pub fn label_y(k: u64, labels: u64) -> u64
    ensures { result ≡ label_y k labels }
{
    if 10 < k {
        return FOOT;
    }
    if labels == 0 {
        return FOOT;
    }
    less(FOOT, (2 * k + 1) * 1580 / labels)
}
