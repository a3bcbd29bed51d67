// Document 02, request No. 11, "Hands kept as a place": the place of a hand among the 7,462 classes of equal hands of 52 cards. No ladder is laid
// out: the hands that stand below are counted.
#![tactic(auto)]

ghost use Rattle.std.specs.Prelude.{◌≡◌, [], ◌∷◌, ◌+◌, ◌≤◌, eqb};
ghost use Rattle.cards.specs.Cards.{in_row};
ghost use Rattle.ladder.specs.Ladder.{ranks_in, is_straight, place_of, kept_of};
ghost use Rattle.ladder.specs.Reckoned.{chosen_of, up, less, two_below, three_below, five_below, falling, apart, row_place, beside_place, four_place, full_place, rows_below, odd_place, three_place, two_pair_place, pair_place};

use cards::Hand;
use laws::{both, chosen, either, one, short_of};

// How many choices of K there are of n; 0 where n is above 12. By products: a table of them would be laid on the stack at each reading.
fn choose<const K: u32>(n: u32) -> u32
    requires { K ≤ 5 }
    ensures is { result ≡ chosen_of n K }
    ensures small { result ≤ 792 }
{
    if 12 < n {
        return 0;
    }
    let mut choices = 1;
    for k in 0..K {
        choices = choices * short_of(n, k) / (k + 1);
    }
    choices
}

// A rank, counted from 0 for the two.
fn up(r: u8) -> u32
    ensures is { result ≡ up r }
    ensures small { result ≤ 255 }
{
    short_of(r as u32, 2)
}

// A rank so counted, among those that are not used.
fn less(x: u32, used: u32) -> u32
    ensures is { result ≡ less x used }
    ensures small { result ≤ x }
{
    short_of(x, one(used < x))
}

// How many choices of two ranks stand below these, which fall.
fn two_below(a: u32, b: u32) -> u32
    ensures is { result ≡ two_below a b }
    ensures small { result ≤ 1584 }
{
    choose::<2>(a) + choose::<1>(b)
}

fn three_below(a: u32, b: u32, c: u32) -> u32
    ensures is { result ≡ three_below a b c }
    ensures small { result ≤ 2376 }
{
    choose::<3>(a) + two_below(b, c)
}

fn five_below(a: u32, b: u32, c: u32, d: u32, e: u32) -> u32
    ensures is { result ≡ five_below a b c d e }
    ensures small { result ≤ 3960 }
{
    choose::<5>(a) + (choose::<4>(b) + three_below(c, d, e))
}

// Whether the two ranks differ.
fn apart(x: u8, y: u8) -> bool
    ensures { result ≡ apart x y }
{
    either(x < y, y < x)
}

// Whether these are ranks, from the two to the ace, each below the one before.
fn falling(ranks: &[u8]) -> bool
    ensures { result ≡ falling ranks.now }
{
    let mut above = 15;
    for r in ranks {
        if above <= *r {
            return false;
        }
        above = *r;
    }
    1 < above
}

fn one_above(x: u8, y: u8) -> bool
    ensures { result ≡ eqb x (y + 1) }
{
    x as u16 == y as u16 + 1
}

// Whether each is one above the next.
fn in_row(h: Hand) -> bool
    ensures { result ≡ in_row (ranks_in h) }
{
    let low = both(one_above(h.r3, h.r4), one_above(h.r4, h.r5));
    both(one_above(h.r1, h.r2), both(one_above(h.r2, h.r3), low))
}

// Whether five ranks that fall are a straight: a row, or 5-4-3-2-A with the ace high.
fn is_straight(h: Hand) -> bool
    ensures { result ≡ is_straight (ranks_in h) }
{
    let low = both(h.r3 == 4, both(h.r4 == 3, h.r5 == 2));
    either(in_row(h), both(h.r1 == 14, both(h.r2 == 5, low)))
}

// ---- The place of a hand of a class, told how many stand in the classes under it; 0 where its ranks are not those of the class.

// Straights and straight flushes: by the highest rank, from the five on.
fn row_place(under: u32, h: Hand) -> u32
    requires { under ≤ 7452 }
    ensures { result ≡ row_place under h }
{
    let row = both(in_row(h), both(5 <= h.r1, h.r1 <= 14));
    chosen(row, under + short_of(h.r1 as u32, 4), 0)
}

// A rank held three or four times, and one of the twelve others.
fn beside_place(under: u32, r: u8, s: u8) -> u32
    requires { under ≤ 7452 }
    ensures { result ≡ beside_place under r s }
{
    let differ = both(falling(&[r]), both(falling(&[s]), apart(r, s)));
    let n = 12 * up(r) + less(up(s), up(r)) + 1;
    chosen(differ, under + n, 0)
}

fn four_place(under: u32, h: Hand) -> u32
    requires { under ≤ 7452 }
    ensures { result ≡ four_place under h }
{
    let four = both(h.r1 == h.r2, both(h.r1 == h.r3, h.r1 == h.r4));
    chosen(four, beside_place(under, h.r1, h.r5), 0)
}

fn full_place(under: u32, h: Hand) -> u32
    requires { under ≤ 7452 }
    ensures { result ≡ full_place under h }
{
    let full = both(h.r1 == h.r2, both(h.r1 == h.r3, h.r4 == h.r5));
    chosen(full, beside_place(under, h.r1, h.r5), 0)
}

// How many straights stand below five odd ranks, told of the highest: one for each lower rank from the six on; and 5-4-3-2-A below every ace.
fn rows_below(r: u8) -> u32
    ensures { result ≡ rows_below r }
{
    let n = short_of(r as u32, 6);
    chosen(r == 14, n + 1, n)
}

// Flushes and five odd cards: the choices of five ranks that stand below, but not the straights among them.
fn odd_place(under: u32, h: Hand) -> u32
    requires { under ≤ 7452 }
    ensures { result ≡ odd_place under h }
{
    let all = five_below(up(h.r1), up(h.r2), up(h.r3), up(h.r4), up(h.r5));
    let n = under + short_of(all + 1, rows_below(h.r1));
    chosen(
        is_straight(h),
        0,
        chosen(falling(&[h.r1, h.r2, h.r3, h.r4, h.r5]), n, 0),
    )
}

fn three_place(under: u32, h: Hand) -> u32
    requires { under ≤ 7452 }
    ensures { result ≡ three_place under h }
{
    let held = both(h.r1 == h.r2, h.r1 == h.r3);
    let fall = both(falling(&[h.r1]), falling(&[h.r4, h.r5]));
    let differ = both(apart(h.r1, h.r4), apart(h.r1, h.r5));
    let r = up(h.r1);
    let n = 66 * r + two_below(less(up(h.r4), r), less(up(h.r5), r)) + 1;
    chosen(both(held, both(fall, differ)), under + n, 0)
}

fn two_pair_place(under: u32, h: Hand) -> u32
    requires { under ≤ 7452 }
    ensures { result ≡ two_pair_place under h }
{
    let held = both(h.r1 == h.r2, h.r3 == h.r4);
    let fall = both(falling(&[h.r1, h.r3]), falling(&[h.r5]));
    let differ = both(apart(h.r5, h.r1), apart(h.r5, h.r3));
    let r = up(h.r1);
    let s = up(h.r3);
    let n = 11 * two_below(r, s) + less(less(up(h.r5), r), s) + 1;
    chosen(both(held, both(fall, differ)), under + n, 0)
}

fn pair_place(under: u32, h: Hand) -> u32
    requires { under ≤ 7452 }
    ensures { result ≡ pair_place under h }
{
    let fall = both(falling(&[h.r1]), falling(&[h.r3, h.r4, h.r5]));
    let low = both(apart(h.r1, h.r4), apart(h.r1, h.r5));
    let differ = both(apart(h.r1, h.r3), low);
    let r = up(h.r1);
    let below = three_below(less(up(h.r3), r), less(up(h.r4), r), less(up(h.r5), r));
    let n = 220 * r + below + 1;
    chosen(both(h.r1 == h.r2, both(fall, differ)), under + n, 0)
}

// The place of a hand: 7,462 for a royal flush, down to 1; 0 for what is no hand of 52 cards.
pub fn place(h: Hand) -> u32
    ensures { result ≡ place_of h }
{
    match h.class {
        0 => row_place(7452, h),
        1 => four_place(7296, h),
        2 => full_place(7140, h),
        3 => odd_place(5863, h),
        4 => row_place(5853, h),
        5 => three_place(4995, h),
        6 => two_pair_place(4137, h),
        7 => pair_place(1277, h),
        8 => odd_place(0, h),
        _ => 0,
    }
}

// What is kept of a hand of the deck: its place. The 32-card deck keeps the old form.
pub fn kept(deck: u32, h: Hand) -> u32
    ensures { result ≡ kept_of deck h }
{
    if deck == 32 {
        return cards::strength(deck, h);
    }
    place(h)
}
