// A hand out of a line's numbers, and whether it is one that the crate `pots` takes.
ghost use Rattle.std.specs.Prelude.{◌≡◌, ◌≤◌, ◌<◌, get_or};
ghost use Rattle.laws.specs.Lists.{sum_of};
ghost use Rattle.try_pots.specs.MadeHands.{number_for, column_of, seats_of, rule_of, hand_of, is_fair};

use laws::{both, chosen};
use pots::Commission;

#[derive(Clone, Copy)]
pub struct Hand {
    pub seats: usize,
    pub puck: usize,
    pub rule: Commission,
    pub totals: [u32; 10],
    pub live: u16,
    pub scores: [u32; 10],
    pub here: u16,
}

fn number_at(nums: &[u32], i: usize) -> u32
    ensures { result ≡ get_or nums.now i 0 }
{
    if i < nums.len() { nums[i] } else { 0 }
}

// The number for a seat in the list that begins at a place: 0 for the seats above the last.
fn number_for(nums: &[u32], from: usize, seats: usize, i: usize) -> u32
    requires { (from ≤ 37) × (i < 10) }
    ensures { result ≡ number_for nums.now from seats i }
{
    if i < seats {
        number_at(nums, from + i)
    } else {
        0
    }
}

// That list.
fn column(nums: &[u32], from: usize, seats: usize) -> [u32; 10]
    requires { from ≤ 37 }
    ensures { result ≡ column_of nums.now from seats }
{
    let mut a = [0u32; 10];
    for i in 0..10 {
        a[i] = number_for(nums, from, seats, i);
    }
    a
}

// How many seats a line of so many numbers is for: 0 where they are not two to ten, or the numbers are too few or too many.
fn seats_of(nums: &[u32], count: usize) -> usize
    ensures { (result ≡ seats_of nums.now count) × (result ≤ 10) }
{
    let n = number_at(nums, 0);
    let room = both(2 <= n, n <= 10);
    chosen(both(room, count == 7 + 4 * n as usize), n, 0) as usize
}

fn rule_of(nums: &[u32]) -> Commission
    ensures { result ≡ rule_of nums.now }
{
    Commission {
        rate: number_at(nums, 2),
        cap: number_at(nums, 3),
        step: number_at(nums, 4),
        board: number_at(nums, 5),
        drop: number_at(nums, 6),
    }
}

pub fn hand_of(nums: &[u32], count: usize) -> Hand
    ensures { result ≡ hand_of nums.now count }
{
    let seats = seats_of(nums, count);
    let rule = rule_of(nums);
    Hand {
        seats,
        puck: number_at(nums, 1) as usize,
        rule,
        totals: column(nums, 7, seats),
        live: pots::mask_at(column(nums, 7 + seats, seats), 1),
        scores: column(nums, 7 + 2 * seats, seats),
        here: pots::mask_at(column(nums, 7 + 3 * seats, seats), 1),
    }
}

fn wide(x: u32) -> u64
    ensures { (result ≡ x) × (result ≤ 4294967295) }
{
    x as u64
}

fn sum(xs: [u32; 10]) -> u64
    ensures { result ≡ sum_of xs }
{
    let mut s: u64 = 0;
    for i in (0..10).rev() {
        s = wide(xs[i]) + s;
    }
    s
}

// Whether a hand keeps the bounds that `pots` asks for.
pub fn fair(h: Hand) -> bool
    ensures { result ≡ is_fair h }
{
    let totals = h.totals;
    let scores = h.scores;
    let few = both(0 < h.seats, h.seats <= 10);
    let small = both(
        sum(totals) <= 100000000,
        pots::mask_at(scores, 100000001) == 0,
    );
    let ruled = both(h.rule.rate <= 100, 0 < h.rule.step);
    both(few, both(small, both(ruled, h.puck <= 10)))
}
