// Document 01, "Hand order": the best of the choices of five. The cards taken, those to come and the best hand so far are one number each, which the
// search hands on without copying arrays at every step.
ghost use Rattle.std.specs.Prelude.{◌≡◌, ◌+◌, ◌-◌, ◌*◌, ◌/◌, ◌%◌, ◌≤◌, ◌<◌, length, drop};
ghost use Rattle.cards.specs.Order.{ranking_of, keep, values_from, best_of, Placed};
ghost use Rattle.cards.specs.Packed.{digits, hand_in, IsHand};
ghost use Rattle.cards.specs.Searching.{values_left, lows, units, Stands};

use crate::seven::{fallen, seven_in};
use crate::weighing::{better, hand_in, in_full};
use crate::{Hand, Ranking, ranking_of};

// The best hand so far, and of the choices that are left when `spare` of the cards to come are skipped. The next card is the last digit of `rest`: it is
// skipped, and then taken, above those taken before. With a sixth card taken there is no choice left.
fn search(
    ranking: Ranking,
    rest: u64,
    spare: u64,
    chosen: u64,
    have: u64,
    unit: u64,
    so_far: u64,
) -> u64
    requires { Stands rest spare chosen have unit × Placed ranking × IsHand ranking so_far }
    ensures is { hand_in result ≡ keep ranking (hand_in so_far) (values_left ranking (lows have chosen) spare (lows (5 + spare - have) rest)) }
    ensures small { IsHand ranking result }
{
    if have == 6 {
        return so_far;
    }
    let more = rest / 256;
    let with = rest % 256 * unit + chosen;
    if spare == 1 {
        let without = better(ranking, so_far, more * unit + chosen);
        return search(ranking, more, spare, with, have + 1, unit * 256, without);
    }
    let without = search(ranking, more, spare - 1, chosen, have, unit, so_far);
    search(ranking, more, spare, with, have + 1, unit * 256, without)
}

// A digit behind the others.
fn behind(n: u64, c: u8) -> u64
    requires { n < 72057594037927936 }
    ensures { (result ≡ n * 256 + c) × (c < 256) }
{
    n * 256 + c as u64
}

// The cards from `at` on in one number, the next the last digit.
fn packed(cards: &[u8], at: usize) -> u64
    requires { (at ≤ length cards.now) × (length cards.now - at ≤ 8) }
    ensures is { lows (length cards.now - at) result ≡ drop at cards.now }
    ensures small { result < units (length cards.now - at) }
{
    let mut n = 0;
    for i in (at..cards.len()).rev() {
        n = behind(n, cards[i]);
    }
    n
}

// What a digit counts that stands above so many others.
fn unit_of(have: usize) -> u64
    requires { have < 5 }
    ensures is { result ≡ units have }
    ensures small { (0 < result) × (result ≤ 4294967296) }
{
    match have {
        0 => 1,
        1 => 256,
        2 => 65536,
        3 => 16777216,
        _ => 4294967296,
    }
}

// A digit behind the last four of a number: of five cards no more are kept.
fn push(n: u64, c: u8) -> u64
    ensures { (result / 256 ≡ n % 4294967296) × (result % 256 ≡ c) }
{
    behind(n % 4294967296, c)
}

// The best hand so far, and of the choices that begin with the cards chosen and go on among the few from `at` on, which one number holds.
fn best_of_few(
    ranking: Ranking,
    cards: &[u8],
    at: usize,
    chosen: u64,
    have: usize,
    so_far: u64,
) -> u64
    requires { (at ≤ length cards.now) × (have < 5) × (5 - have ≤ length cards.now - at) × (length cards.now - at ≤ 8) × Placed ranking × IsHand ranking so_far }
    ensures is { hand_in result ≡ keep ranking (hand_in so_far) (values_from ranking (digits have chosen) (5 - have) (drop at cards.now)) }
    ensures small { IsHand ranking result }
{
    let unit = unit_of(have);
    let rest = packed(cards, at);
    let taken = chosen % unit;
    let left = cards.len() - at;
    if left <= 5 - have {
        return in_full(ranking, so_far, rest * unit + taken);
    }
    search(
        ranking,
        rest,
        (left - (5 - have)) as u64,
        taken,
        have as u64,
        unit,
        so_far,
    )
}

// The best hand so far, and of the choices that begin with the cards chosen and go on among those from `at` on: the next card is
// taken, or skipped, until one number holds those that are left.
pub(crate) fn best(
    ranking: Ranking,
    cards: &[u8],
    at: usize,
    chosen: u64,
    have: usize,
    so_far: u64,
) -> u64
    requires { (at ≤ length cards.now) × (have ≤ 5) × (5 - have ≤ length cards.now - at) × Placed ranking × IsHand ranking so_far }
    ensures is { hand_in result ≡ keep ranking (hand_in so_far) (values_from ranking (digits have chosen) (5 - have) (drop at cards.now)) }
    ensures small { IsHand ranking result }
{
    if have == 5 {
        return in_full(ranking, so_far, chosen);
    }
    if cards.len() - at <= 8 {
        return best_of_few(ranking, cards, at, chosen, have, so_far);
    }
    let with = best(
        ranking,
        cards,
        at + 1,
        push(chosen, cards[at]),
        have + 1,
        so_far,
    );
    best(ranking, cards, at + 1, chosen, have, with)
}

// No hand: the class 9, which has no place.
pub(crate) const NO_HAND: u64 = 9895604649984;

// By any ranking, the best hand of five among the cards, as they lie.
fn best_of_choices(ranking: Ranking, cards: &[u8]) -> Hand
    requires { Placed ranking }
    ensures { result ≡ best_of ranking cards.now }
{
    if cards.len() < 5 {
        return hand_in(NO_HAND);
    }
    hand_in(best(ranking, cards, 0, 0, 0, NO_HAND))
}

// By any ranking, the best hand of five among the cards. Seven are put from high to low first, as the search is faster then.
fn best_by(ranking: Ranking, cards: &[u8]) -> Hand
    requires { Placed ranking }
    ensures { result ≡ best_of ranking cards.now }
{
    if cards.len() != 7 {
        return best_of_choices(ranking, cards);
    }
    let n = seven_in(fallen(cards));
    hand_in(search(ranking, n, 2, 0, 0, 1, NO_HAND))
}

// By the ranking of the deck, the best hand of five among the cards, of any number of them; of fewer than five, no hand.
pub fn best_hand(deck: u32, cards: &[u8]) -> Hand
    ensures { result ≡ best_of (ranking_of deck) cards.now }
{
    best_by(ranking_of(deck), cards)
}
