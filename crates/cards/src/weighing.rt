// Document 01, "Hand order": five chosen cards, the digits of one number, beside the best hand so far. Most choices are settled without their ranks
// being put in order: by which neighbours among them are the same, and the place of the class which that tells.
ghost use Rattle.std.specs.Prelude.{◌≡◌, ◌/◌, ◌%◌, ◌≤◌, ◌<◌};
ghost use Rattle.cards.specs.Hands.{value_of};
ghost use Rattle.cards.specs.Order.{better_by, Placed};
ghost use Rattle.cards.specs.Falls.{spread};
ghost use Rattle.cards.specs.Packed.{digits, hand_in, IsHand};
ghost use Rattle.cards.specs.Steps.{ranks_in, suits_in, steps_in, marks_in, pattern_in, lowest_row};

use crate::{Five, Hand, Ranking, hand_at, place, ranks_of, row_of, value};

// The last digit to the base 256.
fn last(n: u64) -> u8
    ensures { result ≡ n % 256 }
{
    (n % 256) as u8
}

// The last five digits, the highest first.
pub(crate) fn five_in(n: u64) -> [u8; 5]
    ensures { result ≡ digits 5 n }
{
    let d = n / 256;
    let c = d / 256;
    let b = c / 256;
    let a = b / 256;
    [last(a), last(b), last(c), last(d), last(n)]
}

pub(crate) fn hand_in(n: u64) -> Hand
    ensures { result ≡ hand_in n }
{
    let q = five_in(n);
    Hand {
        class: last(n / 1099511627776),
        r1: q[0],
        r2: q[1],
        r3: q[2],
        r4: q[3],
        r5: q[4],
    }
}

// The number of a hand: the place of its class, the class, the ranks.
fn number_of(ranking: Ranking, h: Hand) -> u64
    requires { h.class ≤ 9 }
    ensures { (hand_in result ≡ h) × IsHand ranking result }
{
    let head = place(ranking, h.class) as u64 * 256 + h.class as u64;
    let high = (head * 256 + h.r1 as u64) * 256 + h.r2 as u64;
    ((high * 256 + h.r3 as u64) * 256 + h.r4 as u64) * 256 + h.r5 as u64
}

// Of the hand so far and the five cards chosen, the better: the cards are put in order and weighed.
pub(crate) fn in_full(ranking: Ranking, so_far: u64, chosen: u64) -> u64
    requires { Placed ranking × IsHand ranking so_far }
    ensures { (hand_in result ≡ better_by ranking (hand_in so_far) (value_of ranking (digits 5 chosen))) × IsHand ranking result }
{
    so_far.max(number_of(ranking, value(ranking, five_in(chosen))))
}

// The ranks of five cards, as digits.
fn ranks_in(n: u64) -> u64
    ensures is { result ≡ ranks_in n }
    ensures small { (result / 256 ≤ 2155905152) × (result % 4294967296 ≤ 2155905152) }
{
    let low = n / 4 % 64 + n / 1024 % 64 * 256 + n / 262144 % 64 * 65536;
    let high = n / 67108864 % 64 * 16777216 + n / 17179869184 % 64 * 4294967296;
    low + high + 8623620610
}

// The suits of the last four of five cards, as digits.
fn suits_in(n: u64) -> u64
    ensures { result ≡ suits_in n }
{
    n % 4 + n / 256 % 4 * 256 + n / 65536 % 4 * 65536 + n / 16777216 % 4 * 16777216
}

// How far each of five ranks is above the next, as digits, each with 128 more than that.
fn steps_in(ranks: u64) -> u64
    requires { (ranks / 256 ≤ 2155905152) × (ranks % 4294967296 ≤ 2155905152) }
    ensures is { result ≡ steps_in ranks }
    ensures small { result ≤ 4311810304 }
{
    ranks / 256 + 2155905152 - ranks % 4294967296
}

// Which of four digits are 128 or more: 1 for each that is, as digits.
fn marks_in(x: u64) -> u64
    ensures is { result ≡ marks_in x }
    ensures small { result ≤ 16843009 }
{
    x / 128 % 2 + x / 32768 % 2 * 256 + x / 8388608 % 2 * 65536 + x / 2147483648 % 2 * 16777216
}

// Which neighbours are the same, of ranks that fall: the digits 256 less the steps are 128 there, and below elsewhere. The product gathers the four marks.
fn pattern_in(steps: u64) -> u16
    requires { steps ≤ 4311810304 }
    ensures is { result ≡ pattern_in steps }
    ensures small { result < 16 }
{
    (marks_in(4311810304 - steps) * 134480385 / 16777216 % 16) as u16
}

// The ranks of the lowest straight, with the ace on top, as digits.
fn lowest_row(foot: u8) -> u64
    ensures { result ≡ lowest_row foot }
{
    foot as u64 * 16843009 + 60180005120
}

// The five cards.
fn cards_in(n: u64) -> Five
    ensures { spread result ≡ digits 5 n }
{
    let q = five_in(n);
    Five {
        a: q[0],
        b: q[1],
        c: q[2],
        d: q[3],
        e: q[4],
    }
}

// Of the hand so far and the five cards chosen, the better. Cards that do not fall, a flush and a straight are weighed in full.
pub(crate) fn better(ranking: Ranking, so_far: u64, chosen: u64) -> u64
    requires { Placed ranking × IsHand ranking so_far }
    ensures { (hand_in result ≡ better_by ranking (hand_in so_far) (value_of ranking (digits 5 chosen))) × IsHand ranking result }
{
    let ranks = ranks_in(chosen);
    let steps = steps_in(ranks);
    if marks_in(steps) != 16843009 {
        return in_full(ranking, so_far, chosen);
    }
    if suits_in(chosen) == suits_in(chosen / 256) {
        return in_full(ranking, so_far, chosen);
    }
    let k = pattern_in(steps);
    if k == 0 {
        if steps == 2172748161 {
            return in_full(ranking, so_far, chosen);
        }
        if ranks == lowest_row(ranking.foot) {
            return in_full(ranking, so_far, chosen);
        }
        return so_far.max((place(ranking, 8) as u64 * 256 + 8) * 1099511627776 + ranks);
    }
    let row = row_of(k);
    if (place(ranking, (row / 1048576 % 16) as u8) as u64) < so_far / 281474976710656 {
        return so_far;
    }
    so_far.max(number_of(ranking, hand_at(row, ranks_of(cards_in(chosen)), false)))
}
