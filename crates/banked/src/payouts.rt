// Source document 002, Tables 2 and 3: what a hand pays. The columns go by class in the order of `cards`, 0 the straight flush; they stand beside the places
// of the classes, and the royal flush, which has no class of its own, stands apart.
ghost use Rattle.std.specs.Prelude.{◌≡◌, ◌≤◌};
ghost use Rattle.banked.specs.Payouts.{extra_odds, bonus_times};

use cards::Hand;
use laws::both;

// Table 3, from the straight flush down: so many to 1; 0 where a hand is not listed.
const EXTRA: [u32; 9] = [500, 200, 70, 40, 30, 10, 5, 0, 0];

// Table 3, the royal flush.
const ROYAL: u32 = 1000;

// Table 2: so many times the wager; 0 where a hand is not listed. A straight flush is in Table 1, whose prizes stay out.
const BONUS: [u32; 9] = [0, 500, 100, 50, 25, 0, 0, 0, 0];

// At what odds to 1 a hand wins a Poker Extra wager; 0 where it does not.
pub fn extra_odds(h: Hand) -> u32
    ensures { (result ≡ extra_odds h) × (result ≤ 1000) }
{
    if both(h.class == 0, h.r1 == 14) {
        return ROYAL;
    }
    EXTRA.get(usize::from(h.class)).copied().unwrap_or(0)
}

// How many times the jackpot wager a hand's Bonus Prize is; 0 where it has none.
pub fn bonus_times(h: Hand) -> u32
    ensures { (result ≡ bonus_times h) × (result ≤ 1000) }
{
    BONUS.get(usize::from(h.class)).copied().unwrap_or(0)
}
