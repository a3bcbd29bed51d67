// Source document 002, section 3: what becomes of each wager.
ghost use Rattle.std.specs.Prelude.{◌≡◌, ◌*◌, ◌≤◌};
ghost use Rattle.laws.specs.Tests.{pick};
ghost use Rattle.banked.specs.Fates.{Fair, ante_fate, play_fate, jackpot_fate, extra_fate};
ghost use Rattle.banked.specs.Books.{back_of};
ghost use Rattle.banked.specs.declared.fates.Fate.TheVariants.{Odds, Returned};

use crate::hands::is_flush_or_higher;
use crate::payouts::{bonus_times, extra_odds};
use cards::Hand;
use std::cmp::Ordering;

// A wager is lost to the house; it is returned (a Stand Off, and by the house's rule a jackpot wager that Table 1 would pay); at odds of so many to 1 it comes
// back with so many times as much; or a prize of so many times the wager is paid, and the wager stays with the house.
#[derive(Clone, Copy)]
pub enum Fate {
    Lost,
    Returned,
    Odds(u32),
    Times(u32),
}

impl Fate {
    // What comes back of a wager, stake and win together.
    pub fn back_of(self, stake: u32) -> u32
        requires { Fair self × (stake ≤ 200000) }
        ensures is { result ≡ back_of self stake }
        ensures small { result ≤ 1001 * stake }
    {
        match self {
            Fate::Lost => 0,
            Fate::Returned => stake,
            Fate::Odds(n) => stake + n * stake,
            Fate::Times(n) => n * stake,
        }
    }
}

// An ante whose hand is the higher wins with a flush or higher; else nothing is said to win or lose it.
fn won_or_returned(b: bool) -> Fate
    ensures { (result ≡ pick b (Odds 1) Returned) × Fair result }
{
    if b { Fate::Odds(1) } else { Fate::Returned }
}

// Rules 3.6 and 3.7.
pub fn ante_fate(folded: bool, s: Ordering, player: Hand) -> Fate
    ensures { (result ≡ ante_fate folded s player) × Fair result }
{
    if folded {
        return Fate::Lost;
    }
    match s {
        Ordering::Greater => won_or_returned(is_flush_or_higher(player)),
        Ordering::Equal => Fate::Returned,
        Ordering::Less => Fate::Lost,
    }
}

// Rules 3.36, 3.39 and 3.42, 3.37, 3.40 and 3.43: the flop, turn and river wagers.
pub fn play_fate(s: Ordering) -> Fate
    ensures { (result ≡ play_fate s) × Fair result }
{
    match s {
        Ordering::Greater => Fate::Odds(1),
        Ordering::Equal => Fate::Returned,
        Ordering::Less => Fate::Lost,
    }
}

// Rules 3.12 and 3.13.
pub fn jackpot_fate(folded: bool, flop: Hand) -> Fate
    ensures { (result ≡ jackpot_fate folded flop) × Fair result }
{
    if folded {
        return Fate::Lost;
    }
    if flop.class == 0 {
        return Fate::Returned;
    }
    let n = bonus_times(flop);
    if n == 0 {
        return Fate::Lost;
    }
    Fate::Times(n)
}

// Rules 3.28, 3.33 and 3.34: a Poker Extra wager that a fold has not lost wins on a hand that Table 3 lists. No fold loses the one on the dealer's hand.
pub fn extra_fate(folded: bool, flop: Hand) -> Fate
    ensures { (result ≡ extra_fate folded flop) × Fair result }
{
    if folded {
        return Fate::Lost;
    }
    let n = extra_odds(flop);
    if n == 0 {
        return Fate::Lost;
    }
    Fate::Odds(n)
}
