// A round of play judged and settled: request No. 14's refusals, and what comes back of each wager.
ghost use Rattle.std.specs.Prelude.{◌≡◌, true, ◌≤◌};
ghost use Rattle.banked.specs.Rounds.{is_fold, stakes_of, backs_of, total_of, settled_of, wrong_number, round_code, outcome_of, code_of_outcome, Most, SmallSettled, SmallOutcome, Bounded};

use crate::fates::{ante_fate, extra_fate, jackpot_fate, play_fate};
use crate::hands::standing_of;
use crate::{Choice, Deal, Round};
use laws::{chosen, either, short_of};
use paper::Refusal;

// A number for each of the seven wagers.
#[derive(Clone, Copy)]
pub struct Seven {
    pub ante: u32,
    pub flop: u32,
    pub turn: u32,
    pub river: u32,
    pub jackpot: u32,
    pub extra: u32,
    pub dealer: u32,
}

impl Seven {
    fn total(self) -> u32
        requires { Most 100100000 self }
        ensures { (result ≡ total_of self) × (result ≤ 800800000) }
    {
        let side = self.jackpot + (self.extra + self.dealer);
        self.ante + (self.flop + (self.turn + (self.river + side)))
    }
}

// What comes back to the player of each wager, stake and win together; what he staked and what comes back in all; and his gain, won or lost.
#[derive(Clone, Copy)]
pub struct Settled {
    pub backs: Seven,
    pub staked: u32,
    pub back: u32,
    pub won: u32,
    pub lost: u32,
}

impl Choice {
    fn is_fold(self) -> bool
        ensures { result ≡ is_fold self }
    {
        matches!(self, Choice::Fold)
    }
}

// How much each wager is: the flop wager is twice the ante.
fn stakes_of(r: Round) -> Seven
    requires { Bounded r }
    ensures { (result ≡ stakes_of r) × Most 100000 result }
{
    let ante = r.ante;
    match r.choice {
        Choice::Fold => Seven {
            ante,
            flop: 0,
            turn: 0,
            river: 0,
            jackpot: r.jackpot,
            extra: r.extra,
            dealer: r.dealer,
        },
        Choice::Stay { turn, river } => Seven {
            ante,
            flop: 2 * ante,
            turn: chosen(turn, ante, 0),
            river: chosen(river, ante, 0),
            jackpot: r.jackpot,
            extra: r.extra,
            dealer: r.dealer,
        },
    }
}

// What comes back of each wager.
fn backs_of(s: Seven, folded: bool, d: Deal) -> Seven
    requires { Most 100000 s }
    ensures { (result ≡ backs_of s folded d) × Most 100100000 result }
{
    let player = d.hand_of(d.p1, d.p2);
    let standing = standing_of(player, d.hand_of(d.d1, d.d2));
    let play = play_fate(standing);
    let flop_hand = d.flop_hand_of(d.p1, d.p2);
    let dealers = d.flop_hand_of(d.d1, d.d2);
    Seven {
        ante: ante_fate(folded, standing, player).back_of(s.ante),
        flop: play.back_of(s.flop),
        turn: play.back_of(s.turn),
        river: play.back_of(s.river),
        jackpot: jackpot_fate(folded, flop_hand).back_of(s.jackpot),
        extra: extra_fate(folded, flop_hand).back_of(s.extra),
        dealer: extra_fate(false, dealers).back_of(s.dealer),
    }
}

// What comes back after a fold: the ante, the jackpot wager and the player's extra are lost, nothing else was placed, and only the dealer's flop hand is
// looked at.
fn folded_backs(s: Seven, d: Deal) -> Seven
    requires { Most 100000 s × (s.flop ≡ 0) × (s.turn ≡ 0) × (s.river ≡ 0) }
    ensures { (result ≡ backs_of s true d) × Most 100100000 result }
{
    let flop = d.flop_hand_of(d.d1, d.d2);
    Seven {
        ante: 0,
        flop: 0,
        turn: 0,
        river: 0,
        jackpot: 0,
        extra: 0,
        dealer: extra_fate(false, flop).back_of(s.dealer),
    }
}

// What comes back of each wager of a round.
fn round_backs(r: Round, s: Seven) -> Seven
    requires { (s ≡ stakes_of r) × Most 100000 s }
    ensures { (result ≡ backs_of (stakes_of r) (is_fold r.choice) r.deal) × Most 100100000 result }
{
    if r.choice.is_fold() {
        return folded_backs(s, r.deal);
    }
    backs_of(s, false, r.deal)
}

// No ante, a wager above 100,000, or a card above 51.
fn wrong_number(r: Round) -> bool
    ensures { result ≡ wrong_number r }
{
    let side = either(
        100000 < r.jackpot,
        either(
            100000 < r.extra,
            either(100000 < r.dealer, r.deal.high_card()),
        ),
    );
    either(r.ante == 0, either(100000 < r.ante, side))
}

// A round whose numbers are in their ranges.
fn settled_of(r: Round) -> Settled
    requires { Bounded r }
    ensures { (result ≡ settled_of r) × SmallSettled result }
{
    let stakes = stakes_of(r);
    let backs = round_backs(r, stakes);
    let staked = stakes.total();
    let back = backs.total();
    Settled {
        backs,
        staked,
        back,
        won: short_of(back, staked),
        lost: short_of(staked, back),
    }
}

// A round judged: a number outside its range is refused with 2, then a card that comes twice with 8; else it is settled. A refusal pays nothing.
pub fn settle(r: Round) -> Result<Settled, Refusal>
    ensures is { (result ≡ outcome_of r) × (code_of_outcome result ≡ round_code r) }
    ensures small { SmallOutcome result }
{
    if wrong_number(r) {
        return Err(Refusal::OutOfRange);
    }
    if r.deal.card_twice() {
        return Err(Refusal::CardTwice);
    }
    Ok(settled_of(r))
}
