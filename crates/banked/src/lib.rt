// Request No. 14, the house-banked game (Crown Hold'em): a round by its wagers and its nine cards, and what comes back of each wager by the rules of source
// document 002. A round stands alone: nothing is kept between rounds.
#![tactic(auto)]

mod fates;
mod hands;
mod judged;
mod payouts;

pub use judged::{Settled, Seven, settle};

// What the player does with the two hole cards: folds, or places the flop wager and, as he likes, the turn wager and the river wager (4.4, 4.7, 4.9).
#[derive(Clone, Copy)]
pub enum Choice {
    Fold,
    Stay { turn: bool, river: bool },
}

// The player's hole cards, the dealer's, and the communal cards: the flop cards b1 to b3, the turn card b4 and the river card b5.
#[derive(Clone, Copy)]
pub struct Deal {
    pub p1: u8,
    pub p2: u8,
    pub d1: u8,
    pub d2: u8,
    pub b1: u8,
    pub b2: u8,
    pub b3: u8,
    pub b4: u8,
    pub b5: u8,
}

// A round of play: the wagers placed before it (`extra` on the player's hand, `dealer` on the dealer's), the player's choice, and the cards. A side wager of
// 0 was not placed.
#[derive(Clone, Copy)]
pub struct Round {
    pub ante: u32,
    pub jackpot: u32,
    pub extra: u32,
    pub dealer: u32,
    pub choice: Choice,
    pub deal: Deal,
}
