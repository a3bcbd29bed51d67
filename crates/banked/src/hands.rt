// The two hands of a round, and all that this crate asks of `cards`.
ghost use Rattle.std.specs.Prelude.{◌≡◌};
ghost use Rattle.banked.specs.Hands.{hand_of, flop_hand_of, all_cards, high_card, card_twice, standing_of, is_flush_or_higher};

use crate::Deal;
use cards::{Hand, any_above, any_twice, beats, best_hand, five_worth};
use std::cmp::Ordering;

impl Deal {
    // The best five of two hole cards and the communal cards.
    pub fn hand_of(self, x: u8, y: u8) -> Hand
        ensures { result ≡ hand_of x y self }
    {
        best_hand(52, &[x, y, self.b1, self.b2, self.b3, self.b4, self.b5])
    }

    // Two hole cards and the flop cards.
    pub fn flop_hand_of(self, x: u8, y: u8) -> Hand
        ensures { result ≡ flop_hand_of x y self }
    {
        five_worth([x, y, self.b1, self.b2, self.b3])
    }

    fn all_cards(self) -> [u8; 9]
        ensures { result ≡ all_cards self }
    {
        [
            self.p1, self.p2, self.d1, self.d2, self.b1, self.b2, self.b3, self.b4, self.b5,
        ]
    }

    // Whether a card is above 51.
    pub fn high_card(self) -> bool
        ensures { result ≡ high_card self }
    {
        any_above(&self.all_cards())
    }

    // Whether a card comes twice.
    pub fn card_twice(self) -> bool
        ensures { result ≡ card_twice self }
    {
        any_twice(&self.all_cards())
    }
}

// How the player's hand stands to the dealer's.
pub fn standing_of(player: Hand, dealer: Hand) -> Ordering
    ensures { result ≡ standing_of player dealer }
{
    if beats(52, player, dealer) {
        return Ordering::Greater;
    }
    if beats(52, dealer, player) {
        return Ordering::Less;
    }
    Ordering::Equal
}

pub fn is_flush_or_higher(h: Hand) -> bool
    ensures { result ≡ is_flush_or_higher h }
{
    h.class <= 3
}
