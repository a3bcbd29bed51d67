// Document 01, "Hand order", its last sentence: what the box answers when it is asked directly about cards.
ghost use Rattle.std.specs.Prelude.{◌≡◌};
ghost use Rattle.cards.specs.Reading.{any_above, any_outside, is_among, any_twice, least_card, number_of, code_of_reading, reading_of, code_asked};

use crate::{Hand, best_hand};

// Why the box names no hand of the cards that it is asked about.
#[derive(Clone, Copy, Debug, PartialEq, Eq)]
pub enum NoHand {
    NotSeven,
    NoCard,
    Repeat,
}

impl NoHand {
    // The paper's number for it.
    pub fn number(self) -> u8
        ensures { result ≡ number_of self }
    {
        match self {
            NoHand::NotSeven | NoHand::NoCard => 2,
            NoHand::Repeat => 8,
        }
    }
}

// Whether a card is above 51.
pub fn any_above(cards: &[u8]) -> bool
    ensures { result ≡ any_above cards.now }
{
    cards.iter().any(|c| 51 < *c)
}

// The lowest card of a deck: the 32 cards go from 20 to 51, and of the 52 none is too low.
fn least_card(deck: u32) -> u8
    ensures { result ≡ least_card deck }
{
    if deck == 32 { 20 } else { 0 }
}

// Whether a card is not of the deck.
pub fn any_outside(deck: u32, cards: &[u8]) -> bool
    ensures { result ≡ any_outside deck cards.now }
{
    let least = least_card(deck);
    cards.iter().any(|c| 51 < *c || *c < least)
}

// Whether x is among some cards.
fn is_among(x: u8, cards: &[u8]) -> bool
    ensures { result ≡ is_among x cards.now }
{
    cards.iter().any(|c| x == *c)
}

// Whether a card comes twice.
pub fn any_twice(cards: &[u8]) -> bool
    ensures { result ≡ any_twice cards.now }
{
    for (i, c) in cards.iter().enumerate() {
        if is_among(*c, &cards[i + 1..]) {
            return true;
        }
    }
    false
}

// The best hand of seven cards of the deck: any other number of cards is refused, then a card that is not of the deck, then a card that comes twice.
pub fn read_hand(deck: u32, cards: &[u8]) -> Result<Hand, NoHand>
    ensures { (result ≡ reading_of deck cards.now) × (code_of_reading result ≡ code_asked deck cards.now) }
{
    if cards.len() != 7 {
        return Err(NoHand::NotSeven);
    }
    if any_outside(deck, cards) {
        return Err(NoHand::NoCard);
    }
    if any_twice(cards) {
        return Err(NoHand::Repeat);
    }
    Ok(best_hand(deck, cards))
}
