// Request No. 10, a second reader of hands: it counts how often each rank is held in all seven cards and which ranks each suit has, and names the class and
// the ranks of the best five from the counts. It looks at no choice of five.
#![tactic(auto)]

mod masks;
mod naming;
mod seen;

ghost use Rattle.std.specs.Prelude.{◌≡◌, false};
ghost use Rattle.cards.specs.Reading.{any_above, any_twice};
ghost use Rattle.counts.specs.HandOrder.{counted_hand, counted_reading};

use cards::{Hand, NoHand, any_above, any_twice};
use naming::name;
use seen::{masks_of, see, unseen};

// The best hand of seven different cards, from what is counted of them.
fn hand_by_counts(cards: [u8; 7]) -> Hand
    requires { (any_above cards ≡ false) × (any_twice cards ≡ false) }
    ensures { result ≡ counted_hand cards }
{
    let three = see(see(see(unseen(), cards[6]), cards[5]), cards[4]);
    let five = see(see(three, cards[3]), cards[2]);
    name(masks_of(see(see(five, cards[1]), cards[0])))
}

// The best hand of seven numbers: one above 51 is refused, then one that comes twice.
pub fn counted(cards: [u8; 7]) -> Result<Hand, NoHand>
    ensures { result ≡ counted_reading cards }
{
    if any_above(&cards) {
        return Err(NoHand::NoCard);
    }
    if any_twice(&cards) {
        return Err(NoHand::Repeat);
    }
    Ok(hand_by_counts(cards))
}
