// Request No. 5, Omaha: the best hand of exactly two of four hole cards with exactly three of the board. Each of the six pairs goes through the
// search among the board cards as two cards that are chosen already, and hands on the best hand so far.
ghost use Rattle.std.specs.Prelude.{◌≡◌, [], ◌∷◌, ◌≤◌, length};
ghost use Rattle.cards.specs.Order.{ranking_of, keep, values_from, best_among, Placed};
ghost use Rattle.cards.specs.Packed.{hand_in, IsHand};
ghost use Rattle.cards.specs.Omaha.{from_both};

use crate::choose::{NO_HAND, best};
use crate::weighing::hand_in;
use crate::{Hand, Ranking, ranking_of};

// The best hand so far, and of those that two hole cards make with three of the board.
fn with_pair(ranking: Ranking, board: &[u8], a: u8, b: u8, so_far: u64) -> u64
    requires { (3 ≤ length board.now) × Placed ranking × IsHand ranking so_far }
    ensures is { hand_in result ≡ keep ranking (hand_in so_far) (values_from ranking (a ∷ b ∷ []) 3 board.now) }
    ensures small { IsHand ranking result }
{
    let two = a as u64 * 256 + b as u64;
    best(ranking, board, 0, two, 2, so_far)
}

// By any ranking, with a board of three cards or more.
fn best_of_both(ranking: Ranking, hole: [u8; 4], board: &[u8]) -> Hand
    requires { (3 ≤ length board.now) × Placed ranking }
    ensures { result ≡ best_among ranking (from_both 2 3 hole board.now) }
{
    let n1 = with_pair(ranking, board, hole[0], hole[1], NO_HAND);
    let n2 = with_pair(ranking, board, hole[0], hole[2], n1);
    let n3 = with_pair(ranking, board, hole[0], hole[3], n2);
    let n4 = with_pair(ranking, board, hole[1], hole[2], n3);
    let n5 = with_pair(ranking, board, hole[1], hole[3], n4);
    hand_in(with_pair(ranking, board, hole[2], hole[3], n5))
}

// By the ranking of the deck, the best hand of two of the hole and three of the board cards; with fewer than three on the board, no hand.
pub fn best_omaha(deck: u32, hole: [u8; 4], board: &[u8]) -> Hand
    ensures { result ≡ best_among (ranking_of deck) (from_both 2 3 hole board.now) }
{
    if board.len() < 3 {
        return hand_in(NO_HAND);
    }
    best_of_both(ranking_of(deck), hole, board)
}
