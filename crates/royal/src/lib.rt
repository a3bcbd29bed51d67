// Request No. 7: who holds the royal flush that wins the pool. "A royal flush on five board cards in which two hole cards are needed, held by a live
// seat with all cards entered": two of the hole cards with three of the board. It is the same five cards in either deck.
#![tactic(auto)]

ghost use Rattle.std.specs.Prelude.{◌≡◌, true, [], ◌∷◌, ◌++◌, map, take};
ghost use Rattle.paper.specs.Paper.{is_game};
ghost use Rattle.cards.specs.Cards.{one_suit};
ghost use Rattle.cards.specs.Order.{choices};
ghost use Rattle.royal.specs.Royal.{is_royal, any_royal, royal_in, holds_royal, royal_seats, royal_now};

use cards::five_worth;
use chairs::{Chair, Hole};
use laws::{both, either};
use table::table::{Board, Table};

// Whether five cards are of one suit.
fn one_suit(a: u8, b: u8, c: u8, d: u8, e: u8) -> bool
    ensures { result ≡ one_suit (a ∷ b ∷ c ∷ d ∷ e ∷ []) }
{
    let s = a % 4;
    both(s == b % 4, both(s == c % 4, both(s == d % 4, s == e % 4)))
}

// Whether five cards are a royal flush. Most are not of one suit, and need not be weighed.
fn is_royal(a: u8, b: u8, c: u8, d: u8, e: u8) -> bool
    ensures { result ≡ is_royal (a ∷ b ∷ c ∷ d ∷ e ∷ []) }
{
    if !one_suit(a, b, c, d, e) {
        return false;
    }
    let five = [a, b, c, d, e];
    let h = five_worth(five);
    both(h.class == 0, h.r1 == 14)
}

// Whether two cards are a royal flush with some three of the board.
fn with_five(x: u8, y: u8, a: u8, b: u8, c: u8, d: u8, e: u8) -> bool
    ensures { result ≡ any_royal (map (λ q. (x ∷ y ∷ []) ++ q) (choices 3 (a ∷ b ∷ c ∷ d ∷ e ∷ []))) }
{
    let with_c = either(is_royal(x, y, b, d, e), is_royal(x, y, c, d, e));
    let with_b = either(
        is_royal(x, y, b, c, d),
        either(is_royal(x, y, b, c, e), with_c),
    );
    let with_d = either(is_royal(x, y, a, d, e), with_b);
    let with_a = either(
        is_royal(x, y, a, c, d),
        either(is_royal(x, y, a, c, e), with_d),
    );
    either(
        is_royal(x, y, a, b, c),
        either(
            is_royal(x, y, a, b, d),
            either(is_royal(x, y, a, b, e), with_a),
        ),
    )
}

fn with_two(x: u8, y: u8, k: [u8; 5]) -> bool
    ensures { result ≡ any_royal (map (λ q. (x ∷ y ∷ []) ++ q) (choices 3 k)) }
{
    with_five(x, y, k[0], k[1], k[2], k[3], k[4])
}

// Two hole cards.
fn two_royal(b: Board, h: Hole) -> bool
    requires { h.count ≡ 2 }
    ensures { result ≡ royal_in (take h.count h.cards) b.cards }
{
    let d = h.cards;
    let k = b.cards;
    with_two(d[0], d[1], k)
}

// Two of four hole cards.
fn four_royal(b: Board, h: Hole) -> bool
    requires { h.count ≡ 4 }
    ensures { result ≡ royal_in (take h.count h.cards) b.cards }
{
    let d = h.cards;
    let k = b.cards;
    let with_3 = either(with_two(d[1], d[3], k), with_two(d[2], d[3], k));
    let with_2 = either(
        with_two(d[0], d[3], k),
        either(with_two(d[1], d[2], k), with_3),
    );
    either(
        with_two(d[0], d[1], k),
        either(with_two(d[0], d[2], k), with_2),
    )
}

fn royal_in(game: u32, b: Board, h: Hole) -> bool
    requires { (is_game game ≡ true) × (h.count ≡ game) }
    ensures { result ≡ royal_in (take h.count h.cards) b.cards }
{
    if game == 4 {
        return four_royal(b, h);
    }
    two_royal(b, h)
}

// Whether a seat holds it: its hand is live, and all its cards were entered.
fn holds_royal(game: u32, b: Board, c: Chair) -> bool
    requires { is_game game ≡ true }
    ensures { result ≡ holds_royal game b c }
{
    let h = c.hole;
    if both(c.dealt.live, h.count as u32 == game) {
        return royal_in(game, b, h);
    }
    false
}

// How many seats hold it: at a table that is reached at most one (history, `royal_once`).
fn royal_seats(game: u32, b: Board, cs: [Chair; 10]) -> u32
    requires { is_game game ≡ true }
    ensures { result ≡ royal_seats game b cs }
{
    let mut n: u32 = 0;
    for c in &cs {
        n += u32::from(holds_royal(game, b, *c));
    }
    n
}

// Whether a seat holds it and five board cards lie.
pub fn royal_now(t: Table) -> bool
    requires { is_game t.sheet.game ≡ true }
    ensures { result ≡ royal_now t }
{
    if t.board.count != 5 {
        return false;
    }
    let cs = t.chairs;
    let b = t.board;
    0 < royal_seats(t.sheet.game, b, cs)
}
