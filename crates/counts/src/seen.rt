// The counting: the cards as one mask, sixteen bits for each suit, and how many there are of each suit, in four digits of one number.
ghost use Rattle.std.specs.Prelude.{◌≡◌, List, [], ◌∷◌, ℕ, ◌+◌, ◌*◌, ◌/◌, ◌%◌, ◌^◌, ◌≤◌, leb};
ghost use Rattle.laws.specs.Tests.{pick};
ghost use Rattle.cards.specs.Cards.{suit};
ghost use Rattle.counts.specs.Kept.{place_of, Seven, Sees, Shows};

use crate::masks::Masks;

#[derive(Clone, Copy)]
pub struct Seen {
    pub held: u64,
    pub suits: u64,
}

pub(crate) fn unseen() -> Seen
    ensures is { Sees [] result }
    ensures small { result.suits ≡ 0 }
{
    Seen { held: 0, suits: 0 }
}

// One of the card's suit.
fn unit_of(c: u8) -> u64
    ensures is { result ≡ 2 ^ (suit c * 16) }
    ensures small { result ≤ 281474976710656 }
{
    1u64 << (c % 4 * 16)
}

// The card's bit.
fn bit_of(c: u8) -> u64
    requires { c ≤ 51 }
    ensures { result ≡ 2 ^ place_of c }
{
    1u64 << (c % 4 * 16 + c / 4 + 2)
}

// One card more.
pub(crate) fn see(n: Seen, c: u8) -> Seen
    requires { (c ≤ 51) × (n.suits ≤ 1688849860263936) }
    ensures is { (l : List ℕ) → Sees l n → Sees (c ∷ l) result }
    ensures small { result.suits ≤ n.suits + 281474976710656 }
{
    Seen {
        held: n.held | bit_of(c),
        suits: n.suits + unit_of(c),
    }
}

// The ranks of the suit of which there are five cards or more; none where there is no such suit.
fn flush_of(suits: u64, a: u64, b: u64, c: u64, d: u64) -> u64
    ensures { result ≡ pick (leb 5 (suits % 65536)) a (pick (leb 5 (suits / 65536 % 65536)) b (pick (leb 5 (suits / 4294967296 % 65536)) c (pick (leb 5 (suits / 281474976710656)) d 0))) }
{
    if 5 <= suits % 65536 {
        return a;
    }
    if 5 <= suits / 65536 % 65536 {
        return b;
    }
    if 5 <= suits / 4294967296 % 65536 {
        return c;
    }
    if 5 <= suits / 281474976710656 { d } else { 0 }
}

// What the cards of each suit say together: which ranks are held how often.
pub(crate) fn masks_of(n: Seen) -> Masks
    ensures { (l : List ℕ) → Sees l n → Seven l → Shows l result }
{
    let a = n.held % 65536;
    let b = n.held / 65536 % 65536;
    let c = n.held / 4294967296 % 65536;
    let d = n.held / 281474976710656;
    Masks {
        flush: flush_of(n.suits, a, b, c, d),
        once: a | b | (c | d),
        twice: a & b | c & d | (a | b) & (c | d),
        thrice: a & b & (c | d) | c & d & (a | b),
        fourfold: a & b & (c & d),
    }
}
