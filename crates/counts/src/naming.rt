// Document 01, "Hand order", by counting: the class and the five ranks that the counts name, in the order of the classes.
ghost use Rattle.std.specs.Prelude.{◌≡◌, [], ◌∷◌, ◌<◌};
ghost use Rattle.cards.specs.Hands.{hand};
ghost use Rattle.counts.specs.HandOrder.{leaving, rowed, low_named, named};
ghost use Rattle.counts.specs.Kept.{ranks_in, shown, Short, AllShort};

use crate::masks::{Masks, less, row_foot, top};
use cards::Hand;
use laws::both;

// The five ranks in a row down to k.
fn row_hand(class: u8, k: u8) -> Hand
    requires { k < 15 }
    ensures { result ≡ hand class (rowed k) }
{
    Hand {
        class,
        r1: k + 4,
        r2: k + 3,
        r3: k + 2,
        r4: k + 1,
        r5: k,
    }
}

// The five highest ranks.
fn five_highest(class: u8, m: u64) -> Hand
    requires { Short m }
    ensures { result ≡ hand class (ranks_in m) }
{
    let a = top(m);
    let n = less(m, a);
    let b = top(n);
    let o = less(n, b);
    let c = top(o);
    let p = less(o, c);
    let d = top(p);
    Hand {
        class,
        r1: a,
        r2: b,
        r3: c,
        r4: d,
        r5: top(less(p, d)),
    }
}

// Four of a rank, and the highest other.
fn four_hand(f: u8, once: u64) -> Hand
    requires { (f < 15) × Short once }
    ensures { result ≡ hand 1 (f ∷ f ∷ f ∷ f ∷ leaving f (ranks_in once)) }
{
    Hand {
        class: 1,
        r1: f,
        r2: f,
        r3: f,
        r4: f,
        r5: top(less(once, f)),
    }
}

fn full_hand(t: u8, p: u8) -> Hand
    ensures { result ≡ hand 2 (t ∷ t ∷ t ∷ p ∷ p ∷ []) }
{
    Hand {
        class: 2,
        r1: t,
        r2: t,
        r3: t,
        r4: p,
        r5: p,
    }
}

// Three of a rank, and the two highest others.
fn three_hand(t: u8, once: u64) -> Hand
    requires { (t < 15) × Short once }
    ensures { result ≡ hand 5 (t ∷ t ∷ t ∷ leaving t (ranks_in once)) }
{
    let m = less(once, t);
    let a = top(m);
    Hand {
        class: 5,
        r1: t,
        r2: t,
        r3: t,
        r4: a,
        r5: top(less(m, a)),
    }
}

// Two pair, and the highest other rank.
fn two_pair_hand(p: u8, q: u8, once: u64) -> Hand
    requires { (p < 15) × (q < 15) × Short once }
    ensures { result ≡ hand 6 (p ∷ p ∷ q ∷ q ∷ leaving q (leaving p (ranks_in once))) }
{
    Hand {
        class: 6,
        r1: p,
        r2: p,
        r3: q,
        r4: q,
        r5: top(less(less(once, p), q)),
    }
}

// A pair, and the three highest other ranks.
fn pair_hand(p: u8, once: u64) -> Hand
    requires { (p < 15) × Short once }
    ensures { result ≡ hand 7 (p ∷ p ∷ leaving p (ranks_in once)) }
{
    let m = less(once, p);
    let a = top(m);
    let n = less(m, a);
    let b = top(n);
    Hand {
        class: 7,
        r1: p,
        r2: p,
        r3: a,
        r4: b,
        r5: top(less(n, b)),
    }
}

// The four lowest classes: three, two pair, pair, five odd cards.
fn low_name(m: Masks) -> Hand
    requires { AllShort m }
    ensures { result ≡ low_named (shown m) }
{
    let t = top(m.thrice);
    let p = top(m.twice);
    let q = top(less(m.twice, p));
    if 0 < t {
        return three_hand(t, m.once);
    }
    if 0 < q {
        return two_pair_hand(p, q, m.once);
    }
    if 0 < p {
        return pair_hand(p, m.once);
    }
    five_highest(8, m.once)
}

// The first class, from high to low, of which there is a hand.
pub(crate) fn name(m: Masks) -> Hand
    requires { AllShort m }
    ensures { result ≡ named (shown m) }
{
    let k = row_foot(m.flush);
    if 0 < k {
        return row_hand(0, k);
    }
    let f = top(m.fourfold);
    if 0 < f {
        return four_hand(f, m.once);
    }
    let t = top(m.thrice);
    let p = top(less(m.twice, t));
    if both(0 < t, 0 < p) {
        return full_hand(t, p);
    }
    if 0 < top(m.flush) {
        return five_highest(3, m.flush);
    }
    let j = row_foot(m.once);
    if 0 < j {
        return row_hand(4, j);
    }
    low_name(m)
}
