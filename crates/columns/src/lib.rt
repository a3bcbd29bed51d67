// The numbers of the picture of a hand's chips: a column for each sitting, its chips one above the other; up to which height each pot reaches, how many of a
// sitting's chips lie in it and how many go back; and how high a chip is drawn. Over the totals and the contenders' masks of crate `pots`.
#![tactic(auto)]

ghost use Rattle.std.specs.Prelude.{◌≡◌, ◌%◌, min, max, eqb};
ghost use Rattle.laws.specs.Lists.{max_of};
ghost use Rattle.laws.specs.Tests.{pick};
ghost use Rattle.columns.specs.Columns.{least_among, reach_of, slab_of, drawn_of, in_mask, best_among, wins_of};

// A height of chips is drawn so high where it is that of the highest column, in tenths of a pixel.
pub const DRAWN: u64 = 3000;

// The highest column.
pub fn tallest(totals: [u32; 10]) -> u32
    ensures { result ≡ max_of totals }
{
    pots::largest(totals)
}

// The smaller of a total and a bound where the mask's lowest bit is set, else the bound.
fn least_if(mask: u16, total: u32, bound: u32) -> u32
    ensures { result ≡ pick (eqb (mask % 2) 1) (min total bound) bound }
{
    if mask % 2 == 1 {
        return total.min(bound);
    }
    bound
}

// The lowest of a bound and the columns of the mask.
fn least_among(totals: [u32; 10], who: u16, bound: u32) -> u32
    ensures { result ≡ least_among bound totals who }
{
    let mut m = bound;
    let mut rest = who;
    for t in &totals {
        m = least_if(rest, *t, m);
        rest /= 2;
    }
    m
}

// Up to which height a pot with these contenders reaches: not above the second highest column, above which fewer than two sittings have a chip.
pub fn reach(totals: [u32; 10], who: u16) -> u32
    ensures { result ≡ reach_of totals who }
{
    least_among(totals, who, pots::second(totals))
}

// How many of a sitting's chips lie above one height and not above another.
pub fn slab(total: u32, low: u32, high: u32) -> u32
    ensures { result ≡ slab_of total low high }
{
    total.min(high).saturating_sub(total.min(low))
}

// How high so many chips are drawn, where so many more than none are the highest column.
pub fn height(chips: u32, most: u32) -> u64
    ensures { result ≡ drawn_of chips most }
{
    let whole = most.max(1);
    let part = chips.min(whole);
    u64::from(part) * DRAWN / u64::from(whole)
}

// Whether the seat at a place is in a mask.
pub fn in_mask(mask: u16, place: usize) -> bool
    ensures { result ≡ in_mask mask place }
{
    let mut rest = mask;
    for _i in 0..place {
        rest /= 2;
    }
    rest % 2 == 1
}

// A score where the mask's lowest bit is set, else the best one so far.
fn best_if(mask: u16, score: u32, best: u32) -> u32
    ensures { result ≡ pick (eqb (mask % 2) 1) (max score best) best }
{
    if mask % 2 == 1 {
        return score.max(best);
    }
    best
}

// The best score of the mask's seats.
fn best_among(scores: [u32; 10], who: u16) -> u32
    ensures { result ≡ best_among 0 scores who }
{
    let mut m: u32 = 0;
    let mut rest = who;
    for score in &scores {
        m = best_if(rest, *score, m);
        rest /= 2;
    }
    m
}

// Whether a contender has the best score of a pot's contenders.
pub fn wins(scores: [u32; 10], who: u16, place: usize, score: u32) -> bool
    ensures { result ≡ wins_of scores who place score }
{
    laws::both(in_mask(who, place), best_among(scores, who) == score)
}
