// The jackpot pool that two tables feed (request No. 7): what fits of a hand's drop, what of it goes to the house, and who wins the pool.
// The cage pays what is won: no table's stacks are looked at here.
#![tactic(auto)]

ghost use Rattle.std.specs.Prelude.{◌≡◌};
ghost use Rattle.pool.specs.Jackpot.{fits_in, house_of, fed_by, settled_pool, opened_with};

use laws::{chosen, least, short_of};
use paper::{BAD_SHEET, when};

// The most that the pool may hold: nine digits.
pub const MOST: u32 = 999999999;

#[derive(Clone, Copy)]
pub struct Pool {
    pub held: u32,
}

// A settled hand of a table that shares the pool: what it drops, and whether a seat of it holds the royal flush that wins.
#[derive(Clone, Copy)]
pub struct Hand {
    pub drop: u32,
    pub royal: bool,
}

// The pool after a hand, what the hand wins of it, and what of its drop went to the house.
#[derive(Clone, Copy)]
pub struct Settled {
    pub pool: Pool,
    pub jackpot: u32,
    pub house: u32,
}

// The code of an opening, and the pool that it opens: an empty one where it is refused.
#[derive(Clone, Copy)]
pub struct PoolOpened {
    pub code: u8,
    pub pool: Pool,
}

// What fits of a drop.
fn what_fits(p: Pool, drop: u32) -> u32
    ensures { result ≡ fits_in p.held drop }
{
    least(drop, short_of(MOST, p.held))
}

// What the pool holds with the drop.
fn fed(p: Pool, drop: u32) -> u32
    ensures { result ≡ fed_by p.held drop }
{
    p.held + what_fits(p, drop)
}

// The part of a drop that doesn't fit.
fn to_house(p: Pool, drop: u32) -> u32
    ensures { result ≡ house_of p.held drop }
{
    short_of(drop, what_fits(p, drop))
}

// The pool after a hand: first the drop, then the win of the whole pool.
pub fn settled_pool(p: Pool, h: Hand) -> Settled
    ensures { result ≡ settled_pool p h }
{
    let full = fed(p, h.drop);
    let jackpot = chosen(h.royal, full, 0);
    let after = Pool {
        held: short_of(full, jackpot),
    };
    Settled {
        pool: after,
        jackpot,
        house: to_house(p, h.drop),
    }
}

// The pool as an evening opens it.
pub fn open_pool(held: u32) -> PoolOpened
    ensures { result ≡ opened_with held }
{
    let over = MOST < held;
    let pool = Pool {
        held: chosen(over, 0, held),
    };
    PoolOpened {
        code: when(over, BAD_SHEET),
        pool,
    }
}
