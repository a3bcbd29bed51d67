// What is known of one seat in a word, and the least wager of the seat in turn.
ghost use Rattle.std.specs.Prelude.{◌≡◌, ◌+◌, ◌≤◌};
ghost use Rattle.chairs.specs.Chairs.{is_here};
ghost use Rattle.table.specs.Take.{Sound};
ghost use Rattle.seen.specs.Seats.{word_of, least_for, least_wager};

use chairs::Chair;
use laws::{both, chosen};
use table::table::{Play, Table};

// The words, by their places.
pub const EMPTY: u32 = 0;

pub const LEFT: u32 = 1;

pub const WAITS: u32 = 2;

pub const NO_CHIPS: u32 = 3;

pub const LIVE: u32 = 4;

pub const ALL_IN: u32 = 5;

pub const FOLDED: u32 = 6;

pub const DEAD: u32 = 7;

// How many words there are.
pub const WORDS: usize = 8;

// Whether a sitting was dealt in here and still sits here.
pub fn here(c: Chair) -> bool
    ensures { result ≡ is_here c }
{
    both(0 < c.dealt.sitting, c.sitting == c.dealt.sitting)
}

// The word for a seat: of whoever sits there now; of an empty one whether a sitting that was dealt in has left.
pub fn word(c: Chair, dead: bool) -> u32
    ensures { result ≡ word_of dead c }
{
    let live = chosen(0 < c.stack, LIVE, ALL_IN);
    let playing = chosen(c.dealt.live, live, chosen(dead, DEAD, FOLDED));
    let seated = chosen(0 < c.stack, WAITS, NO_CHIPS);
    let gone = chosen(0 < c.dealt.sitting, LEFT, EMPTY);
    chosen(here(c), playing, chosen(0 < c.sitting, seated, gone))
}

// The least wager that a seat may make; 0 where it may make none.
fn least_for(p: Play, c: Chair) -> u32
    requires { c.stack + c.dealt.total ≤ 100000000 }
    ensures { result ≡ least_for p c }
{
    let all = chairs::round_of(c) + c.stack;
    if c.dealt.spent {
        return 0;
    }
    if all <= p.mark {
        return 0;
    }
    let full = laws::sum(p.mark, p.lift);
    if full < all as u64 {
        return full as u32;
    }
    all
}

// The least wager of the seat in turn; 0 where there is none.
pub fn least_wager(t: Table) -> u32
    requires { Sound t }
    ensures { result ≡ least_wager t }
{
    let cs = t.chairs;
    let c = chairs::seats::chair_at(cs, t.play.turn);
    least_for(t.play, c)
}
