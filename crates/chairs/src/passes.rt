// What one rule needs of all chairs, over the table's seats: two counts, two columns with two masks, a count and a first seat; and the chairs of a new
// hand. The passes that these and `seats` are made of take what is asked of a chair as a closure.
ghost use Rattle.std.specs.Prelude.{◌≡◌, ℕ, ◌-◌, ◌≤◌, ◌<◌, ◌++◌, Bool, length, map, replicate};
ghost use Rattle.std.specs.Fn.{FnReturnsAt};
ghost use Rattle.laws.specs.Tests.{one};
ghost use Rattle.pots.specs.Heights.{mask_at};
ghost use Rattle.chairs.specs.Who.{Live, Chips, Holding, Bare};
ghost use Rattle.chairs.specs.What.{Total, Sitting, Here, Live as OfLive};
ghost use Rattle.chairs.specs.Sweep.{Deal};
ghost use Rattle.chairs.specs.Chairs.{want_of, sweep_of, column_of, put_at, count_of, first_of, clockwise, Seats};

use crate::{Chair, seats};

// How many chairs are as asked.
pub(crate) fn count<F: Fn(&Chair) -> bool>(cs: &[Chair], asked: F) -> u32
    requires few { length cs.now ≤ 10 }
    requires callable { F.IsAlwaysCallable asked }
    ensures { (p : Chair → Bool) → ((c : Chair) (r : Bool) → FnReturnsAt F.Fn asked c r → r ≡ p c) → result ≡ count_of p cs.now }
{
    let mut n: u32 = 0;
    for c in cs {
        if asked(c) {
            n += 1;
        }
    }
    n
}

// Which chairs are as asked, as a mask: 1 stands for the first chair.
pub(crate) fn mask<F: Fn(&Chair) -> bool>(cs: &[Chair], asked: F) -> u16
    requires few { length cs.now ≤ 10 }
    requires callable { F.IsAlwaysCallable asked }
    ensures { (f : Chair → ℕ) → ((c : Chair) (r : Bool) → FnReturnsAt F.Fn asked c r → one r ≡ f c) → result ≡ mask_at (map f cs.now) 1 }
{
    let mut m: u16 = 0;
    // From the last chair to the first, since each doubles what is behind it.
    for i in (0..cs.len()).rev() {
        m = u16::from(asked(&cs[i])) + 2 * m;
    }
    m
}

// What is read off each chair, and 0 in each place behind them.
pub(crate) fn column<F: Fn(&Chair) -> u32>(cs: &[Chair], read: F) -> [u32; 10]
    requires few { length cs.now ≤ 10 }
    requires callable { F.IsAlwaysCallable read }
    ensures { (f : Chair → ℕ) → ((c : Chair) (r : ℕ) → FnReturnsAt F.Fn read c r → r ≡ f c) → result ≡ map f cs.now ++ replicate (10 - length cs.now) 0 }
{
    let mut column = [0u32; 10];
    for (i, c) in cs.iter().enumerate() {
        column[i] = read(c);
    }
    column
}

// Every chair becomes what the closure makes of it.
pub fn sweep<F: Fn(Chair) -> Chair>(cs: &mut [Chair], becomes: F)
    requires { F.IsAlwaysCallable becomes }
    ensures { (f : Chair → Chair) → ((c d : Chair) → F.post becomes c d → d ≡ f c) → cs.new ≡ map f cs.old }
{
    for c in cs.iter_mut() {
        *c = becomes(*c);
    }
}

// How many hands are live, and for how many of those not all cards were entered.
#[derive(Clone, Copy)]
pub struct ShowCount {
    pub hands: u32,
    pub bare: u32,
}

// What a settle asks for.
pub fn shows(cs: [Chair; 10], seats: u32, game: u32) -> ShowCount
    requires { Seats seats cs }
    ensures { (result.hands ≡ count_of (want_of Live) cs) × (result.bare ≡ count_of (want_of (Bare game)) cs) }
{
    let at = &cs[..seats as usize];
    ShowCount {
        hands: count(at, |c| c.dealt.live),
        bare: count(at, |c| c.bare(game)),
    }
}

// How many hands are live, and for how many hands a card was entered.
#[derive(Clone, Copy)]
pub struct CardCount {
    pub hands: u32,
    pub holders: u32,
}

// What a board card asks for.
pub fn board_look(cs: [Chair; 10], seats: u32, card: u32) -> CardCount
    requires { Seats seats cs }
    ensures { (result.hands ≡ count_of (want_of Live) cs) × (result.holders ≡ count_of (want_of (Holding card)) cs) }
{
    let at = &cs[..seats as usize];
    CardCount {
        hands: count(at, |c| c.dealt.live),
        holders: count(at, |c| c.holds(card)),
    }
}

// Of each sitting dealt in what it has put in and its number; and as masks which hands are live and which sittings are still there.
#[derive(Clone, Copy)]
pub struct HandRows {
    pub totals: [u32; 10],
    pub sittings: [u32; 10],
    pub live: u16,
    pub here: u16,
}

// What a payout goes by.
pub fn rows(cs: [Chair; 10], seats: u32) -> HandRows
    requires { Seats seats cs }
    ensures { (result.totals ≡ map (column_of Total) cs) × (result.sittings ≡ map (column_of Sitting) cs) × (result.live ≡ mask_at (map (column_of OfLive) cs) 1) × (result.here ≡ mask_at (map (column_of Here) cs) 1) }
{
    let at = &cs[..seats as usize];
    HandRows {
        totals: column(at, |c| c.dealt.total),
        sittings: column(at, |c| c.dealt.sitting),
        live: mask(at, |c| c.dealt.live),
        here: mask(at, |c| c.here()),
    }
}

// How many seats hold chips, and the first of them clockwise from a seat; 0 where there is none.
#[derive(Clone, Copy)]
pub struct Stacked {
    pub count: u32,
    pub next: u32,
}

// Who can be dealt in.
pub fn chip_seats(cs: [Chair; 10], seats: u32, s: u32) -> Stacked
    requires { Seats seats cs × (s ≤ seats) }
    ensures { (result.count ≡ count_of (want_of Chips) cs) × (result.next ≡ first_of (want_of Chips) cs (clockwise seats s)) }
{
    Stacked {
        count: count(&cs[..seats as usize], |c| 0 < c.stack),
        next: seats::first_from(&cs, seats, s, |c| 0 < c.stack),
    }
}

// Two chairs of a new hand, and their seats: those that post.
#[derive(Clone, Copy)]
pub struct Dealing {
    pub seat: u32,
    pub chair: Chair,
    pub other: u32,
    pub second: Chair,
}

// Everybody is dealt in, and two chairs are put down.
pub fn deal_all(cs: [Chair; 10], seats: u32, x: Dealing) -> [Chair; 10]
    requires { Seats seats cs × (0 < x.seat) × (x.seat ≤ 10) × (0 < x.other) × (x.other ≤ 10) }
    ensures { result ≡ put_at (put_at (map (sweep_of Deal) cs) x.seat x.chair) x.other x.second }
{
    let mut ds = cs;
    sweep(&mut ds[..seats as usize], |c| c.dealt_in());
    ds[(x.seat - 1) as usize] = x.chair;
    ds[(x.other - 1) as usize] = x.second;
    ds
}
