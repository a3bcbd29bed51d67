// The chairs of a table: counts, the first seat clockwise, and what is read off or befalls every chair. Each goes over the table's seats: a chair
// above them is one that nobody ever had, and adds nothing.
ghost use Rattle.std.specs.Prelude.{◌≡◌, ℕ, ◌+◌, ◌≤◌, ◌<◌, Bool, leb, get_or, map};
ghost use Rattle.std.specs.Fn.{FnReturnsAt};
ghost use Rattle.laws.specs.Tests.{pick};
ghost use Rattle.pots.specs.Heights.{mask_at};
ghost use Rattle.chairs.specs.Who.{Live, LiveWithChips, Holding, Owing};
ghost use Rattle.chairs.specs.What.{Total, Live as OfLive};
ghost use Rattle.chairs.specs.Chairs.{want_of, column_of, no_chair, chair_at, put_at, count_of, chips_of, first_of, clockwise, close_all, Seats};

use crate::Chair;
use crate::passes::{column, count, mask};

// How many hands are live.
pub fn lives(cs: [Chair; 10], seats: u32) -> u32
    requires { Seats seats cs }
    ensures { result ≡ count_of (want_of Live) cs }
{
    count(&cs[..seats as usize], |c| c.dealt.live)
}

// How many hands one card was entered for, and how many another.
#[derive(Clone, Copy)]
pub struct HolderCount {
    pub first: u32,
    pub second: u32,
}

// Both counts, since hole cards come by two.
pub fn holders(cs: [Chair; 10], seats: u32, a: u32, b: u32) -> HolderCount
    requires { Seats seats cs }
    ensures { (result.first ≡ count_of (want_of (Holding a)) cs) × (result.second ≡ count_of (want_of (Holding b)) cs) }
{
    let at = &cs[..seats as usize];
    HolderCount {
        first: count(at, |c| c.holds(a)),
        second: count(at, |c| c.holds(b)),
    }
}

// The chair of a seat; a chair that nobody ever had for a seat that is not there.
pub fn chair_at(cs: [Chair; 10], s: u32) -> Chair
    ensures { result ≡ chair_at cs s }
{
    if s == 0 {
        return crate::no_chair();
    }
    if 10 < s {
        return crate::no_chair();
    }
    let i = (s - 1) as usize;
    cs[i]
}

// The chairs with another at a seat.
pub fn put_chair(cs: [Chair; 10], s: u32, c: Chair) -> [Chair; 10]
    ensures { result ≡ put_at cs s c }
{
    if s == 0 {
        return cs;
    }
    if 10 < s {
        return cs;
    }
    let mut next = cs;
    let i = (s - 1) as usize;
    next[i] = c;
    next
}

// The place of the k-th seat clockwise from s, from 0.
fn place_on(s: u32, k: u32, seats: u32) -> usize
    requires { (s ≤ seats) × (k < seats) × (seats ≤ 10) }
    ensures { (result + 1 ≡ get_or (clockwise seats s) k 0) × (result < seats) }
{
    let at = s + k;
    if at < seats {
        at as usize
    } else {
        (at - seats) as usize
    }
}

// The first seat clockwise from s, which comes last, whose chair is as asked; 0 where there is none.
pub(crate) fn first_from<F: Fn(&Chair) -> bool>(
    cs: &[Chair; 10],
    seats: u32,
    s: u32,
    asked: F,
) -> u32
    requires within { (s ≤ seats) × (seats ≤ 10) }
    requires callable { F.IsAlwaysCallable asked }
    ensures { (p : Chair → Bool) → ((c : Chair) (r : Bool) → FnReturnsAt F.Fn asked c r → r ≡ p c) → result ≡ first_of p cs.now (clockwise seats s) }
{
    for k in 0..seats {
        let i = place_on(s, k, seats);
        if asked(&cs[i]) {
            return i as u32 + 1;
        }
    }
    0
}

// The first seat clockwise from s, which comes last, that owes; 0 where there is none, or fewer than two hands are live.
pub fn turn_from(cs: &[Chair; 10], seats: u32, mark: u32, s: u32) -> u32
    requires { Seats seats cs.now × (s ≤ seats) }
    ensures { result ≡ pick (leb 2 (count_of (want_of Live) cs.now)) (first_of (want_of (Owing mark (leb (count_of (want_of LiveWithChips) cs.now) 1))) cs.now (clockwise seats s)) 0 }
{
    let at = &cs[..seats as usize];
    if count(at, |c| c.dealt.live) < 2 {
        return 0;
    }
    let alone = count(at, |c| c.live_with_chips()) <= 1;
    first_from(cs, seats, s, |c| c.owes(mark, alone))
}

// All chips: the stacks and what lies in the open hand.
pub fn chips(cs: [Chair; 10], seats: u32) -> u64
    requires { Seats seats cs }
    ensures { result ≡ chips_of cs }
{
    let mut n: u64 = 0;
    for c in &cs[..seats as usize] {
        n += c.stack as u64 + c.dealt.total as u64;
    }
    n
}

// What a clerk finds the pots from: what each sitting dealt in has put in, and which hands are live, as a mask.
#[derive(Clone, Copy)]
pub struct PutIn {
    pub totals: [u32; 10],
    pub live: u16,
}

// Both, since whoever looks for the pots needs both.
pub fn put_in(cs: [Chair; 10], seats: u32) -> PutIn
    requires { Seats seats cs }
    ensures { (result.totals ≡ map (column_of Total) cs) × (result.live ≡ mask_at (map (column_of OfLive) cs) 1) }
{
    let at = &cs[..seats as usize];
    PutIn {
        totals: column(at, |c| c.dealt.total),
        live: mask(at, |c| c.dealt.live),
    }
}

// The hand is closed at every chair; nothing is paid above the seats.
pub fn close_all(cs: [Chair; 10], seats: u32, paid: [u32; 10]) -> [Chair; 10]
    requires { Seats seats cs × ((i : ℕ) → seats ≤ i → get_or paid i 0 ≡ 0) × ((i : ℕ) → (get_or cs i no_chair).stack + get_or paid i 0 ≤ 4000000000) }
    ensures { result ≡ close_all cs paid }
{
    let mut ds = cs;
    for (i, c) in ds[..seats as usize].iter_mut().enumerate() {
        *c = c.closed(paid[i]);
    }
    ds
}
