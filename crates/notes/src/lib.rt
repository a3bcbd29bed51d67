// What the page keeps between two blocks: a few numbers for each seat, and sums. `entries` says what an entry does to it.
#![tactic(auto)]

ghost use Rattle.std.specs.Prelude.{◌≡◌, map, get_or, set, Some};
ghost use Rattle.accounts.specs.Sums.{nobody};
ghost use Rattle.chairs.specs.Chairs.{round_of, is_here};
ghost use Rattle.notes.specs.Notes.{no_rounds, no_notes, place_of, account_at, with_account, with_end, stack_of, rounds_with, rounds_noted, rounds_at, settled_of, settle_all, account_now, sums_with, sums_now, lies_in};

use accounts::{Account, Charges, Sums};
use chairs::Chair;
use table::table::Table;

pub mod entries;

// What each seat put in by round: before the flop, flop, turn, river.
#[derive(Clone, Copy)]
pub struct Rounds {
    pub first: [u32; 10],
    pub flop: [u32; 10],
    pub turn: [u32; 10],
    pub river: [u32; 10],
}

// How a hand ended before its settle.
#[derive(Clone, Copy)]
pub enum Ending {
    Folded,
    Dead,
}

// What is kept between two blocks: how many hands were opened; whether refused blocks are being folded away; of the open hand each seat's stack before, what it put in by
// round, and how its hand ended; the blocks by code, what hands were charged, the sums over the sittings that left, and each seat's account.
#[derive(Clone, Copy)]
pub struct Notes {
    pub hands: u64,
    pub refusing: bool,
    pub before: [u32; 10],
    pub rounds: Rounds,
    pub ended: [Option<Ending>; 10],
    pub codes: [u64; 13],
    pub charges: Charges,
    pub gone: Sums,
    pub accounts: [Account; 10],
}

pub fn no_notes() -> Notes
    ensures { result ≡ no_notes }
{
    Notes {
        hands: 0,
        refusing: false,
        before: [0; 10],
        rounds: Rounds::none(),
        ended: [None; 10],
        codes: [0; 13],
        charges: Charges::none(),
        gone: Sums::none(),
        accounts: [Account::nobody(); 10],
    }
}

// The place of a seat in ten, 10 where there is no such seat: a number, as in the definition `place_of`, since `set` and `get_or` past the end change nothing.
#[tactic(auto, unfolding(crate::specs::Notes::place_of))]
pub fn place_of(seat: u32) -> usize
    ensures { result ≡ place_of seat }
{
    if seat == 0 || 10 < seat {
        return 10;
    }
    (seat - 1) as usize
}

impl Rounds {
    fn none() -> Rounds
        ensures { result ≡ no_rounds }
    {
        Rounds {
            first: [0; 10],
            flop: [0; 10],
            turn: [0; 10],
            river: [0; 10],
        }
    }

    // The rounds with that of the round which is played while so many board cards lie.
    #[tactic(auto, unfolding(crate::specs::Notes::rounds_with))]
    fn with(self, count: u8, now: [u32; 10]) -> Rounds
        ensures { result ≡ rounds_with self count now }
    {
        match count {
            0..=2 => Rounds { first: now, ..self },
            3 => Rounds { flop: now, ..self },
            4 => Rounds { turn: now, ..self },
            _ => Rounds { river: now, ..self },
        }
    }

    // What a place has put in, round by round.
    #[tactic(auto, unfolding(crate::specs::Notes::rounds_at))]
    pub fn at(&self, i: usize) -> [u32; 4]
        ensures { result ≡ rounds_at self.now i }
    {
        [
            at(&self.first, i),
            at(&self.flop, i),
            at(&self.turn, i),
            at(&self.river, i),
        ]
    }
}

// The number at a place; 0 where there is none.
fn at(row: &[u32; 10], i: usize) -> u32
    ensures { result ≡ get_or row.now i 0 }
{
    row.get(i).copied().unwrap_or(0)
}

// The stacks at the opening.
fn stacks_of(cs: [Chair; 10]) -> [u32; 10]
    ensures { result ≡ map stack_of cs }
{
    cs.map(|c| c.stack)
}

// What every seat has put in since the round opened.
fn round_totals(cs: [Chair; 10]) -> [u32; 10]
    ensures { result ≡ map round_of cs }
{
    cs.map(|c| chairs::round_of(c))
}

// Whether a sitting was dealt in and is still there.
fn here(c: Chair) -> bool
    ensures { result ≡ is_here c }
{
    0 < c.dealt.sitting && c.sitting == c.dealt.sitting
}

// What a settled hand does to an account: of a sitting that is still there, what it put in and what it is paid.
#[tactic(auto, unfolding(crate::specs::Notes::settled_of))]
fn settled_account(a: Account, c: Chair, paid: u32) -> Account
    ensures { result ≡ settled_of a c paid }
{
    if here(c) {
        return a.with_put(c.dealt.total).with_paid(paid);
    }
    a
}

fn settle_all(accounts: [Account; 10], cs: [Chair; 10], paid: [u32; 10]) -> [Account; 10]
    ensures { result ≡ settle_all accounts cs paid }
{
    let mut all = accounts;
    for i in 0..10 {
        let b = settled_account(all[i], cs[i], paid[i]);
        all[i] = b;
    }
    all
}

// What lies in the open hand.
pub fn lies_in(cs: &[Chair; 10]) -> u64
    ensures { result ≡ lies_in cs.now }
{
    let mut n = 0;
    for c in cs {
        n += u64::from(c.dealt.total);
    }
    n
}

impl Notes {
    pub fn account_at(&self, i: usize) -> Account
        ensures { result ≡ account_at self.now i }
    {
        self.accounts.get(i).copied().unwrap_or(Account::nobody())
    }

    // The notes with another account at a place.
    fn with_account(self, i: usize, a: Account) -> Notes
        ensures { result ≡ with_account self i a }
    {
        let mut notes = self;
        if i < 10 {
            notes.accounts[i] = a;
        }
        notes
    }

    // The notes with how the hand of a place ended.
    fn with_end(self, i: usize, how: Ending) -> Notes
        ensures { result ≡ with_end self i how }
    {
        let mut notes = self;
        if i < 10 {
            notes.ended[i] = Some(how);
        }
        notes
    }

    // The notes with what every seat has put in since the round opened.
    #[tactic(auto, unfolding(crate::specs::Notes::rounds_noted))]
    pub fn rounds_noted(self, t: &Table) -> Notes
        ensures { result ≡ rounds_noted self t.now }
    {
        let now = round_totals(t.chairs);
        Notes {
            rounds: self.rounds.with(t.board.count, now),
            ..self
        }
    }

    // What the sitting of a chair has brought, put in, the open hand too, and been paid.
    #[tactic(auto, unfolding(crate::specs::Notes::account_now))]
    pub fn account_now(&self, c: Chair, i: usize) -> Account
        ensures { result ≡ account_now self.now c i }
    {
        let a = self.account_at(i);
        if here(c) {
            return a.with_put(c.dealt.total);
        }
        a
    }

    // The sums with the sitting of a chair, where somebody sits.
    #[tactic(auto, unfolding(crate::specs::Notes::sums_with))]
    fn sums_with(&self, s: Sums, c: Chair, i: usize) -> Sums
        ensures { result ≡ sums_with s self.now c i }
    {
        if c.sitting == 0 {
            return s;
        }
        s.with_account(self.account_now(c, i), c.stack)
    }

    // The sums over all sittings: those that left, and those that are still there.
    pub fn sums_now(&self, cs: &[Chair; 10]) -> Sums
        ensures { result ≡ sums_now self.now cs.now }
    {
        let mut s = self.gone;
        for (i, c) in cs.iter().enumerate() {
            s = self.sums_with(s, *c, i);
        }
        s
    }
}
