// The stored log read afresh: every entry taken again at a new table, one of them replaced; and the index of the hands written anew.
#![tactic(auto)]

ghost use Rattle.std.specs.Prelude.{◌≡◌, true, map, ◌≤◌, ◌<◌};
ghost use Rattle.paper.specs.Paper.{is_sheet};
ghost use Rattle.table.specs.Take.{Sound};
ghost use Rattle.records.specs.Stored.{entry_in};
ghost use Rattle.fresh.specs.Reading.{begun_of, played_of, replacing, played_to, entry_or, read_to, stack_of, is_hand, rowed_of, index_after, rowed_by, index_by, index_to};

use chairs::Chair;
use paper::{Entry, Sheet, TAKEN, numbers_of};
use records::{NO_RECORD, Reader, Record, entry_by, entry_in, put_row};
use table::table::Table;
use table::take::new_table;

// The table after some entries, and whether each of them was taken.
#[derive(Clone, Copy)]
pub struct Played {
    pub table: Table,
    pub ok: bool,
}

// Before the first entry.
fn begun(sheet: Sheet) -> Played
    requires { is_sheet sheet ≡ true }
    ensures { (result ≡ begun_of sheet) × Sound result.table }
{
    let t = new_table(sheet);
    Played { table: t, ok: true }
}

// One entry more, the n-th.
fn play_on(p: Played, n: u32, e: Entry) -> Played
    requires { Sound p.table }
    ensures { (result ≡ played_of p n e) × Sound result.table }
{
    let t = p.table;
    let k = t.take(n, e);
    let u = k.table;
    Played {
        table: u,
        ok: laws::both(p.ok, k.code == TAKEN),
    }
}

// The entry of a record, or e where it is the replaced one.
fn entry_or(k: u32, at: u32, e: Entry, got: Record) -> Entry
    ensures { result ≡ entry_or k at e got }
{
    if k == at {
        return e;
    }
    entry_by(got)
}

// The first `count` records of a stored log, one after another as its reader comes to them.
fn read_on(start: Played, log: &[u8], count: u32, at: u32, e: Entry) -> Played
    requires { Sound start.table }
    ensures { (result ≡ read_to start log.now at e count) × Sound result.table }
{
    let mut reader = Reader::new(log);
    let mut p = start;
    for k in 0..count {
        let got = reader.next().unwrap_or(NO_RECORD);
        p = play_on(p, k + 1, entry_or(k, at, e, got));
    }
    p
}

// The first `count` entries of a stored log, with e in the place of the entry at `at`, taken one after another at a new table.
pub fn replay(sheet: Sheet, log: &[u8], count: u32, at: u32, e: Entry) -> Played
    requires { is_sheet sheet ≡ true }
    ensures { (result ≡ played_to sheet (replacing at e (entry_in log.now)) count) × Sound result.table }
{
    read_on(begun(sheet), log, count, at, e)
}

// ---- the index

// Each seat's stack, 0 where nobody sits.
pub fn stacks_of(cs: [Chair; 10]) -> [u32; 10]
    ensures { result ≡ map stack_of cs }
{
    cs.map(|c| c.stack)
}

// Whether an entry opens a hand.
pub fn is_hand(e: Entry) -> bool
    ensures { result ≡ is_hand e }
{
    let x = numbers_of(e);
    x.kind == 2
}

// The table after some entries, and how many hands were opened.
#[derive(Clone, Copy)]
pub struct Rowed {
    pub table: Table,
    pub hands: u32,
}

// Where an entry opens a hand, its row is written: its number, and each stack before it. How many rows there are then.
pub fn put_row_if(index: &mut [u8], hands: u32, n: u32, hand: bool, cs: [Chair; 10]) -> u32
    requires { hands < 4000000 }
    ensures hands { result ≡ rowed_of hand hands }
    ensures index { index.new ≡ index_after hand hands n cs index.old }
{
    if hand {
        put_row(index, hands, n, stacks_of(cs));
        return hands + 1;
    }
    hands
}

// One stored entry more, the k-th counted from 0: its row, where it opens a hand, and the table after it.
fn row_one(p: Rowed, log: &[u8], k: u32, index: &mut [u8]) -> Rowed
    requires { Sound p.table × (p.hands ≤ k) × (k < 1000000) }
    ensures rowed { (result ≡ rowed_by p k (entry_in log.now k)) × Sound result.table }
    ensures index { index.new ≡ index_by p k (entry_in log.now k) index.old }
{
    let e = entry_in(log, k);
    let t = p.table;
    let done = t.take(k + 1, e);
    let u = done.table;
    let cs = t.chairs;
    let hands = put_row_if(index, p.hands, k + 1, is_hand(e), cs);
    Rowed { table: u, hands }
}

// The rows of the hands that the first `count` entries of a stored log open, each at its place.
pub fn write_rows(sheet: Sheet, log: &[u8], count: u32, index: &mut [u8])
    requires { (is_sheet sheet ≡ true) × (count ≤ 1000000) }
    ensures { index.new ≡ index_to sheet (entry_in log.now) count index.old }
{
    let t = new_table(sheet);
    let mut p = Rowed { table: t, hands: 0 };
    for k in 0..count {
        p = row_one(p, log, k, index);
    }
}
