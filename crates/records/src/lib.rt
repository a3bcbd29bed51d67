// The stored log and its index in lent buffers: an entry's record of 8 bytes, a hand's row of 44, each at its place and with all other bytes as they were;
// and a reader of the stored log, which holds it with its place.
#![tactic(auto)]

ghost use Rattle.std.specs.Prelude.{◌≡◌, ◌+◌, ◌-◌, ◌*◌, ◌%◌, ◌≤◌, length};
ghost use Rattle.writing.specs.AnswerSheet.{Wrote};
ghost use Rattle.records.specs.Bytes.{word_bytes, words_bytes};
ghost use Rattle.records.specs.Stored.{record_at, record_in, entry_by, entry_in, record_bytes, put_record, row_bytes, put_row};
ghost use Rattle.records.specs.Reading.{after, moved_to, later_of, last_hand};

use blocks::entry_at;
use paper::{Entry, Numbers};
use writing::put_bytes;

// How many bytes a record takes, and a row.
pub const RECORD: usize = 8;

pub const ROW: usize = 44;

// A record as it is read at a place: the entry's kind and its three numbers.
#[derive(Clone, Copy)]
pub struct Record {
    pub kind: u8,
    pub seat: u8,
    pub b: u8,
    pub a: u32,
}

// What stands for a record where there is none.
pub const NO_RECORD: Record = Record {
    kind: 0,
    seat: 0,
    b: 0,
    a: 0,
};

// ---- bytes

fn low_byte(w: u32) -> u8
    ensures { result ≡ w % 256 }
{
    (w % 256) as u8
}

fn wide(x: u8) -> u32
    ensures { result ≡ x }
{
    x as u32
}

// The word of four bytes, the low one first.
pub fn four(a: u8, b: u8, c: u8, d: u8) -> u32
    ensures { result ≡ a + 256 * (b + 256 * (c + 256 * d)) }
{
    (a as u32) + 256 * ((b as u32) + 256 * ((c as u32) + 256 * (d as u32)))
}

// A word's four bytes at the front of a buffer.
pub fn put_word(buffer: &mut [u8], w: u32) -> usize
    requires { 4 ≤ length buffer.old }
    ensures { Wrote (word_bytes w) buffer.old buffer.new result }
{
    let bs = [
        low_byte(w),
        low_byte(w / 256),
        low_byte(w / 256 / 256),
        low_byte(w / 256 / 256 / 256),
    ];
    put_bytes(buffer, &bs)
}

// Ten words, each behind the last.
fn put_words(buffer: &mut [u8], ws: [u32; 10]) -> usize
    requires { 40 ≤ length buffer.old }
    ensures { Wrote (words_bytes ws) buffer.old buffer.new result }
{
    let mut at = 0;
    for w in &ws {
        at += put_word(&mut buffer[at..], *w);
    }
    at
}

// ---- an entry's record

// How many bytes are left from a place on.
fn left_of(log: &[u8], at: usize) -> usize
    ensures { result ≡ length log.now - at }
{
    if at < log.len() { log.len() - at } else { 0 }
}

// The record at a place, where eight bytes are left.
pub fn record_at(log: &[u8], at: usize) -> Option<Record>
    ensures { result ≡ record_at log.now at }
{
    let left = left_of(log, at);
    if left < RECORD {
        return None;
    }
    let w = at + 4;
    let a = four(log[w], log[w + 1], log[w + 2], log[w + 3]);
    Some(Record {
        kind: log[at],
        seat: log[at + 1],
        b: log[at + 2],
        a,
    })
}

// The k-th record of a log, counted from 0; all its numbers are 0 where there is none.
pub fn record_in(log: &[u8], k: u32) -> Record
    ensures { result ≡ record_in log.now k }
{
    record_at(log, 8 * (k as usize)).unwrap_or(NO_RECORD)
}

// The entry that a record has.
pub fn entry_by(r: Record) -> Entry
    ensures { result ≡ entry_by r }
{
    let k = r.kind as usize;
    if k < 12 {
        return entry_at(k, wide(r.seat), r.a, wide(r.b));
    }
    Entry::Void
}

// The k-th entry of a log, counted from 0.
pub fn entry_in(log: &[u8], k: u32) -> Entry
    ensures { result ≡ entry_in log.now k }
{
    entry_by(record_in(log, k))
}

// The bytes of an entry's record.
fn record_of(x: Numbers) -> [u8; 8]
    ensures { result ≡ record_bytes x }
{
    [
        low_byte(x.kind),
        low_byte(x.seat),
        low_byte(x.b),
        0,
        low_byte(x.a),
        low_byte(x.a / 256),
        low_byte(x.a / 256 / 256),
        low_byte(x.a / 256 / 256 / 256),
    ]
}

// The k-th record of a log, where there is room for it.
pub fn put_record(log: &mut [u8], k: u32, x: Numbers)
    ensures { log.new ≡ put_record log.old k x }
{
    let at = 8 * (k as usize);
    let bs = record_of(x);
    if at + RECORD <= log.len() {
        put_bytes(&mut log[at..], &bs);
    }
}

// ---- a hand's row

// A row's bytes at the front of a buffer: the number of the `hand` entry, then the ten stacks.
fn put_row_bytes(buffer: &mut [u8], n: u32, stacks: [u32; 10]) -> usize
    requires { 44 ≤ length buffer.old }
    ensures { Wrote (row_bytes n stacks) buffer.old buffer.new result }
{
    let a = put_word(buffer, n);
    a + put_words(&mut buffer[a..], stacks)
}

// The h-th row of an index, counted from 0, where there is room for it.
pub fn put_row(index: &mut [u8], h: u32, n: u32, stacks: [u32; 10])
    ensures { index.new ≡ put_row index.old h n stacks }
{
    let at = 44 * (h as usize);
    if at + ROW <= index.len() {
        put_row_bytes(&mut index[at..], n, stacks);
    }
}

// ---- a reader holds the stored log with its place

#[derive(Clone, Copy)]
pub struct Reader<'a> {
    pub log: &'a [u8],
    pub at: usize,
}

impl<'a> Reader<'a> {
    // At the log's start.
    pub fn new(log: &'a [u8]) -> Reader<'a>
        ensures { (result.log ≡ log.entry) × (result.at ≡ 0) }
    {
        Reader { log, at: 0 }
    }

    // The record at its place, behind which it then stands. Where there is none it stays.
    pub fn next(&mut self) -> Option<Record>
        ensures got { result ≡ record_at self.old.log.now self.old.at }
        ensures rest { self.new ≡ after self.old }
    {
        let got = record_at(self.log, self.at);
        if got.is_some() {
            self.at += RECORD;
        }
        got
    }

    // The same log at another place.
    pub fn moved(self, at: usize) -> Reader<'a>
        ensures { result ≡ moved_to self.entry at }
    {
        Reader { log: self.log, at }
    }
}

// The place behind the last `hand` record so far; the record r ends at the place `next`.
fn later(last: usize, next: usize, r: Record) -> usize
    ensures { result ≡ later_of last next r }
{
    if r.kind == 2 { next } else { last }
}

// The place behind the last `hand` record of a log, which is where its open or last hand goes on; 0 where there is none.
pub fn last_hand(log: &[u8]) -> usize
    ensures { result ≡ last_hand log.now }
{
    let mut reader = Reader::new(log);
    let mut last = 0;
    while let Some(r) = reader.next() {
        last = later(last, reader.at, r);
    }
    last
}
