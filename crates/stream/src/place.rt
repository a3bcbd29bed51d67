// Whole blocks at the front of a part of the log, answered where they lie.
ghost use Rattle.std.specs.Prelude.{◌≡◌, ◌-◌, ◌≤◌, length};
ghost use Rattle.writing.specs.AnswerSheet.{over};
ghost use Rattle.table.specs.Take.{Sound};
ghost use Rattle.stream.specs.InPlace.{in_place_of, ran_of};

use answers::{LONGEST_SHARED, has_room, put_answer};
use blocks::{front_rest, read_front};
use desk::plan;
use desk::quiet::{first_stands, keeps_pots, shown_with, stands_after};
use paper::or_else;
use table::table::Table;

// What was answered where it lies: the table after it, the bytes used up and the bytes written.
#[derive(Clone, Copy)]
pub struct RanInPlace {
    pub table: Table,
    pub used: usize,
    pub written: usize,
}

// The table, how much of the part is used up, by what is left of it, and how many bytes are written.
fn ran_to(table: Table, part: &[u8], left: &[u8], written: usize) -> RanInPlace
    requires { length left.now ≤ length part.now }
    ensures { result ≡ record { table = table; used = length part.now - length left.now; written = written } }
{
    RanInPlace {
        table,
        used: part.len() - left.len(),
        written,
    }
}

// The whole blocks at the front of a part, each answered where it lies, up to one whose answer has no room. What follows a block is handed on as the rest of
// the part. The pots of the table go with it from block to block. Every block of a log is answered here and nowhere else, so that the compiler lays the desk
// into this loop. Every block is taken, by its plan, and the table is handed on at once: where the ways of several tables meet, and where many stores lie
// before a table is handed on, the compiler copies its chairs (measured). Only where an answer may have no room is the table before kept.
pub fn in_place(t: Table, part: &[u8], out: &mut [u8]) -> RanInPlace
    requires { Sound t }
    ensures ran { result ≡ ran_of (in_place_of t part.now (length out.old)) part.now }
    ensures bytes { out.new ≡ over (in_place_of t part.now (length out.old)).bytes out.old }
    ensures sound { Sound result.table × (result.used ≤ length part.now) × (result.written ≤ length out.old) }
{
    let mut table = t;
    let mut old = t;
    let mut stands = first_stands(t);
    let mut left = part;
    let mut at: usize = 0;
    while 0 < left.len() {
        let f = read_front(left);
        if !f.whole {
            return ran_to(table, part, left, at);
        }
        let room = out.len() - at;
        if room < LONGEST_SHARED {
            old = table;
        }
        let b = f.block;
        let p = plan(b);
        let e = p.entry;
        let k = table.take(p.n, e);
        let u = k.table;
        table = u;
        let code = or_else(p.code, k.code);
        let after = stands_after(stands, keeps_pots(b, code), table);
        let shown = shown_with(p.n, code, table, after, k.payout);
        if !has_room(room, shown) {
            return ran_to(old, part, left, at);
        }
        at += put_answer(&mut out[at..], shown);
        stands = after;
        let next = front_rest(left, f.used);
        left = &next[0..];
    }
    ran_to(table, part, left, at)
}
