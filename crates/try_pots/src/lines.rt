// An answer line. Every writer writes what there is room for, and says where it stopped.
ghost use Rattle.std.specs.Prelude.{◌≤◌, length};
ghost use Rattle.try_pots.specs.MadeHands.{Fair, Tells};

use crate::hand;
use crate::hand::Hand;
use crate::line::Scan;
use laws::both;
use pots::Pots;

fn put_byte(out: &mut [u8], at: usize, b: u8) -> usize
    requires { at ≤ length out.old }
    ensures { result ≤ length out.old }
{
    if at < out.len() {
        out[at] = b;
        return at + 1;
    }
    at
}

fn put(out: &mut [u8], at: usize, bytes: &[u8]) -> usize
    requires { at ≤ length out.old }
    ensures { result ≤ length out.old }
{
    let mut k = at;
    for b in bytes {
        k = put_byte(out, k, *b);
    }
    k
}

// A blank and a number.
fn put_number(out: &mut [u8], at: usize, n: u32) -> usize
    requires { at ≤ length out.old }
    ensures { result ≤ length out.old }
{
    let mut text = [0u8; 20];
    let k = io::decimal(n as u64, &mut text);
    let a = put_byte(out, at, 32);
    put(out, a, &text[..k])
}

fn put_seats(out: &mut [u8], at: usize, xs: [u32; 10], seats: usize) -> usize
    requires { (at ≤ length out.old) × (seats ≤ 10) }
    ensures { result ≤ length out.old }
{
    let mut k = at;
    for x in &xs[..seats] {
        k = put_number(out, k, *x);
    }
    k
}

fn put_pots(out: &mut [u8], at: usize, p: Pots) -> usize
    requires { (at ≤ length out.old) × (p.n ≤ 9) }
    ensures { result ≤ length out.old }
{
    let mut k = at;
    for q in &p.list[..p.n] {
        k = put_number(out, k, q.amount);
    }
    k
}

// What the crate `pots` says of a hand.
#[derive(Clone, Copy)]
struct Told {
    pots: Pots,
    back: u32,
    fee: u32,
    drop: u32,
    due: [u32; 10],
    paid: [u32; 10],
    unclaimed: u32,
}

// By the functions that the clerk runs.
fn tell(h: Hand) -> Told
    requires { Fair h }
    ensures { Tells h result }
{
    let totals = h.totals;
    let scores = h.scores;
    let put = pots::stand(totals, h.live);
    let p = put.pots;
    let rule = h.rule;
    let s = pots::hand::settle_hand(totals, h.live, scores, rule, h.puck);
    let due = s.due;
    let o = pots::hand::pay_out(due, h.here);
    let paid = o.paid;
    Told {
        pots: p,
        back: put.back,
        fee: s.fee,
        drop: s.drop,
        due,
        paid,
        unclaimed: o.unclaimed,
    }
}

// The pots, and what goes back.
fn put_heights(out: &mut [u8], at: usize, p: Pots, back: u32) -> usize
    requires { (at ≤ length out.old) × (p.n ≤ 9) }
    ensures { result ≤ length out.old }
{
    let a = put(out, at, b"pots:");
    let b = put_pots(out, a, p);
    let c = put(out, b, b" back:");
    put_number(out, c, back)
}

// What is taken of the pots: the commission, and what is dropped.
fn put_taken(out: &mut [u8], at: usize, fee: u32, drop: u32) -> usize
    requires { at ≤ length out.old }
    ensures { result ≤ length out.old }
{
    let a = put(out, at, b" fee:");
    let b = put_number(out, a, fee);
    let c = put(out, b, b" drop:");
    put_number(out, c, drop)
}

// A word and a number for each seat.
fn put_row(out: &mut [u8], at: usize, word: &[u8], xs: [u32; 10], seats: usize) -> usize
    requires { (at ≤ length out.old) × (seats ≤ 10) }
    ensures { result ≤ length out.old }
{
    let a = put(out, at, word);
    put_seats(out, a, xs, seats)
}

fn put_told(out: &mut [u8], at: usize, t: Told, seats: usize) -> usize
    requires { (at ≤ length out.old) × (t.pots.n ≤ 9) × (seats ≤ 10) }
    ensures { result ≤ length out.old }
{
    let p = t.pots;
    let due = t.due;
    let paid = t.paid;
    let a = put_heights(out, at, p, t.back);
    let c = put_taken(out, a, t.fee, t.drop);
    let d = put_row(out, c, b" due:", due, seats);
    let e = put_row(out, d, b" paid:", paid, seats);
    let f = put(out, e, b" unclaimed:");
    put_number(out, f, t.unclaimed)
}

// The answer to a whole line, behind what is written: `2` where it is no hand.
pub fn answer(nums: &[u32], s: Scan, out: &mut [u8], at: usize) -> usize
    requires { at ≤ length out.old }
    ensures { result ≤ length out.old }
{
    let h = hand::hand_of(nums, s.count);
    if both(!s.bad, hand::fair(h)) {
        let k = put_told(out, at, tell(h), h.seats);
        return put_byte(out, k, 10);
    }
    put(out, at, b"2\n")
}
