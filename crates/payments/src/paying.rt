// A block's answer: without `--check` the proposer's, and with it the checker's for another program's proposal. Both are lent the tray's rows.
ghost use Rattle.std.specs.Prelude.{◌≡◌, ◌≤◌, ◌<◌, ◌^◌, length};
ghost use Rattle.writing.specs.AnswerSheet.{Wrote};
ghost use Rattle.paper.specs.Refusals.{number_of};
ghost use Rattle.tray.specs.Proposal.{accepted, code_of};
ghost use Rattle.teller.specs.Keeping.{Sound, anew};
ghost use Rattle.payments.specs.Payments.{code_text, paid_out, checked, payment, proposed, proposing, Does};

use crate::writer::{put_code, put_refusal, put_sittings};
use laws::either;
use paper::Refusal;
use rows::{accept_from, propose_from};
use teller::{Teller, anew, faulty};

// The teller after an answer, and how many bytes were written.
#[derive(Clone, Copy)]
pub struct Answered {
    pub teller: Teller,
    pub written: usize,
}

// The number that is written for an answer: 0, or its refusal's.
fn code_of(outcome: Result<(), Refusal>) -> u32
    ensures { result ≡ code_of outcome }
{
    match outcome {
        Ok(()) => 0,
        Err(e) => u32::from(e.number()),
    }
}

// A refusal's number alone; nothing else changes.
fn refuse(s: Teller, out: &mut [u8], e: Refusal) -> Answered
    requires { 15 ≤ length out.old }
    ensures { (result.teller ≡ anew s s.tray.row) × Wrote (code_text (number_of e)) out.old out.new result.written × (result.written ≤ 15) }
{
    let tray = s.tray;
    let row = tray.row;
    let teller = anew(s, row);
    Answered {
        teller,
        written: put_refusal(out, e),
    }
}

// The proposer's proposal goes through the checker, which lowers the rows, and is written.
fn pay_proposed(s: Teller, p: &[u32], out: &mut [u8]) -> Answered
    requires { Sound s × (s.listed.count ≤ 10) × (proposing s ≡ accepted) × (p.now ≡ proposed s) × (2595 ≤ length out.old) }
    ensures { (result.teller ≡ (payment s p.now).teller) × Wrote (payment s p.now).text out.old out.new result.written × (result.written ≤ 2595) }
{
    let tray = s.tray;
    let row = tray.row;
    let n = tray.rows;
    let x = s.listed;
    let paid = x.paid;
    let count = x.count;
    let v = accept_from(row, n, &paid[0..count], p);
    let after = v.rows;
    let teller = anew(s, after);
    let sittings = x.sittings;
    let at = put_code(out, 0);
    let written = at + put_sittings(&mut out[at..], sittings, count, n, p);
    Answered { teller, written }
}

// The listed sittings are paid by the proposer, where they can be.
pub fn pay_out(s: Teller, gives: &mut [u32], out: &mut [u8]) -> Answered
    requires { Sound s × (length gives.old ≡ 160) × (2595 ≤ length out.old) }
    ensures { Does (paid_out s gives.old) result gives.new out.old out.new 2595 }
{
    let x = s.listed;
    if faulty(x) {
        return refuse(s, out, Refusal::OutOfRange);
    }
    let tray = s.tray;
    let row = tray.row;
    let n = tray.rows;
    let paid = x.paid;
    let count = x.count;
    let long = count * n;
    match propose_from(row, n, &paid[0..count], &mut gives[0..long]) {
        Err(e) => refuse(s, out, e),
        Ok(()) => pay_proposed(s, &gives[0..long], out),
    }
}

// Another program's proposal, of so many numbers, is checked; where it is accepted the rows are lowered.
pub fn check_out(s: Teller, gives: &[u32], out: &mut [u8]) -> Answered
    requires { Sound s × (length gives.now ≡ 160) × (15 ≤ length out.old) }
    ensures { Does (checked s gives.now) result gives.now out.old out.new 15 }
{
    let x = s.listed;
    let given = s.given;
    if either(faulty(x), 160 < given) {
        return refuse(s, out, Refusal::OutOfRange);
    }
    let tray = s.tray;
    let row = tray.row;
    let paid = x.paid;
    let count = x.count;
    let v = accept_from(row, tray.rows, &paid[0..count], &gives[0..given]);
    let after = v.rows;
    let teller = anew(s, after);
    Answered {
        teller,
        written: put_code(out, code_of(v.outcome)),
    }
}
