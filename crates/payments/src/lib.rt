// What the program `pay` writes: one line more is taken, and what is answered to it stands at the front of a lent sheet; and the end of the input.
#![tactic(auto)]

mod paying;
mod writer;

ghost use Rattle.std.specs.Prelude.{◌≡◌, ◌≤◌, ◌<◌, ◌^◌, length};
ghost use Rattle.writing.specs.AnswerSheet.{Wrote};
ghost use Rattle.teller.specs.Keeping.{Sound};
ghost use Rattle.payments.specs.Payments.{Does};
ghost use Rattle.payments.specs.Answering.{answers_line, proposal_line, tray_answer, heard_line, is_over, end_text, line_room, end_room};

use laws::both;
use paper::Refusal;
pub use paying::Answered;
use paying::{check_out, pay_out};
use teller::{
    ANSWERS_DUE, FAULT, GIVE, Line, PROPOSAL_DUE, Teller, answer_line, give_line, put, tray_line,
};
use writer::{put_refusal, put_tray};

// A line where answers are due: without `--check` a payment that is due is made at once.
fn answers_line(check: bool, s: Teller, l: Line, gives: &mut [u32], out: &mut [u8]) -> Answered
    requires { Sound s × (l.value < 10 ^ 9) × (length gives.old ≡ 160) × (2595 ≤ length out.old) }
    ensures { Does (answers_line check s l gives.old) result gives.new out.old out.new 2595 }
{
    let t = answer_line(s, l);
    if both(!check, t.due == PROPOSAL_DUE) {
        return pay_out(t, gives, out);
    }
    Answered {
        teller: t,
        written: 0,
    }
}

// A line where a proposal is due: one more number, or its end, and then a line as any other.
fn proposal_line(s: Teller, l: Line, gives: &mut [u32], out: &mut [u8]) -> Answered
    requires { Sound s × (l.value < 10 ^ 9) × (length gives.old ≡ 160) × (line_room ≤ length out.old) }
    ensures { Does (proposal_line s l gives.old) result gives.new out.old out.new line_room }
{
    if l.kind == GIVE {
        put(gives, s.given, l.value);
        let t = give_line(s, l);
        return Answered {
            teller: t,
            written: 0,
        };
    }
    let a = check_out(s, gives, out);
    let t = a.teller;
    let at = a.written;
    let b = answers_line(true, t, l, gives, &mut out[at..]);
    let u = b.teller;
    Answered {
        teller: u,
        written: at + b.written,
    }
}

// A line where the tray is due: a fault is told.
fn tray_answer(s: Teller, l: Line, gives: &[u32], out: &mut [u8]) -> Answered
    requires { 15 ≤ length out.old }
    ensures { Does (tray_answer s l gives.now) result gives.now out.old out.new 15 }
{
    let t = tray_line(s, l);
    if t.due == FAULT {
        return Answered {
            teller: t,
            written: put_refusal(out, Refusal::OutOfRange),
        };
    }
    Answered {
        teller: t,
        written: 0,
    }
}

// One line more: the teller after it, the proposal's numbers in the lent list, and what is answered at the front of the lent sheet.
pub fn take_line(check: bool, s: Teller, l: Line, gives: &mut [u32], out: &mut [u8]) -> Answered
    requires { Sound s × (l.value < 10 ^ 9) × (length gives.old ≡ 160) × (line_room ≤ length out.old) }
    ensures does { Does (heard_line check s l gives.old) result gives.new out.old out.new line_room }
    ensures sound { Sound result.teller }
{
    if s.due == PROPOSAL_DUE {
        return proposal_line(s, l, gives, out);
    }
    if s.due == ANSWERS_DUE {
        return answers_line(check, s, l, gives, out);
    }
    if s.due == FAULT {
        return Answered {
            teller: s,
            written: 0,
        };
    }
    tray_answer(s, l, gives, out)
}

// Whether the tray had a fault: nothing more is read.
pub fn ended(s: Teller) -> bool
    ensures { result ≡ is_over s }
{
    s.due == FAULT
}

// The end of the input: a proposal ends, and the tray is written; a tray that is not whole is a fault.
pub fn close(s: Teller, gives: &[u32], out: &mut [u8]) -> usize
    requires { Sound s × (length gives.now ≡ 160) × (end_room ≤ length out.old) }
    ensures { Wrote (end_text s gives.now) out.old out.new result × (result ≤ end_room) }
{
    if ended(s) {
        return 0;
    }
    if s.due < ANSWERS_DUE {
        return put_refusal(out, Refusal::OutOfRange);
    }
    if s.due == PROPOSAL_DUE {
        let a = check_out(s, gives, out);
        let t = a.teller;
        let tray = t.tray;
        let at = a.written;
        return at + put_tray(&mut out[at..], tray);
    }
    let tray = s.tray;
    put_tray(out, tray)
}
