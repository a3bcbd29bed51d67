// Texts at the front of a lent sheet: a code, a payment, the tray.
ghost use Rattle.std.specs.Prelude.{◌≡◌, ℕ, ◌*◌, ◌≤◌, ◌<◌, ◌^◌, length, get_or, take};
ghost use Rattle.paper.specs.Refusals.{number_of};
ghost use Rattle.writing.specs.AnswerSheet.{Wrote};
ghost use Rattle.answers.specs.Answer.{joined};
ghost use Rattle.rows.specs.Rows.{no_row};
ghost use Rattle.teller.specs.Keeping.{SmallRow};
ghost use Rattle.payments.specs.Payments.{give_text, code_text, sitting_text, sittings_text, row_text, tray_text};

use paper::Refusal;
use rows::Row;
use teller::Tray;
use writing::write_number_line;

fn put_give(out: &mut [u8], n: u32) -> usize
    requires { (n < 10 ^ 9) × (15 ≤ length out.old) }
    ensures { Wrote (give_text n) out.old out.new result × (result ≤ 15) }
{
    write_number_line(out, b"give", n)
}

// One row's part of a proposal after another.
fn put_gives(out: &mut [u8], part: &[u32]) -> usize
    requires { (length part.now ≤ 16) × ((i : ℕ) → get_or part.now i 0 < 10 ^ 9) × (15 * length part.now ≤ length out.old) }
    ensures { Wrote (joined give_text part.now) out.old out.new result × (result ≤ 15 * length part.now) }
{
    let mut at: usize = 0;
    for n in part {
        at += put_give(&mut out[at..], *n);
    }
    at
}

// A sitting and its part.
fn put_sitting(out: &mut [u8], sitting: u32, part: &[u32]) -> usize
    requires { (sitting < 10 ^ 9) × (length part.now ≤ 16) × ((i : ℕ) → get_or part.now i 0 < 10 ^ 9) × (258 ≤ length out.old) }
    ensures { Wrote (sitting_text sitting part.now) out.old out.new result × (result ≤ 258) }
{
    let at = write_number_line(out, b"sitting", sitting);
    at + put_gives(&mut out[at..], part)
}

// The first n sittings, each with its part.
pub fn put_sittings(
    out: &mut [u8],
    sittings: [u32; 10],
    n: usize,
    rows: usize,
    gives: &[u32],
) -> usize
    requires { (n ≤ 10) × (rows ≤ 16) × ((i : ℕ) → get_or sittings i 0 < 10 ^ 9) × ((i : ℕ) → get_or gives.now i 0 < 10 ^ 9) × (length gives.now ≡ n * rows) × (2580 ≤ length out.old) }
    ensures { Wrote (sittings_text n sittings rows gives.now) out.old out.new result × (result ≤ 2580) }
{
    let mut at: usize = 0;
    for s in 0..n {
        let from = s * rows;
        at += put_sitting(&mut out[at..], sittings[s], &gives[from..from + rows]);
    }
    at
}

fn put_row(out: &mut [u8], r: Row) -> usize
    requires { SmallRow r × (32 ≤ length out.old) }
    ensures { Wrote (row_text r) out.old out.new result × (result ≤ 32) }
{
    let at = write_number_line(out, b"worth", r.worth);
    at + write_number_line(&mut out[at..], b"count", r.count)
}

fn put_rows(out: &mut [u8], row: [Row; 16], n: usize) -> usize
    requires { (n ≤ 16) × ((i : ℕ) → SmallRow (get_or row i no_row)) × (512 ≤ length out.old) }
    ensures { Wrote (joined row_text (take n row)) out.old out.new result × (result ≤ 512) }
{
    let mut at: usize = 0;
    for r in &row[..n] {
        at += put_row(&mut out[at..], *r);
    }
    at
}

// The tray as it stands.
pub fn put_tray(out: &mut [u8], t: Tray) -> usize
    requires { (t.rows ≤ 16) × ((i : ℕ) → SmallRow (get_or t.row i no_row)) × (527 ≤ length out.old) }
    ensures { Wrote (tray_text t) out.old out.new result × (result ≤ 527) }
{
    let row = t.row;
    let n = t.rows;
    let at = write_number_line(out, b"rows", n as u32);
    at + put_rows(&mut out[at..], row, n)
}

pub fn put_code(out: &mut [u8], code: u32) -> usize
    requires { (code < 10 ^ 9) × (15 ≤ length out.old) }
    ensures { Wrote (code_text code) out.old out.new result × (result ≤ 15) }
{
    write_number_line(out, b"code", code)
}

// The number of a refusal.
pub fn put_refusal(out: &mut [u8], e: Refusal) -> usize
    requires { 15 ≤ length out.old }
    ensures { Wrote (code_text (number_of e)) out.old out.new result × (result ≤ 15) }
{
    put_code(out, u32::from(e.number()))
}
