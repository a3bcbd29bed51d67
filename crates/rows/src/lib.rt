// The dealer's tray as a lent slice of row structs whose counts are lowered on acceptance. What takes the rows lent loops over them; the work on one row, on
// the columns and on the answer is functions that take structs by value.
#![tactic(auto)]

ghost use Rattle.std.specs.Prelude.{◌≡◌, ◌++◌, ◌≤◌, length, take, drop};
ghost use Rattle.tray.specs.Proposal.{code_of};
ghost use Rattle.rows.specs.Rows.{judged_rows, rows_after, proposing_rows, list_of};
ghost use Rattle.rows.specs.Columns.{no_columns, with_row, columns_to, settled_of, proposed_code, proposed_list, recount};

use paper::Refusal;

pub const ROWS: usize = 16;

#[derive(Clone, Copy)]
pub struct Row {
    pub worth: u32,
    pub count: u32,
}

// The rows' worths and counts, as the checker and the proposer over two number slices take them. Of rows past the sixteenth nothing is kept: they are too many.
#[derive(Clone, Copy)]
pub struct Columns {
    pub worths: [u32; 16],
    pub counts: [u32; 16],
}

fn no_columns() -> Columns
    ensures { result ≡ no_columns }
{
    Columns {
        worths: [0; 16],
        counts: [0; 16],
    }
}

// The columns with row i.
fn with_row(c: Columns, r: Row, i: usize) -> Columns
    ensures { result ≡ with_row c r i }
{
    let mut d = c;
    if i < ROWS {
        d.worths[i] = r.worth;
        d.counts[i] = r.count;
    }
    d
}

// The columns of all rows.
fn columns_of(rows: &[Row]) -> Columns
    ensures { result ≡ columns_to (length rows.now) rows.now }
{
    let mut columns = no_columns();
    for (i, row) in rows.iter().enumerate() {
        columns = with_row(columns, *row, i);
    }
    columns
}

// The checker's answer, and the counts after it.
#[derive(Clone, Copy)]
pub struct Answer {
    pub counts: [u32; 16],
    pub outcome: Result<(), Refusal>,
}

// The checker over n rows in columns.
fn settled(c: Columns, n: usize, paid: &[u32], proposal: &[u32]) -> Answer
    ensures { (result.counts ≡ (settled_of c n paid.now proposal.now).counts) × (code_of result.outcome ≡ (settled_of c n paid.now proposal.now).code) }
{
    let worths = c.worths;
    let mut counts = c.counts;
    if ROWS < n {
        let outcome = Err(Refusal::OutOfRange);
        return Answer { counts, outcome };
    }
    let outcome = tray::accept(&worths[0..n], &mut counts[0..n], paid, proposal);
    Answer { counts, outcome }
}

// Row i with its count after the answer.
fn recounted(s: Answer, r: Row, i: usize) -> Row
    ensures { result ≡ recount s.counts i r }
{
    let worth = r.worth;
    if i < ROWS {
        let count = s.counts[i];
        return Row { worth, count };
    }
    r
}

// The checker's answer for the lent rows: accepted, out of bounds, or not exact. Where it accepts, each row's count is lowered by just what is taken from it;
// else each row is as it was. The rows are read into columns, and one loop writes their counts.
pub fn accept(rows: &mut [Row], paid: &[u32], proposal: &[u32]) -> Result<(), Refusal>
    ensures { (code_of result ≡ judged_rows rows.old paid.now proposal.now) × (rows.new ≡ rows_after (code_of result) (length paid.now) proposal.now rows.old) }
{
    let s = settled(columns_of(rows), rows.len(), paid, proposal);
    for (j, row) in rows.iter_mut().enumerate() {
        *row = recounted(s, *row, j);
    }
    s.outcome
}

// The proposer over n rows in columns.
fn proposed(c: Columns, n: usize, paid: &[u32], list: &mut [u32]) -> Result<(), Refusal>
    ensures { (code_of result ≡ proposed_code c n paid.now (length list.old)) × (list.new ≡ proposed_list (code_of result) c n paid.now list.old) }
{
    let worths = c.worths;
    let counts = c.counts;
    if ROWS < n {
        return Err(Refusal::OutOfRange);
    }
    proposer::propose(&worths[0..n], &counts[0..n], paid, list)
}

// The proposer's answer for the lent rows, which it reads: the proposal stands in the lent list; or it is out of bounds, or something stays unpaid, and then
// nothing is written.
pub fn propose(rows: &[Row], paid: &[u32], list: &mut [u32]) -> Result<(), Refusal>
    ensures { (code_of result ≡ proposing_rows rows.now paid.now (length list.old)) × (list.new ≡ list_of (code_of result) rows.now paid.now list.old) }
{
    proposed(columns_of(rows), rows.len(), paid, list)
}

// A tray's rows after an answer, and the answer.
#[derive(Clone, Copy)]
pub struct Payment {
    pub rows: [Row; 16],
    pub outcome: Result<(), Refusal>,
}

// The first n rows of a tray are lent to the checker.
pub fn accept_from(tray: [Row; 16], n: usize, paid: &[u32], proposal: &[u32]) -> Payment
    requires { n ≤ 16 }
    ensures { (code_of result.outcome ≡ judged_rows (take n tray) paid.now proposal.now) × (result.rows ≡ rows_after (code_of result.outcome) (length paid.now) proposal.now (take n tray) ++ drop n tray) }
{
    let mut rows = tray;
    let outcome = accept(&mut rows[0..n], paid, proposal);
    Payment { rows, outcome }
}

// The first n rows of a tray are lent to the proposer.
pub fn propose_from(
    tray: [Row; 16],
    n: usize,
    paid: &[u32],
    list: &mut [u32],
) -> Result<(), Refusal>
    requires { n ≤ 16 }
    ensures { (code_of result ≡ proposing_rows (take n tray) paid.now (length list.old)) × (list.new ≡ list_of (code_of result) (take n tray) paid.now list.old) }
{
    propose(&tray[0..n], paid, list)
}
