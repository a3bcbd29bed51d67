// Paying in real chips: a dealer's tray as two number slices, the worths and the counts of its rows, and the checker of a proposal, which lowers the counts
// where it accepts. A proposal is one list, sitting by sitting, and for each sitting row by row.
#![tactic(auto)]

ghost use Rattle.std.specs.Prelude.{◌≡◌, ℕ, ◌-◌, ◌*◌, ◌≤◌, eqb, length, get_or};
ghost use Rattle.tray.specs.Counting.{all_to};
ghost use Rattle.tray.specs.Proposal.{row_fits, fits, given, worth_given, taken_from, pays_all, holds_all, judged, code_of, lowered, counts_after};

use laws::both;
use paper::Refusal;

pub const ROWS: usize = 16;

pub const SITTINGS: usize = 10;

// The number at a place, 0 past the end.
pub fn number_at(p: &[u32], at: usize) -> u32
    ensures { result ≡ get_or p.now at 0 }
{
    if at < p.len() { p[at] } else { 0 }
}

// Whether a row is within its bounds.
fn row_fits(worth: u32, count: u32) -> bool
    ensures { result ≡ row_fits worth count }
{
    both(both(1 <= worth, worth <= 100000), count <= 10000)
}

// Whether each row is.
fn rows_fit(worths: &[u32], counts: &[u32]) -> bool
    ensures { result ≡ all_to (length worths.now) (λ i. row_fits (get_or worths.now i 0) (get_or counts.now i 0)) }
{
    for (i, worth) in worths.iter().enumerate() {
        if !row_fits(*worth, number_at(counts, i)) {
            return false;
        }
    }
    true
}

// Whether so long a list is a proposal's for so many sittings.
fn long_enough(rows: usize, sittings: usize, long: usize) -> bool
    requires { (rows ≤ 16) × (sittings ≤ 10) }
    ensures { result ≡ eqb long (sittings * rows) }
{
    long == sittings * rows
}

// What code 2 asks: the tray's bounds, at most ten sittings, the proposal's length.
pub fn fits(worths: &[u32], counts: &[u32], sittings: usize, long: usize) -> bool
    ensures { result ≡ fits worths.now counts.now sittings long }
{
    let rows = worths.len();
    if ROWS < rows {
        return false;
    }
    if counts.len() != rows {
        return false;
    }
    if SITTINGS < sittings {
        return false;
    }
    let tray = rows_fit(worths, counts);
    both(tray, long_enough(rows, sittings, long))
}

// How many of row i go to sitting s.
fn given(p: &[u32], rows: usize, s: usize, i: usize) -> u32
    requires { (rows ≤ 16) × (s ≤ 10) × (i ≤ 16) }
    ensures { result ≡ given rows p.now s i }
{
    number_at(p, s * rows + i)
}

fn product(k: u32, worth: u32) -> u64
    ensures { (result ≡ k * worth) × (result ≤ 4294967295 * worth) }
{
    u64::from(k) * u64::from(worth)
}

// What sitting s is given in all.
fn worth_given(worths: &[u32], p: &[u32], s: usize) -> u64
    requires { (length worths.now ≤ 16) × (s ≤ 10) × ((i : ℕ) → get_or worths.now i 0 ≤ 100000) }
    ensures { result ≡ worth_given worths.now p.now s }
{
    let rows = worths.len();
    let mut sum: u64 = 0;
    for (i, worth) in worths.iter().enumerate() {
        sum += product(given(p, rows, s, i), *worth);
    }
    sum
}

// Whether every sitting is paid exactly.
fn pays_all(worths: &[u32], paid: &[u32], p: &[u32]) -> bool
    requires { (length worths.now ≤ 16) × (length paid.now ≤ 10) × ((i : ℕ) → get_or worths.now i 0 ≤ 100000) }
    ensures { result ≡ pays_all worths.now paid.now p.now }
{
    for (s, owed) in paid.iter().enumerate() {
        if worth_given(worths, p, s) != u64::from(*owed) {
            return false;
        }
    }
    true
}

// What is taken from row i in all.
fn taken_from(p: &[u32], rows: usize, sittings: usize, i: usize) -> u64
    requires { (rows ≤ 16) × (sittings ≤ 10) × (i ≤ 16) }
    ensures { result ≡ taken_from rows sittings p.now i }
{
    let mut sum: u64 = 0;
    for s in 0..sittings {
        sum += u64::from(given(p, rows, s, i));
    }
    sum
}

// Whether no more is taken from a row than it holds.
fn holds_all(counts: &[u32], sittings: usize, p: &[u32]) -> bool
    requires { (length counts.now ≤ 16) × (sittings ≤ 10) }
    ensures { result ≡ holds_all counts.now sittings p.now }
{
    let rows = counts.len();
    for (i, count) in counts.iter().enumerate() {
        if u64::from(*count) < taken_from(p, rows, sittings, i) {
            return false;
        }
    }
    true
}

// The checker's answer: accepted, out of bounds, or not exact.
pub fn check(worths: &[u32], counts: &[u32], paid: &[u32], p: &[u32]) -> Result<(), Refusal>
    ensures { code_of result ≡ judged worths.now counts.now paid.now p.now }
{
    if !fits(worths, counts, paid.len(), p.len()) {
        return Err(Refusal::OutOfRange);
    }
    let pays = pays_all(worths, paid, p);
    let holds = holds_all(counts, paid.len(), p);
    if both(pays, holds) {
        return Ok(());
    }
    Err(Refusal::NotExact)
}

// How much a count is above what is taken.
pub fn less(count: u32, taken: u64) -> u32
    ensures { result ≡ count - taken }
{
    u64::from(count).saturating_sub(taken) as u32
}

// Each count lowered by what is taken from its row.
fn lower(counts: &mut [u32], sittings: usize, p: &[u32])
    requires { (length counts.old ≤ 16) × (sittings ≤ 10) }
    ensures { counts.new ≡ lowered sittings p.now counts.old }
{
    let rows = counts.len();
    for (i, count) in counts.iter_mut().enumerate() {
        *count = less(*count, taken_from(p, rows, sittings, i));
    }
}

// The checker's answer; where it accepts, the counts are lowered by just what is taken.
pub fn accept(worths: &[u32], counts: &mut [u32], paid: &[u32], p: &[u32]) -> Result<(), Refusal>
    ensures code { code_of result ≡ judged worths.now counts.old paid.now p.now }
    ensures rows { counts.new ≡ counts_after (code_of result) (length paid.now) p.now counts.old }
{
    check(worths, counts, paid, p)?;
    lower(counts, paid.len(), p);
    Ok(())
}
