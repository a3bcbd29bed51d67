// The answer to a block: its code, and for a round that was taken what comes back of each wager, the sums, and the player's gain.
ghost use Rattle.std.specs.Prelude.{◌≡◌, ◌≤◌, ◌<◌, ◌^◌, length};
ghost use Rattle.writing.specs.AnswerSheet.{Wrote};
ghost use Rattle.banked.specs.Rounds.{Most, SmallSettled, SmallOutcome};
ghost use Rattle.rounds.specs.RoundText.{judged_of};
ghost use Rattle.rounds.specs.RoundAnswer.{two_bytes, seven_bytes, sums_bytes, settled_bytes, outcome_bytes, answer_bytes};

use crate::reading::{is_choice, read_numbers, round_of};
use banked::{Settled, Seven, settle};
use paper::Refusal;
use writing::write_number_line;

fn put_two(sheet: &mut [u8], first: &[u8], x: u32, second: &[u8], y: u32) -> usize
    requires { (x < 10 ^ 9) × (y < 10 ^ 9) × (length first.now ≤ 7) × (length second.now ≤ 7) × (36 ≤ length sheet.old) }
    ensures { Wrote (two_bytes first.now x second.now y) sheet.old sheet.new result × (result ≤ 36) }
{
    let at = write_number_line(sheet, first, x);
    at + write_number_line(&mut sheet[at..], second, y)
}

// What comes back of each wager.
fn put_seven(sheet: &mut [u8], s: Seven) -> usize
    requires { Most 100100000 s × (126 ≤ length sheet.old) }
    ensures { Wrote (seven_bytes s) sheet.old sheet.new result × (result ≤ 126) }
{
    let a = put_two(sheet, b"ante", s.ante, b"flop", s.flop);
    let b = a + put_two(&mut sheet[a..], b"turn", s.turn, b"river", s.river);
    let c = b + put_two(&mut sheet[b..], b"jackpot", s.jackpot, b"extra", s.extra);
    c + write_number_line(&mut sheet[c..], b"dealer", s.dealer)
}

// The sums and the gain.
fn put_sums(sheet: &mut [u8], s: Settled) -> usize
    requires { SmallSettled s × (72 ≤ length sheet.old) }
    ensures { Wrote (sums_bytes s) sheet.old sheet.new result × (result ≤ 72) }
{
    let a = put_two(sheet, b"staked", s.staked, b"back", s.back);
    a + put_two(&mut sheet[a..], b"won", s.won, b"lost", s.lost)
}

fn put_settled(sheet: &mut [u8], s: Settled) -> usize
    requires { SmallSettled s × (198 ≤ length sheet.old) }
    ensures { Wrote (settled_bytes s) sheet.old sheet.new result × (result ≤ 198) }
{
    let seven = s.backs;
    let a = put_seven(sheet, seven);
    a + put_sums(&mut sheet[a..], s)
}

// The answer to a round that was judged.
pub fn put_outcome(sheet: &mut [u8], o: Result<Settled, Refusal>) -> usize
    requires { SmallOutcome o × (216 ≤ length sheet.old) }
    ensures { Wrote (outcome_bytes o) sheet.old sheet.new result × (result ≤ 216) }
{
    match o {
        Ok(s) => {
            let a = write_number_line(sheet, b"code", 0);
            a + put_settled(&mut sheet[a..], s)
        }
        Err(e) => write_number_line(sheet, b"code", u32::from(e.number())),
    }
}

// Sixteen numbers judged.
pub fn judge(n: [u32; 16]) -> Result<Settled, Refusal>
    ensures { (result ≡ judged_of n) × SmallOutcome result }
{
    if is_choice(n[4], n[5], n[6]) {
        return settle(round_of(n));
    }
    Err(Refusal::OutOfRange)
}

// The answer to a block, whole or not, at the front of a sheet that has room for any answer.
pub fn answer(block: &[u8], sheet: &mut [u8]) -> usize
    requires { 216 ≤ length sheet.old }
    ensures { Wrote (answer_bytes block.now) sheet.old sheet.new result × (result ≤ 216) }
{
    match read_numbers(block) {
        Some(s) => put_outcome(sheet, judge(s.numbers)),
        None => put_outcome(sheet, Err(Refusal::Malformed)),
    }
}
