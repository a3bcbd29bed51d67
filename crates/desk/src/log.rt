// The whole log: the sheet, then block after block.
ghost use Rattle.std.specs.Prelude.{◌≡◌, length};
ghost use Rattle.writing.specs.AnswerSheet.{Wrote};
ghost use Rattle.table.specs.Take.{Sound};
ghost use Rattle.desk.specs.Log.{answers_in, lone, opened_of, output_in, eleven, fitting};

use crate::answer;
use blocks::rest;
use paper::{Refusal, Sheet};
use table::table::Table;
use table::take::new_table;
use text::sheet::{after_sheet, read_sheet};

// The answers to the blocks of a log, each written behind the last where there is room for it.
pub fn blocks(t: Table, log: &[u8], out: &mut [u8]) -> usize
    requires { Sound t }
    ensures { Wrote (answers_in t log.now (length out.old)) out.old out.new result }
{
    let mut table = t;
    let mut left = log;
    let mut at: usize = 0;
    while 0 < left.len() {
        let a = answer(table, left, &mut out[at..]);
        let u = a.table;
        table = u;
        at += a.written;
        let next = rest(left);
        left = &next[0..];
    }
    at
}

// A sheet with no drop, as a table goes by that shares no pool.
pub fn lone(s: Sheet) -> Sheet
    ensures { result ≡ lone s }
{
    let mut u = s;
    u.drop = 0;
    u
}

// The sheet that a lone table goes by.
pub fn read_lone_sheet(log: &[u8]) -> Result<Sheet, Refusal>
    ensures { result ≡ opened_of log.now }
{
    Ok(lone(read_sheet(log)?))
}

// The one line of a bad sheet.
pub fn refuse_sheet(out: &mut [u8]) -> usize
    ensures { Wrote (fitting eleven (length out.old)) out.old out.new result }
{
    if out.len() < 8 {
        return 0;
    }
    writing::put_bytes(out, b"code=11\n")
}

// What the whole log gives.
pub fn run(log: &[u8], out: &mut [u8]) -> usize
    ensures { Wrote (output_in log.now (length out.old)) out.old out.new result }
{
    match read_lone_sheet(log) {
        Err(_) => refuse_sheet(out),
        Ok(s) => blocks(new_table(s), after_sheet(log), out),
    }
}
