// Every answer of a log into every sheet that is too short for it: code 12, and no byte changes; and into the one that is just long enough. How long that is
// is asked beforehand.
// Reads a log of at most 65,536 bytes on standard input, and says how many blocks it has, how many rooms were tried and how many went wrong.
#![tactic(auto)]

ghost use Rattle.std.specs.Prelude.{◌≤◌, length};
ghost use Rattle.table.specs.Take.{Sound};

use answers::LONGEST;
use blocks::rest;
use desk::log::read_lone_sheet;
use desk::{answer, answer_room};
use output::{STDIN_FILENO, STDOUT_FILENO};
use table::table::Table;
use table::take::new_table;
use text::sheet::after_sheet;

// What stands in a sheet before anything is written there: no answer has this byte.
const BLANK: u8 = 170;

#[derive(Clone, Copy)]
struct Tally {
    blocks: u64,
    rooms: u64,
    wrong: u64,
}

// Whether the bytes of a sheet from a place on are blank.
fn blank_from(sheet: &[u8; LONGEST], from: usize) -> bool
    requires { from ≤ length sheet.now }
{
    sheet[from..].iter().all(|b| *b == BLANK)
}

// Whether the answer to the first block, with a room of `room` bytes, is 12 with every byte kept and nothing taken.
fn kept(t: Table, log: &[u8], room: usize) -> bool
    requires { Sound t }
{
    if LONGEST < room {
        return false;
    }
    let mut sheet = [BLANK; LONGEST];
    let a = answer(t, log, &mut sheet[0..room]);
    let same = laws::both(a.table.taken == t.taken, a.written == 0);
    laws::both(laws::both(a.code == 12, same), blank_from(&sheet, 0))
}

// Whether the answer fits a room of just its length, and leaves every byte behind it.
fn fits(t: Table, log: &[u8], room: usize) -> bool
    requires { Sound t }
{
    if LONGEST < room {
        return false;
    }
    let mut sheet = [BLANK; LONGEST];
    let a = answer(t, log, &mut sheet[0..room]);
    laws::both(
        laws::both(a.code != 12, a.written == room),
        blank_from(&sheet, room),
    )
}

// How many rooms shorter than the answer go wrong.
fn short_rooms(t: Table, log: &[u8], need: usize) -> u64
    requires { Sound t }
{
    let mut wrong: u64 = 0;
    for room in 0..need {
        if !kept(t, log, room) {
            wrong = more(wrong, 1);
        }
    }
    wrong
}

// A sum that stops at a billion, so that it always fits.
fn more(x: u64, by: u64) -> u64 {
    if 1000000000 < x {
        return x;
    }
    if 1000000000 < by {
        return x;
    }
    x + by
}

#[derive(Clone, Copy)]
struct Tried {
    table: Table,
    tally: Tally,
}

// The first block of a log with every room.
fn try_block(t: Table, log: &[u8], k: Tally) -> Tried
    requires { Sound t }
    ensures { Sound result.table }
{
    let need = answer_room(t, log);
    let mut sheet = [BLANK; LONGEST];
    let a = answer(t, log, &mut sheet);
    let u = a.table;
    let said = u64::from(a.written != need);
    let wrong = short_rooms(t, log, need);
    let exact = u64::from(!fits(t, log, need));
    let tally = Tally {
        blocks: more(k.blocks, 1),
        rooms: more(k.rooms, need as u64),
        wrong: more(more(k.wrong, wrong), more(said, exact)),
    };
    Tried { table: u, tally }
}

fn try_log(t: Table, log: &[u8]) -> Tally
    requires { Sound t }
{
    let mut table = t;
    let mut left = log;
    let mut tally = Tally {
        blocks: 0,
        rooms: 0,
        wrong: 0,
    };
    while 0 < left.len() {
        let r = try_block(table, left, tally);
        let u = r.table;
        table = u;
        let k = r.tally;
        tally = k;
        let next = rest(left);
        left = &next[0..];
    }
    tally
}

fn say(word: &[u8], n: u64) {
    io::write_all(STDOUT_FILENO, word);
    io::print_decimal(STDOUT_FILENO, n);
    io::write_all(STDOUT_FILENO, b"\n");
}

fn tell(k: Tally) {
    say(b"blocks=", k.blocks);
    say(b"rooms=", k.rooms);
    say(b"wrong=", k.wrong);
}

fn main() {
    let mut space = io::large_buffer();
    let n = io::read_full(STDIN_FILENO, &mut space);
    let log = &space[0..n];
    match read_lone_sheet(log) {
        Err(_) => say(b"bad sheet ", 11),
        Ok(s) => tell(try_log(new_table(s), after_sheet(log))),
    }
}
