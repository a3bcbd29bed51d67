// Two tables that share a jackpot pool (request No. 7, the program `pair`): what is answered to each piece of their input.
#![tactic(auto)]

ghost use Rattle.std.specs.Prelude.{◌≡◌, true, ◌+◌, ◌-◌, ◌≤◌, length};
ghost use Rattle.writing.specs.AnswerSheet.{Wrote};
ghost use Rattle.text.specs.Line.{line_number};
ghost use Rattle.text.specs.TableSheet.{sheet_of};
ghost use Rattle.paper.specs.Paper.{is_sheet};
ghost use Rattle.table.specs.Take.{fresh_table};
ghost use Rattle.pool.specs.Jackpot.{most};
ghost use Rattle.couple.specs.Couple.{is_second, table_at, with_table, start_of, house_with, named, shown_bytes, last_bytes, stray_done, refused, pool_key, pool_done, sheet_done, room_most, Gave, Good};

use frames::{Due, Which};
use laws::{least, short_of};
use paper::{STAND_IN, Sheet, TAKEN};
use pool::{MOST, Pool, open_pool};
use table::table::Table;
use table::take::new_table;
use text::read_key_number;
use text::sheet::read_sheet;
use writing::{put_bytes, write_number_line};

// The most bytes that are written to a piece: a `table` line, 16 at most, and an answer.
pub const ROOM: usize = 576;

// Whether the opening was bad, the two tables, the pool, and all parts that went to the house.
#[derive(Clone, Copy)]
pub struct Pair {
    pub shut: bool,
    pub tables: [Table; 2],
    pub pool: Pool,
    pub house: u32,
}

// The pair after a piece, and how many bytes were written to it.
#[derive(Clone, Copy)]
pub struct PairAfter {
    pub pair: Pair,
    pub written: usize,
}

// Before the opening.
pub fn start() -> Pair
    ensures { (result ≡ start_of) × Good result }
{
    let t = new_table(STAND_IN);
    let ts = [t; 2];
    Pair {
        shut: false,
        tables: ts,
        pool: Pool { held: 0 },
        house: 0,
    }
}

// Whether what is due is table 2's.
pub fn is_second(due: Due) -> bool
    ensures { result ≡ is_second due }
{
    matches!(due, Due::Sheet(Which::Second) | Due::Block(Which::Second))
}

pub fn table_at(ts: [Table; 2], second: bool) -> Table
    ensures { result ≡ table_at ts second }
{
    if second {
        return ts[1];
    }
    ts[0]
}

pub fn with_table(ts: [Table; 2], second: bool, t: Table) -> [Table; 2]
    ensures { result ≡ with_table ts second t }
{
    let mut us = ts;
    if second {
        us[1] = t;
        return us;
    }
    us[0] = t;
    us
}

// What has gone to the house with a part more.
pub fn house_with(house: u32, part: u32) -> u32
    requires { house ≤ most }
    ensures { (result ≡ house_with house part) × (result ≤ most) }
{
    house + least(part, short_of(MOST, house))
}

// The number of the table whose block is due, 0 for lines of no table.
fn named(due: Due) -> u32
    ensures { (result ≡ named due) × (result ≤ 2) }
{
    match due {
        Due::Pool => 0,
        Due::Sheet(_) => 0,
        Due::Table => 0,
        Due::Stray => 0,
        Due::Block(Which::First) => 1,
        Due::Block(Which::Second) => 2,
    }
}

// An answer of the table that is due, as the program shows it.
pub fn put_shown(out: &mut [u8], only: u8, due: Due, answer: &[u8]) -> usize
    requires { (only ≤ 2) × (length answer.now + 16 ≤ length out.old) }
    ensures { Wrote (shown_bytes only due answer.now) out.old out.new result }
{
    let n = named(due);
    if only == 0 {
        let a = write_number_line(out, b"table", n);
        return a + put_bytes(&mut out[a..], answer);
    }
    if only as u32 == n {
        return put_bytes(out, answer);
    }
    0
}

// The opening is bad.
pub fn refuse(p: Pair, out: &mut [u8]) -> PairAfter
    requires { Good p × (room_most ≤ length out.old) }
    ensures gave { Gave (refused p) out.old out.new result.pair result.written }
    ensures good { Good result.pair }
{
    let ts = p.tables;
    let pool = p.pool;
    let pair = Pair {
        shut: true,
        tables: ts,
        pool,
        house: p.house,
    };
    PairAfter {
        pair,
        written: put_bytes(out, b"code=11\n"),
    }
}

// The pool as it opens.
fn with_pool(p: Pair, pool: Pool) -> Pair
    requires { Good p × (pool.held ≤ most) }
    ensures { (result ≡ record { shut = p.shut; tables = p.tables; pool = pool; house = p.house }) × Good result }
{
    let ts = p.tables;
    Pair {
        shut: p.shut,
        tables: ts,
        pool,
        house: p.house,
    }
}

// The first line of the opening.
pub fn open_line(p: Pair, lines: &[u8], out: &mut [u8]) -> PairAfter
    requires { Good p × (room_most ≤ length out.old) }
    ensures gave { Gave (pool_done p (line_number pool_key lines.now)) out.old out.new result.pair result.written }
    ensures good { Good result.pair }
{
    match read_key_number(lines, b"pool") {
        Some(v) => {
            let o = open_pool(v);
            if o.code == TAKEN {
                let pool = o.pool;
                return PairAfter {
                    pair: with_pool(p, pool),
                    written: 0,
                };
            }
            refuse(p, out)
        }
        None => refuse(p, out),
    }
}

// A table that a sheet opens.
fn with_sheet(p: Pair, due: Due, s: Sheet) -> Pair
    requires { Good p × (is_sheet s ≡ true) }
    ensures { (result ≡ record { shut = p.shut; tables = with_table p.tables (is_second due) (fresh_table s); pool = p.pool; house = p.house }) × Good result }
{
    let ts = p.tables;
    let pool = p.pool;
    let us = with_table(ts, is_second(due), new_table(s));
    Pair {
        shut: p.shut,
        tables: us,
        pool,
        house: p.house,
    }
}

// A sheet of the opening.
pub fn open_sheet(p: Pair, due: Due, lines: &[u8], out: &mut [u8]) -> PairAfter
    requires { Good p × (room_most ≤ length out.old) }
    ensures gave { Gave (sheet_done p due (sheet_of lines.now)) out.old out.new result.pair result.written }
    ensures good { Good result.pair }
{
    match read_sheet(lines) {
        Err(_) => refuse(p, out),
        Ok(s) => PairAfter {
            pair: with_sheet(p, due, s),
            written: 0,
        },
    }
}

// Lines of no table.
pub fn of_none(p: Pair, only: u8, out: &mut [u8]) -> PairAfter
    requires { Good p × (only ≤ 2) × (room_most ≤ length out.old) }
    ensures gave { Gave (stray_done only p) out.old out.new result.pair result.written }
    ensures good { Good result.pair }
{
    PairAfter {
        pair: p,
        written: put_shown(
            out,
            only,
            Due::Stray,
            b"n=0\ncode=1\nturn=0\nmark=0\nback=0\n",
        ),
    }
}

// Behind the last block: the pool as it stands, and all that went to the house.
pub fn last_lines(p: Pair, only: u8, out: &mut [u8]) -> usize
    requires { Good p × (room_most ≤ length out.old) }
    ensures { Wrote (last_bytes only p) out.old out.new result }
{
    if p.shut {
        return 0;
    }
    if only == 0 {
        let a = write_number_line(out, b"pool", p.pool.held);
        return a + write_number_line(&mut out[a..], b"house", p.house);
    }
    0
}
