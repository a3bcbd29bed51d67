// The rows of the picture: the last entry, the lamp with board and marks beside it, a row for each seat, the pots.
ghost use Rattle.std.specs.Prelude.{◌+◌, ◌≤◌, ◌<◌, length};

use chairs::Chair;
use figures::font::cells;
use figures::put::{put, put_if};
use laws::{both, either};
use pieces::parts::{
    COLUMNS, put_cards, put_entered, put_mask, put_number, put_or_none, put_refusal, put_seat,
    put_state,
};
use pots::Pot;
use seen::seat::{here, word};
use seen::told::Told;
use table::table::{Board, Payout, Play, Table};

// The seats' rows begin here, and the pots'.
const SEATS: usize = 7 * COLUMNS;

const POTS: usize = 18 * COLUMNS;

// What was read last: the sheet, or an entry with its number.
fn put_last(out: &mut [u8], sheet: bool, n: u32)
    requires { 1840 ≤ length out.old }
{
    if sheet {
        put(out, 0, b"sheet");
        return;
    }
    put(out, 0, b"entry");
    put_number(out, 5, n);
}

// Whether what was read last was taken; a refusal in words.
fn put_code(out: &mut [u8], code: u8)
    requires { 1840 ≤ length out.old }
{
    if code == 0 {
        put(out, 18, b"taken");
        return;
    }
    put(out, 18, b"REFUSED");
    put_refusal(out, 27, code);
}

// What was read last, and whether it was taken. Before the first entry it is the sheet.
pub fn put_verdict(out: &mut [u8], opened: bool, o: Told)
    requires { 1840 ≤ length out.old }
{
    let first = both(o.n == 0, o.code == 0);
    put_last(out, either(!opened, first), o.n);
    put_code(out, o.code);
}

// A row of the lamp.
fn put_lamp_row(out: &mut [u8], seat: u32, row: u32)
    requires { (row < 5) × (1840 ≤ length out.old) }
{
    let g = cells(seat, row);
    put(out, (row as usize + 1) * COLUMNS + 6, &g);
}

// The turn lamp: the seat's number, large; dark where it is nobody's turn.
pub fn put_lamp(out: &mut [u8], seat: u32)
    requires { 1840 ≤ length out.old }
{
    put(out, COLUMNS, b"turn");
    if seat == 0 {
        put(out, COLUMNS + 6, b"nobody");
        return;
    }
    put_lamp_row(out, seat, 0);
    put_lamp_row(out, seat, 1);
    put_lamp_row(out, seat, 2);
    put_lamp_row(out, seat, 3);
    put_lamp_row(out, seat, 4);
}

// Beside the lamp: the board.
pub fn put_board(out: &mut [u8], b: Board)
    requires { 1840 ≤ length out.old }
{
    put(out, COLUMNS + 20, b"board");
    let cards = b.cards;
    put_cards(out, COLUMNS + 34, cards, b.count);
}

// Below the board: the mark, the least wager of the seat in turn, what goes back.
pub fn put_marks(out: &mut [u8], mark: u32, least: u32, back: u32)
    requires { 1840 ≤ length out.old }
{
    put(out, 2 * COLUMNS + 20, b"mark");
    put_number(out, 2 * COLUMNS + 31, mark);
    put(out, 3 * COLUMNS + 20, b"least wager");
    put_or_none(out, 3 * COLUMNS + 31, least);
    put(out, 4 * COLUMNS + 20, b"goes back");
    put_number(out, 4 * COLUMNS + 31, back);
}

// Over the seats' rows: what stands in their columns.
pub fn put_header(out: &mut [u8], opened: bool, settled: bool)
    requires { 1840 ≤ length out.old }
{
    put(
        out,
        6 * COLUMNS,
        b"seat     sitting      stack state  cards",
    );
    put_if(
        out,
        6 * COLUMNS + 40,
        opened,
        b" this round  this hand by sitting",
    );
    put_if(
        out,
        6 * COLUMNS + 40,
        settled,
        b"                  paid to sitting",
    );
}

// The sitting at a seat and its stack, where somebody sits.
fn put_stack(out: &mut [u8], at: usize, c: Chair)
    requires { at + 79 ≤ length out.old }
{
    if 0 < c.sitting {
        put_number(out, at + 5, c.sitting);
        put_number(out, at + 16, c.stack);
    }
}

// Who sits at a seat: the turn and the puck are marked.
fn put_sitter(out: &mut [u8], at: usize, seat: u32, p: Play, c: Chair, dead: bool)
    requires { at + 79 ≤ length out.old }
{
    put_if(out, at, p.turn == seat, b">");
    put_seat(out, at + 1, seat);
    put_if(out, at + 4, p.puck == seat, b"P");
    put_stack(out, at, c);
    put_state(out, at + 28, word(c, dead));
    put_entered(out, at + 36, c.hole.count);
}

// What the sitting that was dealt in at a seat has put in; whether it left.
fn put_dealt(out: &mut [u8], at: usize, c: Chair)
    requires { at + 79 ≤ length out.old }
{
    if 0 < c.dealt.sitting {
        put_number(out, at + 40, chairs::round_of(c));
        put_number(out, at + 51, c.dealt.total);
        put_number(out, at + 62, c.dealt.sitting);
        put_if(out, at + 74, !here(c), b"left");
    }
}

// What the sitting that was dealt in at a seat was paid; whether it left.
fn put_paid(out: &mut [u8], at: usize, sitting: u32, paid: u32, sits: u32)
    requires { at + 79 ≤ length out.old }
{
    if 0 < sitting {
        put_number(out, at + 51, paid);
        put_number(out, at + 62, sitting);
        put_if(out, at + 74, sitting != sits, b"left");
    }
}

// The row of the seat at a place, where the table has it.
fn put_row(out: &mut [u8], t: Table, o: Told, i: usize)
    requires { (i < 10) × (1840 ≤ length out.old) }
{
    if t.sheet.seats as usize <= i {
        return;
    }
    let at = SEATS + COLUMNS * i;
    let cs = t.chairs;
    let c = cs[i];
    let dead = o.dead;
    put_sitter(out, at, i as u32 + 1, t.play, c, dead[i]);
    put_dealt(out, at, c);
    let sittings = o.paid.sittings;
    let paid = o.paid.paid;
    put_paid(out, at, sittings[i], paid[i], c.sitting);
}

// A row for each seat of the table.
pub fn put_seats(out: &mut [u8], t: Table, o: Told)
    requires { 1840 ≤ length out.old }
{
    for i in 0..10 {
        put_row(out, t, o, i);
    }
}

// The k-th pot: its number from the lowest, its chips, the seats that contest it.
fn put_pot(out: &mut [u8], k: usize, p: Pot)
    requires { (k < 9) × (1840 ≤ length out.old) }
{
    let at = POTS + COLUMNS * (k % 5) + 40 * (k / 5);
    put_seat(out, at, k as u32 + 1);
    put_number(out, at + 2, p.amount);
    put_mask(out, at + 15, p.who);
}

// The first n pots, in two columns.
fn put_list(out: &mut [u8], list: &[Pot; 9], n: usize)
    requires { 1840 ≤ length out.old }
{
    for (k, p) in list.iter().enumerate() {
        if k < n {
            put_pot(out, k, *p);
        }
    }
}

// The pots of the open hand, the first so many of a list.
pub fn put_pots(out: &mut [u8], list: [Pot; 9], n: usize)
    requires { 1840 ≤ length out.old }
{
    put_if(
        out,
        POTS - COLUMNS,
        0 < n,
        b"pots, each with the seats that contest it",
    );
    put_list(out, &list, n);
}

// The drop of a settlement, where the table has one.
fn put_drop(out: &mut [u8], drop: u32)
    requires { 1840 ≤ length out.old }
{
    if 0 < drop {
        put(out, 4 * COLUMNS + 50, b"drop");
        put_number(out, 4 * COLUMNS + 61, drop);
    }
}

// Of a settlement: the fee, the drop where there is one, what nobody claims.
pub fn put_settled(out: &mut [u8], p: Payout)
    requires { 1840 ≤ length out.old }
{
    if p.settled {
        put(out, COLUMNS + 50, b"settled");
        put(out, 2 * COLUMNS + 50, b"fee");
        put_number(out, 2 * COLUMNS + 61, p.fee);
        put(out, 3 * COLUMNS + 50, b"unclaimed");
        put_number(out, 3 * COLUMNS + 61, p.unclaimed);
        put_drop(out, p.drop);
    }
}

// That the log has ended, and where.
pub fn put_end(out: &mut [u8], ended: bool, inside: bool)
    requires { 1840 ≤ length out.old }
{
    if ended {
        put(out, 5 * COLUMNS + 20, b"the log ends");
        put_if(out, 5 * COLUMNS + 33, inside, b"inside a hand");
    }
}
