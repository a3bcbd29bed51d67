// The rows that an answer line draws.
ghost use Rattle.std.specs.Prelude.{◌+◌, ◌≤◌, ◌<◌, length};
ghost use Rattle.figures.specs.Placing.{Put};
ghost use Rattle.figures.specs.Words.{refusals};
ghost use Rattle.picture.specs.Lines.{line_kinds, Answering};
ghost use Rattle.picture.specs.Screen.{drawn_most};
ghost use Rattle.picture.specs.Rows.{verdict_of, lamp_of, lamp_row, front_of, start_row, rest_row, line_drawn};

use crate::Line;
use figures::put::put_if;
use figures::row::{
    KINDS, counted, half, put_amount, put_cell, put_lamp_cell, put_left, put_rule_if, put_words,
};
use laws::{both, chosen, either};

// Taken, or refused with the refusal in words.
fn put_verdict(out: &mut [u8], at: usize, colour: bool, code: usize) -> usize
    requires { (code < refusals) × (at + 140 ≤ length out.old) }
    ensures { Put (verdict_of colour code) at out.old out.new result × (result ≤ at + 140) }
{
    if code == 0 {
        return put_cell(out, at, false, b"", b"      taken");
    }
    let a = put_cell(out, at, colour, b"\x1b[1;31m", b"    REFUSED");
    let b = put_words(out, a, colour, code);
    put_rule_if(out, b, code == 11)
}

// A whole row of the lamp.
fn put_lamp_row(out: &mut [u8], at: usize, colour: bool, seat: u32, row: u32) -> usize
    requires { (row < 5) × (at + 56 ≤ length out.old) }
    ensures { Put (lamp_row colour seat row) at out.old out.new result × (result ≤ at + 56) }
{
    let a = put_left(out, at, KINDS, false, 0);
    put_lamp_cell(out, a, colour, seat, row)
}

// The turn lamp: the seat's number, large; dark where it is nobody's turn.
fn put_lamp(out: &mut [u8], at: usize, colour: bool, seat: u32) -> usize
    requires { at + 257 ≤ length out.old }
    ensures { Put (lamp_of colour seat) at out.old out.new result × (result ≤ at + 257) }
{
    if seat == 0 {
        return put_cell(out, at, false, b"", b"     nobody");
    }
    let a = put_lamp_cell(out, at, colour, seat, 0);
    let b = put_lamp_row(out, a, colour, seat, 1);
    let c = put_lamp_row(out, b, colour, seat, 2);
    let d = put_lamp_row(out, c, colour, seat, 3);
    put_lamp_row(out, d, colour, seat, 4)
}

// A row that begins: the half row before it ends, and a block or a lone code gets a rule above it.
fn put_front(out: &mut [u8], at: usize, last: usize, kind: usize, n: u32) -> usize
    requires { (kind < line_kinds) × (at + 69 ≤ length out.old) }
    ensures { Put (front_of last kind n) at out.old out.new result × (result ≤ at + 69) }
{
    let a = put_if(out, at, half(last), b"\n");
    let b = put_rule_if(out, a, either(kind == 0, kind == 1));
    let shown = either(half(kind), kind == 4);
    put_left(out, b, kind, shown, n)
}

// The left half of a line's row, where the line before has not drawn it: a code completes its entry's row, and what is paid its sitting's.
fn put_start(out: &mut [u8], at: usize, last: usize, kind: usize, n: u32) -> usize
    requires { (kind < line_kinds) × (at + 69 ≤ length out.old) }
    ensures { Put (start_row last kind n) at out.old out.new result × (result ≤ at + 69) }
{
    if either(both(last == 0, kind == 1), both(last == 7, kind == 8)) {
        return at;
    }
    put_front(out, at, last, kind, n)
}

// The right half of a line's row, and what stands below it.
fn put_rest(out: &mut [u8], at: usize, colour: bool, l: Line) -> usize
    requires { Answering l × (at + 257 ≤ length out.old) }
    ensures { Put (rest_row colour l.kind l.value) at out.old out.new result × (result ≤ at + 257) }
{
    let kind = l.kind;
    let v = l.value;
    if half(kind) {
        return at;
    }
    if kind == 1 {
        return put_verdict(out, at, colour, v as usize);
    }
    if kind == 2 {
        return put_lamp(out, at, colour, v);
    }
    put_amount(out, at, v)
}

// The picture of an answer line.
pub(crate) fn put_answer(
    out: &mut [u8],
    at: usize,
    colour: bool,
    last: usize,
    pots: u32,
    l: Line,
) -> usize
    requires { Answering l × (l.kind < line_kinds) × (pots ≤ 999999999) × (at + drawn_most ≤ length out.old) }
    ensures { Put (line_drawn colour last pots l.kind l.value) at out.old out.new result × (result ≤ at + drawn_most) }
{
    let kind = l.kind;
    let n = chosen(kind == 4, counted(pots, kind), l.value);
    let a = put_start(out, at, last, kind, n);
    let b = put_rest(out, a, colour, l);
    put_rule_if(out, b, either(kind == 5, kind == 9))
}
