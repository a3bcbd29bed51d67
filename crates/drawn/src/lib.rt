// The table's picture: 23 rows of 79 columns and an LF each, on a lent sheet. Of the drawing bounds are promised; what it says comes from `seen`.
#![tactic(auto)]

mod rows;

ghost use Rattle.std.specs.Prelude.{◌≤◌, length};
ghost use Rattle.seen.specs.Seen.{Held};

use figures::put::put;
use pieces::colours::put_colours;
use pieces::parts::{GRID, blank};
use seen::feed::Seen;
use seen::seat::least_wager;
use table::settle::stands_now;

// No picture has more bytes, colours and all.
pub const MOST: usize = 2300;

// The rows of a table.
fn draw_table(out: &mut [u8], s: Seen)
    requires { Held s × (1840 ≤ length out.old) }
{
    let t = s.table;
    let stands = stands_now(t);
    let least = least_wager(t);
    let o = s.told;
    let list = stands.pots.list;
    let board = o.board;
    let paid = o.paid;
    rows::put_lamp(out, t.play.turn);
    rows::put_board(out, board);
    rows::put_marks(out, t.play.mark, least, stands.back);
    rows::put_header(out, t.play.opened, paid.settled);
    rows::put_seats(out, t, o);
    rows::put_pots(out, list, stands.pots.n);
    rows::put_settled(out, paid);
}

// The picture, without colour.
fn draw_plain(out: &mut [u8], s: Seen, ended: bool)
    requires { Held s × (1840 ≤ length out.old) }
{
    blank(out);
    rows::put_verdict(out, s.opened, s.told);
    rows::put_end(out, ended, s.table.play.opened);
    if s.opened {
        draw_table(out, s);
    }
}

// The picture as it stands on a terminal: from its upper left corner, over what stood there; the lamp amber and a refusal red, where there are colours.
fn draw_standing(out: &mut [u8], s: Seen, ended: bool, colour: bool) -> usize
    requires { Held s × (2300 ≤ length out.old) }
    ensures { result ≤ 2300 }
{
    put(out, 0, b"\x1b[H\x1b[J");
    draw_plain(&mut out[6..], s, ended);
    if colour {
        return put_colours(out, 6 + GRID, s.table.play.turn, s.told.code);
    }
    6 + GRID
}

// A picture at the front of a lent sheet, and how many bytes it has.
pub fn draw(out: &mut [u8], s: Seen, ended: bool, standing: bool, colour: bool) -> usize
    requires { Held s × (2300 ≤ length out.old) }
    ensures { result ≤ 2300 }
{
    if standing {
        return draw_standing(out, s, ended, colour);
    }
    draw_plain(out, s, ended);
    put(out, GRID, b"\n")
}
