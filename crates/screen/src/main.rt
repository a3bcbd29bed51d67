// The screen: answers on standard input, and a picture of each for a person on standard output, as it comes. With the argument --plain, or where the
// output is no terminal, without colour.
#![tactic(auto)]

ghost use Rattle.std.specs.Prelude.{◌≡◌, ◌≤◌, length};
ghost use Rattle.picture.specs.Screen.{Held, line_room, drawn_most};
ghost use Rattle.picture.specs.Parts.{DrawnTo};
ghost use Rattle.screen.specs.Drawing.{draws_none, draws_on};

use argument::is_argument;
use output::{Failed, Listener, STDOUT_FILENO, read_all, write_out};
use picture::{CLOSE_MOST, LINE_ROOM, Screen, close, draw_on, start};
use std::io::IsTerminal;
use std::ops::ControlFlow;

// The screen, drawn in colour or without, the unfinished line and a sheet for the picture.
#[derive(Drop)]
struct Easel {
    colour: bool,
    screen: Screen,
    buf: [u8; LINE_ROOM],
    out: [u8; 65536],
}

impl Listener for Easel {
    ghost Held = { λ e. Held e.screen × (line_room ≤ length e.buf) × (drawn_most ≤ length e.out) };

    ghost Heard = { λ e part n f. (f.colour ≡ e.colour) × DrawnTo e.colour e.screen e.buf part 0 f.screen f.buf n };

    ghost none = { λ e part. draws_none e.colour e.screen e.buf part };

    ghost on = { λ e f g part n k. draws_on e.colour e.screen e.buf part n f.colour f.screen f.buf g.colour g.screen g.buf k };

    // Bytes at the front of a part, as far as their picture has room in one sheet: it is written out.
    fn hear(&mut self, part: &[u8]) -> Result<usize, Failed> {
        let d = draw_on(self.colour, self.screen, &mut self.buf, part, &mut self.out);
        self.screen = d.screen;
        write_out(STDOUT_FILENO, &self.out[..d.written])?;
        Ok(d.used)
    }

    fn pause(&mut self) -> Result<ControlFlow<()>, Failed> {
        Ok(ControlFlow::Continue(()))
    }
}

// The input has ended.
fn end(s: Screen, buf: &[u8])
    requires { Held s × (line_room ≤ length buf.now) }
{
    let mut out = [0u8; CLOSE_MOST];
    let n = close(s, buf, &mut out, 0);
    io::write_all(STDOUT_FILENO, &out[..n]);
}

// Whether to draw in colour: on a terminal, unless the first argument is --plain.
fn coloured(rt: &HostRuntime) -> bool {
    if is_argument(rt, 1, b"--plain") {
        return false;
    }
    rt.stdout().is_terminal()
}

fn main(rt: HostRuntime) {
    let mut easel = Easel {
        colour: coloured(&rt),
        screen: start(),
        buf: [0; LINE_ROOM],
        out: io::large_buffer(),
    };
    if read_all(&rt, &mut easel, &mut io::large_buffer()).is_ok() {
        end(easel.screen, &easel.buf);
    }
}
