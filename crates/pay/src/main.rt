// The payer: a tray and then the clerk's answers on standard input; at each settled block how many chips of each row go to each sitting, on standard output as soon as its
// last line has come; at the end the tray as it stands. With the argument --check the proposals are another program's, and are checked.
#![tactic(auto)]

ghost use Rattle.std.specs.Prelude.{◌≡◌, ◌≤◌, ⊤, length};
ghost use Rattle.lines.specs.Kept.{kept_most, Room};
ghost use Rattle.teller.specs.Keeping.{Sound};

use argument::is_argument;
use lines::{Fill, gather};
use output::{Failed, Listener, STDOUT_FILENO, flush, read_all, write_out};
use payments::{close, ended, take_line};
use std::ops::ControlFlow;
use teller::{Teller, said, start};

// Answers are written out where less than a line's answer's room, 2610 bytes, is left behind them.
const ENOUGH: usize = 62000;

// Whether proposals are checked; the teller, what is kept of the unfinished line, what is given; the answers still to be written, and whether what was written out
// could be.
#[derive(Drop)]
struct Payer {
    check: bool,
    teller: Teller,
    fill: Fill,
    buf: [u8; text::sheet::ROOM],
    gives: [u32; 160],
    out: [u8; 65536],
    at: usize,
    wrote: Result<(), Failed>,
}

impl Payer {
    // Where the next answer goes: what lies before it is written out where it leaves too little room. Where that fails, the rest of the part is taken all the same.
    fn room(&mut self) -> usize
        requires { (self.old.at ≤ 65536) × (length self.old.out ≡ 65536) }
        ensures same { self.new ≡ record self.old { wrote = self.new.wrote } }
        ensures within { result ≤ 62000 }
    {
        match flush(STDOUT_FILENO, &self.out[..self.at], ENOUGH) {
            Ok(at) => at,
            Err(e) => {
                self.wrote = Err(e);
                0
            }
        }
    }
}

impl Listener for Payer {
    ghost Held = { λ p. Sound p.teller × Room p.fill × (p.fill.lines ≡ 0) × (kept_most ≤ length p.buf) × (length p.gives ≡ 160) × (length p.out ≡ 65536) × (p.at ≤ 65536) };

    ghost Heard = { λ _ _ _ _. ⊤ };

    ghost none = { λ _ _. tt };

    ghost on = { λ _ _ _ _ _ _ _ _. tt };

    // The bytes of a part up to the end of a line, which is answered, or all of it, which is kept.
    fn hear(&mut self, part: &[u8]) -> Result<usize, Failed> {
        self.at = self.room();
        let g = gather(&mut self.buf, self.fill, part, 1);
        if g.fill.lines == 0 {
            self.fill = g.fill;
            return Ok(g.used);
        }
        let line = said(&self.buf[..g.fill.count]);
        let a = take_line(
            self.check,
            self.teller,
            line,
            &mut self.gives,
            &mut self.out[self.at..],
        );
        self.teller = a.teller;
        self.fill = lines::empty();
        self.at += a.written;
        Ok(g.used)
    }

    fn pause(&mut self) -> Result<ControlFlow<()>, Failed> {
        let last = write_out(STDOUT_FILENO, &self.out[..self.at]);
        self.at = 0;
        self.wrote.and(last)?;
        Ok(if ended(self.teller) {
            ControlFlow::Break(())
        } else {
            ControlFlow::Continue(())
        })
    }
}

// The input has ended.
fn end(s: Teller, gives: &[u32])
    requires { Sound s × (length gives.now ≡ 160) }
{
    let mut out = [0u8; 1024];
    let n = close(s, gives, &mut out);
    io::write_all(STDOUT_FILENO, &out[..n]);
}

// The end of the input, or of the payer; so is a read or a write that fails.
fn main(rt: HostRuntime) {
    let mut payer = Payer {
        check: is_argument(&rt, 1, b"--check"),
        teller: start(),
        fill: lines::empty(),
        buf: [0; text::sheet::ROOM],
        gives: [0; 160],
        out: io::large_buffer(),
        at: 0,
        wrote: Ok(()),
    };
    let _ = read_all(&rt, &mut payer, &mut io::large_buffer());
    end(payer.teller, &payer.gives);
}
