// Crown Hold'em: rounds on standard input, a block of sixteen lines each, and what comes back of every wager on standard output.
#![tactic(auto)]

ghost use Rattle.std.specs.Prelude.{◌≡◌, ◌≤◌, ⊤, length};
ghost use Rattle.rounds.specs.RoundParts.{Held};

use output::{Failed, Listener, STDOUT_FILENO, flush, read_all, write_out};
use rounds::{Fill, close, empty, feed};
use std::ops::ControlFlow;

// Answers are written out where less than an answer's room, 216 bytes, is left behind them.
const ENOUGH: usize = 65000;

// What is kept of the unfinished block, and the answers that are still to be written.
#[derive(Drop)]
struct House {
    fill: Fill,
    buf: [u8; 544],
    out: [u8; 65536],
    at: usize,
}

impl Listener for House {
    ghost Held = { λ h. Held h.fill × (544 ≤ length h.buf) × (length h.out ≡ 65536) × (h.at ≤ 65536) };

    ghost Heard = { λ _ _ _ _. ⊤ };

    ghost none = { λ _ _. tt };

    ghost on = { λ _ _ _ _ _ _ _ _. tt };

    // The bytes of a part up to the end of a block, or all of it.
    fn hear(&mut self, part: &[u8]) -> Result<usize, Failed> {
        let at = flush(STDOUT_FILENO, &self.out[..self.at], ENOUGH)?;
        let f = feed(self.fill, &mut self.buf, part, &mut self.out[at..]);
        self.fill = f.fill;
        self.at = at + f.written;
        Ok(f.used)
    }

    fn pause(&mut self) -> Result<ControlFlow<()>, Failed> {
        write_out(STDOUT_FILENO, &self.out[..self.at])?;
        self.at = 0;
        Ok(ControlFlow::Continue(()))
    }
}

// The input has ended: a block that is not whole is answered too.
fn end(m: Fill, buf: &[u8])
    requires { Held m × (544 ≤ length buf.now) }
{
    let mut out = [0u8; 216];
    let n = close(m, buf, &mut out);
    io::write_all(STDOUT_FILENO, &out[..n]);
}

// A read that fails is taken for the end of the input.
fn main(rt: HostRuntime) {
    let mut house = House {
        fill: empty(),
        buf: [0; 544],
        out: io::large_buffer(),
        at: 0,
    };
    if let Err(Failed::Writing) = read_all(&rt, &mut house, &mut io::large_buffer()) {
        return;
    }
    end(house.fill, &house.buf);
}
