// Pots of made-up hands, for the comparison with the second program (tests/pots): a hand a line on standard input, an answer a line on standard output.
// A hand is numbers with blanks between them, `seats puck rate cap step board drop`, and then for each seat its total, whether it is live, its strength, whether it is there.
#![tactic(auto)]

mod hand;
mod line;
mod lines;

ghost use Rattle.std.specs.Prelude.{◌≡◌, ◌≤◌, ⊤, length};

use crate::line::Scan;
use output::{Failed, Listener, STDOUT_FILENO, flush, read_all};
use std::ops::ControlFlow;

// The room for an answer line, and how much may stand in the large buffer before it is written out, so that a line has room behind it.
const LINE: usize = 600;

const ENOUGH: usize = 64000;

// The line so far, its numbers, and the answers still to be written.
#[derive(Drop)]
struct Desk {
    scan: Scan,
    nums: [u32; 47],
    out: [u8; 65536],
    at: usize,
}

impl Desk {
    // The LF of a line, which is answered. That what is written out fails is not told.
    fn end_line(&mut self, scan: Scan)
        requires { (length self.old.out ≡ 65536) × (self.old.at ≤ 65536) }
        ensures { (length self.new.out ≡ 65536) × (self.new.at ≤ 65536) }
    {
        let end = line::with_number(&mut self.nums, scan);
        let from = flush(STDOUT_FILENO, &self.out[..self.at], ENOUGH).unwrap_or(0);
        self.at = lines::answer(&self.nums, end, &mut self.out, from);
    }
}

impl Listener for Desk {
    ghost Held = { λ d. (length d.out ≡ 65536) × (d.at ≤ 65536) };

    ghost Heard = { λ _ _ _ _. ⊤ };

    ghost none = { λ _ _. tt };

    ghost on = { λ _ _ _ _ _ _ _ _. tt };

    // Answers every line that ends in this part of the input. The line so far is kept beside the loop, since most bytes end none.
    fn hear(&mut self, part: &[u8]) -> Result<usize, Failed> {
        let mut scan = self.scan;
        for b in part {
            if *b == 10 {
                self.end_line(scan);
                scan = line::fresh();
            } else {
                scan = line::with_byte(&mut self.nums, scan, *b);
            }
        }
        self.scan = scan;
        Ok(part.len())
    }

    fn pause(&mut self) -> Result<ControlFlow<()>, Failed> {
        io::write_all(STDOUT_FILENO, &self.out[..self.at]);
        self.at = 0;
        Ok(ControlFlow::Continue(()))
    }
}

// The last line may lack its LF. A read that fails is taken for the end of the input.
fn main(rt: HostRuntime) {
    let mut d = Desk {
        scan: line::fresh(),
        nums: [0; 47],
        out: io::large_buffer(),
        at: 0,
    };
    let _ = read_all(&rt, &mut d, &mut io::large_buffer());
    let scan = d.scan;
    if line::begun(scan) {
        let mut out = [0u8; LINE];
        let end = line::with_number(&mut d.nums, scan);
        let n = lines::answer(&d.nums, end, &mut out, 0);
        io::write_all(STDOUT_FILENO, &out[..n]);
    }
}
