// Two tables that share a jackpot pool: their blocks on standard input, the answers on standard output. With the argument --table and 1 or 2 only that table's answers
// are written, for its screen.
#![tactic(auto)]

ghost use Rattle.std.specs.Prelude.{◌≡◌, ◌≤◌, length};
ghost use Rattle.lines.specs.Kept.{kept_most};
ghost use Rattle.frames.specs.Frames.{Held};
ghost use Rattle.couple.specs.Couple.{Good, room_most};
ghost use Rattle.pairs.specs.Pairs.{HeardTo};
ghost use Rattle.pair.specs.Hearing.{hears_none, hears_on};

use argument::is_argument;
use couple::{Pair, last_lines};
use frames::Frame;
use output::{Failed, Listener, STDOUT_FILENO, read_all, write_out};
use pairs::{close, feed_on};
use std::ops::ControlFlow;

// The pair, what is due, the table whose screen is written (0 for both), the unfinished lines and a sheet for the answers.
#[derive(Drop)]
struct Tables {
    pair: Pair,
    frame: Frame,
    only: u8,
    buf: [u8; text::sheet::ROOM],
    out: [u8; 65536],
}

impl Listener for Tables {
    ghost Held = { λ t. Good t.pair × Held t.frame × (t.only ≤ 2) × (kept_most ≤ length t.buf) × (room_most ≤ length t.out) };

    ghost Heard = { λ t part n u. (u.only ≡ t.only) × HeardTo t.only t.pair t.frame t.buf part 0 u.pair u.frame u.buf n };

    ghost none = { λ t part. hears_none t.only t.pair t.frame t.buf part };

    ghost on = { λ t u v part n k. hears_on t.only t.pair t.frame t.buf part n u.only u.pair u.frame u.buf v.only v.pair v.frame v.buf k };

    // Bytes at the front of a part, as far as their answers have room in one sheet: they are written out.
    fn hear(&mut self, part: &[u8]) -> Result<usize, Failed> {
        let d = feed_on(
            self.pair,
            self.frame,
            self.only,
            &mut self.buf,
            part,
            &mut self.out,
        );
        self.pair = d.pair;
        self.frame = d.frame;
        write_out(STDOUT_FILENO, &self.out[..d.written])?;
        Ok(d.used)
    }

    fn pause(&mut self) -> Result<ControlFlow<()>, Failed> {
        Ok(if self.pair.shut {
            ControlFlow::Break(())
        } else {
            ControlFlow::Continue(())
        })
    }
}

// The table whose screen is written, 0 for both tables.
fn only_table(rt: &HostRuntime) -> u8
    ensures { result ≤ 2 }
{
    if is_argument(rt, 1, b"--table") {
        if is_argument(rt, 2, b"1") {
            return 1;
        }
        return 2;
    }
    0
}

// Behind the last block.
fn last(p: Pair, only: u8)
    requires { Good p }
{
    let mut out = [0u8; couple::ROOM];
    let n = last_lines(p, only, &mut out);
    io::write_all(STDOUT_FILENO, &out[0..n]);
}

// The input has ended: what is not whole is answered too.
fn end(p: Pair, f: Frame, only: u8)
    requires { Good p × Held f × (only ≤ 2) }
{
    let mut out = [0u8; couple::ROOM];
    let s = close(p, f, only, &mut out);
    let n = s.written;
    if io::write_all(STDOUT_FILENO, &out[0..n]) {
        let q = s.pair;
        last(q, only);
    }
}

fn main(rt: HostRuntime) {
    let only = only_table(&rt);
    let mut tables = Tables {
        pair: couple::start(),
        frame: frames::start(),
        only,
        buf: [0; text::sheet::ROOM],
        out: io::large_buffer(),
    };
    if read_all(&rt, &mut tables, &mut io::large_buffer()).is_ok() {
        end(tables.pair, tables.frame, only);
    }
}
