// What the programs that go through their input part by part share: how a part is read and heard, as it comes, and how bytes are gathered in a buffer and written
// out before it is full.
#![tactic(auto)]

ghost use Rattle.std.specs.Prelude.{◌≡◌, ℕ, ◌+◌, ◌≤◌, ◌<◌, List, length, drop, leb, IfOk, IfErr};
ghost use Rattle.laws.specs.Tests.{pick};
ghost use Rattle.std.specs.Prelude.{MatchResult, Ok, Err};
ghost use Rattle.output.specs.declared.Failed.TheVariants.{Reading};

use std::io::Read;
use std::ops::ControlFlow;

// The numbers of the standard streams, by which the kit's `io` reads and writes.
pub const STDIN_FILENO: i32 = 0;

pub const STDOUT_FILENO: i32 = 1;

pub const STDERR_FILENO: i32 = 2;

// Why a program stops before the end of its input.
#[derive(Clone, Copy, Debug, PartialEq, Eq)]
pub enum Failed {
    Reading,
    Writing,
}

// How many bytes a read gave. One that failed gave none, and is no end of the input.
fn bytes_given(read: Result<usize, std::io::Error>) -> Result<usize, Failed>
    ensures { MatchResult read (λ n. result ≡ Ok n) (λ _. result ≡ Err Reading) }
{
    match read {
        Ok(count) => Ok(count),
        Err(_) => Err(Failed::Reading),
    }
}

// One read of standard input, which puts what has come so far at the start of the buffer, and says how many bytes that is. At the end of the input there are none.
pub fn read_part(rt: &HostRuntime, buf: &mut [u8]) -> Result<usize, Failed>
    ensures { IfOk result (λ n. n ≤ length buf.new) }
{
    bytes_given(rt.stdin().read(buf))
}

// Writes the bytes out.
pub fn write_out(fd: i32, bytes: &[u8]) -> Result<(), Failed> {
    if io::write_all(fd, bytes) {
        Ok(())
    } else {
        Err(Failed::Writing)
    }
}

// Writes the bytes out where there are more than `most` of them; a caller says how many leave room enough behind them. Then none is left, else all are: how many.
pub fn flush(fd: i32, bytes: &[u8], most: usize) -> Result<usize, Failed>
    ensures left { IfOk result (λ at. at ≡ pick (leb (length bytes.now) most) (length bytes.now) 0) }
    ensures within { IfOk result (λ at. (at ≤ length bytes.now) × (at ≤ most)) }
{
    let at = bytes.len();
    if at <= most {
        return Ok(at);
    }
    write_out(fd, bytes)?;
    Ok(0)
}

// Who goes through the input part by part.
pub trait Listener {
    // What is true of it between two calls.
    ghost Held: { Self → Type 0 };

    // So many bytes at the front of a part have taken it from what it was to what it is.
    ghost Heard: { Self → List ℕ → ℕ → Self → Type 0 };

    // Hears bytes at the front of a part, and says how many. Where a write failed, some are heard all the same.
    fn hear(&mut self, part: &[u8]) -> Result<usize, Failed>
        requires { Held self.old × (0 < length part.now) }
        ensures held { Held self.new }
        ensures heard { IfOk result (λ n. (0 < n) × (n ≤ length part.now) × Heard self.old part.now n self.new) }
        ensures failed { IfErr result (λ _. (n : ℕ) × (0 < n) × (n ≤ length part.now) × Heard self.old part.now n self.new) };

    // A part is heard to its end: what was gathered is written out. Whether to read on. What was heard stays as it is.
    fn pause(&mut self) -> Result<ControlFlow<()>, Failed>
        requires { Held self.old }
        ensures held { Held self.new }
        ensures still { (part : List ℕ) → Heard self.old part 0 self.new };

    ghost none: { (l : Self) (part : List ℕ) → Heard l part 0 l };

    ghost on: { (l m o : Self) (part : List ℕ) (n k : ℕ) → Heard l part n m → Heard m (drop n part) k o → Heard l part (n + k) o };
}

// A whole part. Unless a write failed, every byte of it is heard, and else the bytes at its front up to some place.
pub fn hear_part<L: Listener>(l: &mut L, part: &[u8]) -> Result<(), Failed>
    requires { L.Held l.old }
    ensures held { L.Held l.new }
    ensures heard { IfOk result (λ _. L.Heard l.old part.now (length part.now) l.new) }
    ensures failed { IfErr result (λ _. (n : ℕ) × (n ≤ length part.now) × L.Heard l.old part.now n l.new) }
{
    let mut from = 0;
    while from < part.len() {
        from += l.hear(&part[from..])?;
    }
    Ok(())
}

// Reads to the end of the input, or as far as the listener goes on. A read that fails is no end of the input. A proved loop has to end, so its turns are
// counted, to a number that no run uses up.
pub fn read_all<L: Listener>(rt: &HostRuntime, l: &mut L, buf: &mut [u8]) -> Result<(), Failed>
    requires { L.Held l.old }
    ensures { L.Held l.new }
{
    for _ in 0..u64::MAX {
        let n = read_part(rt, buf)?;
        if n == 0 {
            return Ok(());
        }
        hear_part(l, &buf[..n])?;
        if let ControlFlow::Break(()) = l.pause()? {
            return Ok(());
        }
    }
    Ok(())
}
