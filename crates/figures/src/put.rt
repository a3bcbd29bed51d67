// Bytes written at a place of a lent sheet: each writer goes on where the last one ended.
ghost use Rattle.std.specs.Prelude.{[], ◌+◌, ◌≤◌, length};
ghost use Rattle.laws.specs.Tests.{pick};
ghost use Rattle.figures.specs.Placing.{Put};

use writing::put_bytes;

// These bytes, and the place behind them.
pub fn put(out: &mut [u8], at: usize, bytes: &[u8]) -> usize
    requires { at + length bytes.now ≤ length out.old }
    ensures { Put bytes.now at out.old out.new result }
{
    at + put_bytes(&mut out[at..], bytes)
}

// These bytes where a test passes, else none.
pub fn put_if(out: &mut [u8], at: usize, test: bool, bytes: &[u8]) -> usize
    requires { at + length bytes.now ≤ length out.old }
    ensures { Put (pick test bytes.now []) at out.old out.new result × (result ≤ at + length bytes.now) }
{
    if test {
        return put(out, at, bytes);
    }
    at
}
