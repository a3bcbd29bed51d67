// The book: the clerk with a stored log. A log on standard input, with corrections among its blocks; the answers on standard output as each block's fifth line
// comes. With the argument --log, in place of the answers, the log as it stands at the end, and on standard error a line about each block that was refused.
#![tactic(auto)]

mod keeper;

ghost use Rattle.std.specs.Prelude.{◌≡◌, ◌≤◌, ◌<◌, ⊤, length};
ghost use Rattle.lines.specs.Kept.{kept_most};
ghost use Rattle.ledger.specs.Keeping.{Held};
ghost use Rattle.book.specs.Ready.{Ready};

use argument::is_argument;
use keeper::{Keeper, start, take_lines, take_one};
use logs::copy::copy_sheet;
use logs::write_entry;
use output::{Failed, Listener, STDERR_FILENO, STDOUT_FILENO, flush, read_all, write_out};
use paper::Sheet;
use records::entry_in;
use std::ops::ControlFlow;
use text::sheet::ROOM;

// What is said is written out where more than so many bytes of it lie in its buffer: any answer and any entry has room behind them.
const ENOUGH: usize = 15000;

// A buffer for what is read at once, and for what is said.
fn buffer() -> [u8; 16384]
    ensures { 16384 ≡ length result }
{
    [0; 16384]
}

// The lent buffer of the stored log: 4,096 records of 8 bytes.
fn log_buffer() -> [u8; 32768]
    ensures { 32768 ≡ length result }
{
    [0; 32768]
}

// Where what is said goes: answers to standard output, lines about refused blocks to standard error.
fn voice(as_log: bool) -> i32 {
    if as_log { STDERR_FILENO } else { STDOUT_FILENO }
}

// The keeper, the unfinished lines and the lent buffers of the stored log; what is still to be written, and whether what was written out could be. The log has
// room for 4,096 records, its index for 1,365 rows of 44 bytes, which is as many hands as so many entries can open.
#[derive(Drop)]
struct Desk {
    keeper: Keeper,
    buf: [u8; ROOM],
    log: [u8; 32768],
    index: [u8; 65536],
    out: [u8; 16384],
    at: usize,
    wrote: Result<(), Failed>,
}

impl Desk {
    // Where the next answer goes: what lies before it is written out where it leaves too little room. Where that fails, the rest of the part is taken all the same.
    fn room(&mut self) -> usize
        requires { (self.old.at ≤ 16384) × (length self.old.out ≡ 16384) }
        ensures same { self.new ≡ record self.old { wrote = self.new.wrote } }
        ensures within { result ≤ 15000 }
    {
        match flush(voice(self.keeper.as_log), &self.out[..self.at], ENOUGH) {
            Ok(at) => at,
            Err(e) => {
                self.wrote = Err(e);
                0
            }
        }
    }
}

impl Listener for Desk {
    ghost Held = { λ d. Ready d.keeper × (kept_most ≤ length d.buf) × (length d.out ≡ 16384) × (d.at ≤ 16384) };

    ghost Heard = { λ _ _ _ _. ⊤ };

    ghost none = { λ _ _. tt };

    ghost on = { λ _ _ _ _ _ _ _ _. tt };

    // The bytes of a part up to the end of a block, which is answered; all of it where nothing more is to be read.
    fn hear(&mut self, part: &[u8]) -> Result<usize, Failed> {
        let at = self.room();
        self.keeper = take_one(
            self.keeper,
            &mut self.buf,
            &mut self.log,
            &mut self.index,
            part,
            &mut self.out[at..],
        );
        self.at = at + self.keeper.written;
        Ok(if self.keeper.more {
            self.keeper.used
        } else {
            part.len()
        })
    }

    fn pause(&mut self) -> Result<ControlFlow<()>, Failed> {
        let last = write_out(voice(self.keeper.as_log), &self.out[..self.at]);
        self.at = 0;
        self.wrote.and(last)?;
        Ok(if self.keeper.more {
            ControlFlow::Continue(())
        } else {
            ControlFlow::Break(())
        })
    }
}

// ---- the end of the input

// A block that is not whole is answered too.
fn end_block(mut k: Keeper, buf: &[u8], log: &mut [u8], index: &mut [u8]) -> Keeper
    requires { Ready k × (kept_most ≤ length buf.now) }
    ensures { Held result.book }
{
    let e = k.fill.count;
    if e == 0 {
        return k;
    }
    let mut out = [0u8; answers::LONGEST];
    k = take_lines(k, &buf[0..e], log, index, &mut out);
    let n = k.written;
    io::write_all(voice(k.as_log), &out[..n]);
    k
}

// The k-th stored entry, counted from 0, in document 01's text; how many bytes that is.
fn put_entry(s: Sheet, log: &[u8], k: u32, out: &mut [u8]) -> usize
    requires { k < 1000000 }
    ensures { result ≤ length out.old }
{
    write_entry(s, k + 1, entry_in(log, k), out).unwrap_or(0)
}

// The same behind what is written already; where that ends then.
fn put_behind(s: Sheet, log: &[u8], k: u32, out: &mut [u8], at: usize) -> usize
    requires { (k < 1000000) × (at ≤ length out.old) }
    ensures { result ≤ length out.old }
{
    at + put_entry(s, log, k, &mut out[at..])
}

// The log as it stands: the sheet, and every stored entry.
fn write_log(s: Sheet, count: u32, log: &[u8])
    requires { count ≤ 1000000 }
{
    let mut out = buffer();
    let c = copy_sheet(s, &mut out);
    let mut at = c.written;
    for k in 0..count {
        let from = flush(STDOUT_FILENO, &out[..at], ENOUGH).unwrap_or(0);
        at = put_behind(s, log, k, &mut out, from);
    }
    io::write_all(STDOUT_FILENO, &out[..at]);
}

// The input has ended: a sheet that is not whole is bad; a block that is not whole is answered; and the log is written where it is asked for.
fn end(k: Keeper, buf: &[u8], log: &mut [u8], index: &mut [u8])
    requires { Ready k × (kept_most ≤ length buf.now) }
{
    if !k.opened {
        io::write_all(STDOUT_FILENO, b"code=11\n");
        return;
    }
    let d = end_block(k, buf, log, index);
    if d.as_log {
        let s = d.sheet;
        write_log(s, d.book.table.taken, &log[0..]);
    }
}

// Whether the first argument is --log.
fn asked_for_log(rt: &HostRuntime) -> bool {
    is_argument(rt, 1, b"--log")
}

fn main(rt: HostRuntime) {
    let mut d = Desk {
        keeper: start(asked_for_log(&rt)),
        buf: [0; ROOM],
        log: log_buffer(),
        index: io::large_buffer(),
        out: buffer(),
        at: 0,
        wrote: Ok(()),
    };
    if read_all(&rt, &mut d, &mut buffer()).is_ok() {
        end(d.keeper, &d.buf, &mut d.log, &mut d.index);
    }
}
