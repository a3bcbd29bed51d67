// The box for makers of boxes: what C and Rust on x86-64 link through crates/embed_c (include/clerk.h is its header). What nothing here can prove stands in that
// header: a pointer is to so many elements as are said, and no lent array overlaps another.
#![tactic(auto)]

ghost use Rattle.std.specs.Prelude.{◌≡◌, ◌≤◌, length};
ghost use Rattle.writing.specs.AnswerSheet.{Wrote};
ghost use Rattle.stream.specs.Feeding.{longest_answer};
ghost use Rattle.desk.specs.Log.{output_in};
ghost use Rattle.embed.specs.Lent.{state_size, KeptState, start_code, call_code, StartedIn, CalledIn, FedIn, closing_in, ClosedIn};

use answers::LONGEST;
use desk::log::run;
use packed::{FIELDS, pack, unpack};
use text::sheet::ROOM;

// A whole log, sheet and entries: its answers at the front of the lent bytes, and how many bytes they are. A block whose answer finds no room is refused with 12:
// nothing is written for it and the table stays.
pub fn clerk_run(log: &[u8], out: &mut [u8]) -> usize
    ensures { Wrote (output_in log.now (length out.old)) out.old out.new result }
{
    run(log, out)
}

// ---- as it arrives: the clerk stands in one lent array between the calls

// How many bytes of state are lent: the clerk's, and behind them those of an unfinished sheet or block.
const STATE: usize = FIELDS + ROOM;

// What is refused, and changes nothing: a state, an output or counts that are too short. Numbers, since the calls of
// the C interface return them (include/clerk.h).
const NO_STATE: u32 = 1;

const NO_OUT: u32 = 2;

const NO_COUNTS: u32 = 3;

fn start_code(state: usize) -> u32
    ensures is { result ≡ start_code state }
    ensures room { (result ≡ 0 → state_size ≤ state) × (state_size ≤ state → result ≡ 0) }
{
    if state < STATE {
        return NO_STATE;
    }
    0
}

// The code of a call that writes so many counts.
fn call_code(state: usize, out: usize, counts: usize, want: usize) -> u32
    ensures is { result ≡ call_code state out counts want }
    ensures room { result ≡ 0 → (state_size ≤ state) × (longest_answer ≤ out) × (want ≤ counts) }
{
    if state < STATE {
        return NO_STATE;
    }
    if out < LONGEST {
        return NO_OUT;
    }
    if counts < want {
        return NO_COUNTS;
    }
    0
}

// Before the first byte of a log.
pub fn clerk_start(state: &mut [u8]) -> u32
    ensures { StartedIn state.old state.new result }
{
    let code = start_code(state.len());
    if code != 0 {
        return code;
    }
    let c = stream::start();
    pack(state, c);
    code
}

// What a call has done: how many bytes of the part it used up, and how many it wrote.
#[derive(Clone, Copy)]
struct Did {
    used: usize,
    written: usize,
}

// A part of the log, as far as one call goes.
fn feed_in(state: &mut [u8], part: &[u8], out: &mut [u8]) -> Did
    requires { KeptState state.old × (state_size ≤ length state.old) }
    ensures { CalledIn state.old part.now out.old state.new out.new result.used result.written }
{
    let c = unpack(&state[..]);
    let f = stream::feed(c, &mut state[FIELDS..], part, out);
    let d = f.clerk;
    pack(state, d);
    Did {
        used: f.used,
        written: f.written,
    }
}

// A part of the log, as far as one call goes: its answers at the front of `out`, and into `counts` how many bytes they are and how many of the part are used up.
pub fn clerk_feed(state: &mut [u8], part: &[u8], out: &mut [u8], counts: &mut [usize]) -> u32
    requires { KeptState state.old }
    ensures { FedIn state.old part.now out.old counts.old state.new out.new counts.new result }
{
    let code = call_code(state.len(), out.len(), counts.len(), 2);
    if code != 0 {
        return code;
    }
    let did = feed_in(state, part, out);
    counts[0] = did.written;
    counts[1] = did.used;
    code
}

// The end of the log.
fn close_in(state: &[u8], out: &mut [u8]) -> usize
    requires { KeptState state.now × (state_size ≤ length state.now) }
    ensures { Wrote (closing_in state.now (length out.old)) out.old out.new result }
{
    let c = unpack(state);
    let e = stream::close(c, &state[FIELDS..], out);
    e.written
}

// The end of the log: the answer to what is unfinished, if there is one, and into `counts` how many bytes it is. The state stays.
pub fn clerk_close(state: &[u8], out: &mut [u8], counts: &mut [usize]) -> u32
    requires { KeptState state.now }
    ensures { ClosedIn state.now out.old counts.old out.new counts.new result }
{
    let code = call_code(state.len(), out.len(), counts.len(), 1);
    if code != 0 {
        return code;
    }
    let n = close_in(state, out);
    counts[0] = n;
    code
}
