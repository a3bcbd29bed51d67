// What C and Rust on x86-64 link: the calls of `embed` under their names in C, each with the clauses of the call that it makes. `rt lib` here proves it and makes
// out/libembed_c.a, which leaves the house as libclerk.a; include/clerk.h is its header. A slice is two parameters in C, a pointer and how many elements there
// are.
#![tactic(auto)]

ghost use Rattle.std.specs.Prelude.{length};
ghost use Rattle.writing.specs.AnswerSheet.{Wrote};
ghost use Rattle.desk.specs.Log.{output_in};
ghost use Rattle.embed.specs.Lent.{KeptState, StartedIn, FedIn, ClosedIn};

// A whole log at one go.
#[unsafe(no_mangle)]
pub extern "C" fn clerk_run(log: &[u8], out: &mut [u8]) -> usize
    ensures { Wrote (output_in log.now (length out.old)) out.old out.new result }
{
    embed::clerk_run(log, out)
}

// Before the first byte of a log.
#[unsafe(no_mangle)]
pub extern "C" fn clerk_start(state: &mut [u8]) -> u32
    ensures { StartedIn state.old state.new result }
{
    embed::clerk_start(state)
}

// A part of the log, as far as one call goes.
#[unsafe(no_mangle)]
pub extern "C" fn clerk_feed(
    state: &mut [u8],
    part: &[u8],
    out: &mut [u8],
    counts: &mut [usize],
) -> u32
    requires { KeptState state.old }
    ensures { FedIn state.old part.now out.old counts.old state.new out.new counts.new result }
{
    embed::clerk_feed(state, part, out, counts)
}

// The end of the log.
#[unsafe(no_mangle)]
pub extern "C" fn clerk_close(state: &[u8], out: &mut [u8], counts: &mut [usize]) -> u32
    requires { KeptState state.now }
    ensures { ClosedIn state.now out.old counts.old out.new counts.new result }
{
    embed::clerk_close(state, out, counts)
}
