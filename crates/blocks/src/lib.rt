// The entries of document 01, as they are read: a block of five lines at the front of a log, and the entry that it is.
#![tactic(auto)]

mod firsts;
mod front;
mod kind;
mod reader;
mod runs;
mod words;

pub use front::{Front, front_rest, read_front};
pub use kind::{entry_at, entry_of};
pub use reader::{BLOCK_LINES, block_from, line_kind, read_block, rest};

// A block's five numbers, the kind as its place in the table of kinds, 12 for a word that is none of them; that its form is wrong: code 1; or that
// no bytes are left. Its callers answer each of the three apart, and none passes one up: Option<Result<..>> would only be matched two deep.
#[derive(Clone, Copy)]
pub enum Block {
    Raw {
        n: u32,
        kind: u32,
        seat: u32,
        a: u32,
        b: u32,
    },
    Malformed,
    Nothing,
}
