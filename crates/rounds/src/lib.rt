// Rounds of Crown Hold'em (request No. 14) in text: a block of sixteen lines read, its answer written, and blocks gathered from the parts in which they arrive.
#![tactic(auto)]

mod answering;
mod parts;
mod reading;

pub use parts::{Fed, Fill, close, empty, feed};
