// The teller of the program `pay`: what a line says, and what is kept between two lines. The texts that it writes are `payments`'.
#![tactic(auto)]

mod keys;
mod state;

pub use keys::{GIVE, Line, said};
pub use state::{
    ANSWERS_DUE, FAULT, Listed, PROPOSAL_DUE, Teller, Tray, anew, answer_line, faulty, give_line,
    put, start, tray_line,
};
