// One row of the screen's picture, and what stands in it: a number in columns, a large digit, a refusal in words.
#![tactic(auto)]

pub mod font;
pub mod grouped;
pub mod put;
pub mod row;
