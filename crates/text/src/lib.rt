// The text form of document 01, as it is read: numbers, lines, and the table sheet.
#![tactic(auto)]

pub mod decimal;
pub mod line;
pub mod sheet;

pub use line::read_key_number;
