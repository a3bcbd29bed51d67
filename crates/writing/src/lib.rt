// The text form of document 01, as it is written: digits, number lines and the table sheet's lines at the front of a lent sheet.
#![tactic(auto)]

mod decimal;
pub mod sheet;
mod writer;

pub use decimal::{digit_count, put_digits};
pub use writer::{put_bytes, write_amount_line, write_nine_line, write_number_line};
