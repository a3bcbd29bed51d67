// A sheet and an entry written in document 01's text form, each at the front of a lent buffer; and a log copied fair.
#![tactic(auto)]

pub mod copy;
mod entry;
mod sheet;

pub use entry::write_entry;
pub use sheet::write_sheet;
