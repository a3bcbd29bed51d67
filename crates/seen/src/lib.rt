// What a screen beside the table knows: the table, the last entry's verdict, the last settlement and whose hands were killed. The log may come cut anywhere.
#![tactic(auto)]

pub mod feed;
pub mod seat;
pub mod told;
