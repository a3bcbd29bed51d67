// What the supervisor's page is written with: a pen over a lent buffer, which is written out before a text that has no room, numbers, cards and fixed words.
// Nothing else reaches the page, so nothing of a log needs to be escaped.
#![tactic(auto)]

pub mod pen;
pub mod words;
