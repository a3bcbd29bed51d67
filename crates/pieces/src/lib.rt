// What stands in a picture of the table: an empty one, numbers, words, cards, the seats of a pot; and its colours on a terminal. Bounds are promised.
#![tactic(auto)]

pub mod colours;
pub mod parts;
