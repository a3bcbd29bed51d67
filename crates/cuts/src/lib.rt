// What is kept of lines that come byte by byte, each cut after 33 bytes: definitions and laws alone, for any number of lines to a block.
#![tactic(auto)]
