// The demo board's messages: the table that they stand in, their writers and their readers.

#![tactic(auto)]

pub mod reading;
pub mod rows;
pub mod writing;
