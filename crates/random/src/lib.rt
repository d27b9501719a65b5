// What the tests of random tables share: random numbers and tables, a second reading of the step
// rules, made from documents 01 and 02 alone, and what is counted and printed. No function asks
// for anything.
#![tactic(auto)]

pub mod numbers;
pub mod rules;
pub mod spoil;
pub mod tables;
pub mod tally;
