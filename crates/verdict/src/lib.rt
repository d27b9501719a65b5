// What is found of a table: the search answers it, and the report is written from it.
// specs/Found.antt gives document 01's number and values for each case.
#![tactic(auto)]

use table::Refusal;

// Lists of rows, each as a set: bit r is row r + 1.
#[derive(Clone, Copy, Debug, PartialEq, Eq)]
pub struct RowLists {
    // The rows that never fire.
    pub never: u64,
}

// What every verdict comes with: the count of reached states, and the lists of rows.
#[derive(Clone, Copy, Debug, PartialEq, Eq)]
pub struct Summary {
    pub count: u16,
    pub lists: RowLists,
}

// The trap: how many letters of the trace buffer lead into it, and the lost number there.
#[derive(Clone, Copy, Debug, PartialEq, Eq)]
pub struct Trap {
    pub length: u16,
    pub lost: u16,
}

// One of the two verdicts.
#[derive(Clone, Copy, Debug, PartialEq, Eq)]
pub enum Finding {
    Sound(Summary),
    Trapped(Summary, Trap),
}

// A verdict; or a refusal, since a refused file or search has no verdict.
pub type Found = Result<Finding, Refusal>;
