// Table values: what the reader gives, and what the watcher and the search take; and the test for
// number 17. specs/Limits.antt, Row.antt, Name.antt and Valid.antt say what is right.
#![tactic(auto)]

pub mod names;
pub mod rows;

ghost use Rattle.std.specs.Prelude.{◌≡◌};
ghost use Rattle.table.specs.Valid.{counts_allowed, table_valid};

// The limits of document 01. specs/Limits.antt has them too.
pub const MOST_BYTES: usize = 4096;

pub const MOST_SIGNALS: usize = 6;

pub const MOST_ROWS: usize = 8;

pub const MOST_TICKS: u8 = 60;

pub const NAME_CHARS: usize = 8;

// The places of a row's conditions, in the order of the file's fields.
// Kept: numbers, since `holds` of specs/Row.antt takes the place, and the reader counts them.
pub const CONDITIONS: usize = 6;

pub const TSE: usize = 0;

pub const TC: usize = 1;

pub const TEE: usize = 2;

pub const ASE: usize = 3;

pub const AC: usize = 4;

pub const AEE: usize = 5;

// The fields of a row's line.
pub const FIELDS: usize = 12;

// A row: its six conditions as sets of letters, and the bounds of trigger, delay and action.
// Kept: six bounds, not three pairs: `row_valid` and the theorems name each of them.
#[derive(Clone, Copy, Debug, Default, PartialEq, Eq)]
pub struct Row {
    pub sets: [u64; CONDITIONS],
    pub tmin: u8,
    pub tmax: u8,
    pub lmin: u8,
    pub lmax: u8,
    pub amin: u8,
    pub amax: u8,
}

// A signal's name: its letters a-z, then zeros.
// Kept: eight places, since there is no heap, and `name_valid` speaks of those after the letters.
#[derive(Clone, Copy, Debug, Default, PartialEq, Eq)]
pub struct Name {
    pub chars: [u8; NAME_CHARS],
}

// The signals of a table: the first `count` names are used.
#[derive(Clone, Copy, Debug, Default, PartialEq, Eq)]
pub struct Signals {
    pub count: u8,
    pub names: [Name; MOST_SIGNALS],
}

// A table value. The first `signals` names and the first `count` rows are used; the others are 0.
// Kept: counts beside arrays, since there is no heap, and `table_valid` speaks of the other places.
#[derive(Clone, Copy, Debug, Default, PartialEq, Eq)]
pub struct Table {
    pub signals: u8,
    pub names: [Name; MOST_SIGNALS],
    pub count: u8,
    pub rows: [Row; MOST_ROWS],
}

// Why a file or a call is turned down: document 01's number, and the line that it names or 0.
// Kept: numbers, since `refused_at`, the documents and the printed reports name a refusal by them.
#[derive(Clone, Copy, Debug, PartialEq, Eq)]
pub struct Refusal {
    pub number: u8,
    pub line: u8,
}

// Whether a file or a call was taken.
pub type Outcome = Result<(), Refusal>;

// Whether a file can have so many signals and so many rows.
#[tactic(auto, unfolding(crate::specs::Valid::counts_allowed))]
pub fn counts_allowed(signals: u8, count: usize) -> bool
    ensures { result ≡ counts_allowed signals count }
{
    (1..=MOST_SIGNALS).contains(&usize::from(signals)) & (1..=MOST_ROWS).contains(&count)
}

// Whether number 17 lets a table value by.
pub fn valid(table: Table) -> bool
    ensures { result ≡ table_valid table }
{
    let signals = usize::from(table.signals);
    let count = usize::from(table.count);
    counts_allowed(table.signals, count)
        & names::used_valid(table.names, signals)
        & names::distinct(table.names, signals)
        & names::rest_unused(table.names, signals)
        & rows::used_valid(table.signals, table.rows, count)
        & rows::rest_unused(table.rows, count)
}
