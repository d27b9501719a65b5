// A table value as a file of version 0001, in one way, to the byte. specs/File.antt says what is
// right, for every value and every lent buffer.
#![tactic(auto, using(put::proofs::Pages::pages), unfolding(put::specs::Inner::Page::added))]

ghost use Rattle.std.specs.Prelude.{cond, [], ◌∷◌, ◌++◌, map, ◌≡◌, take};
ghost use Rattle.letters.specs.Letter.{width, members};
ghost use Rattle.text.specs.Lines.{LF as lineEnd, ended, joined, space};
ghost use Rattle.text.specs.Words.{signals_word, or_sign, not_sign};
ghost use Rattle.put.specs.Inner.Page.{added};
ghost use Rattle.writer.specs.Inner.Writing.{behind, names_of, fields_of, field_text, not_written};
ghost use Rattle.writer.specs.File.{name_text, term_text, condition_text, row_text, file_text};
ghost use Rattle.writer.specs.File.{write_answer};

use put::Page;
use table::{FIELDS, MOST_BYTES, MOST_SIGNALS, Name, Outcome, Refusal, Row, Signals, Table};
use text::LF;

// Whether a table was written, and how long its file is: 0 where it was not.
// Kept: an outcome beside a value, of which theorems speak on refusal too (`write_17`).
#[derive(Clone, Copy, Debug, PartialEq, Eq)]
pub struct Written {
    pub outcome: Outcome,
    pub length: usize,
}

// What a field of a row's line holds.
#[derive(Clone, Copy, Debug, PartialEq, Eq)]
enum Field {
    Condition(u64),
    Bound(u8),
}

// The first so many, or all if there are fewer.
#[tactic(auto, using(std::proofs::lemmas::List::take_min))]
fn first<T>(all: &[T], count: u8) -> &[T]
    ensures { result.now ≡ take count all.now }
{
    &all[..usize::from(count).min(all.len())]
}

// A name, without its zeros.
#[tactic(auto, using(table::proofs::Laws::name_run_le))]
fn put_name(page: &mut Page, name: Name)
    ensures { page.new ≡ added page.old (name_text name) }
{
    let run = table::names::name_run(name.chars);
    page.word(&name.chars[..run]);
}

// A name, after `!` where its signal is off.
fn put_literal(page: &mut Page, name: Name, on: bool)
    ensures { page.new ≡ added page.old (cond on (name_text name) (not_sign ∷ name_text name)) }
{
    if !on {
        page.byte(b'!');
    }
    put_name(page, name);
}

// A byte between two pieces, where there is a piece before.
fn put_between(page: &mut Page, b: u8, later: bool)
    ensures { page.new ≡ added page.old (cond later (b ∷ []) []) }
{
    if later {
        page.byte(b);
    }
}

// The term of a letter: every signal, with `&` between them.
#[tactic(auto, using(crate::proofs::Turns::literal_turns), unfolding(put::specs::Inner::Page::added))]
fn put_term(page: &mut Page, signals: &Signals, letter: u8)
    ensures { page.new ≡ added page.old (term_text (names_of signals.now) letter) }
{
    for (k, name) in first(&signals.names, signals.count).iter().enumerate() {
        put_between(page, b'&', 0 < k);
        let on = letters::contains(u64::from(letter), k as u8);
        put_literal(page, *name, on);
    }
}

// A term for each letter of a set that the signals have, smallest first, with `|` between them.
#[tactic(auto, using(crate::proofs::Turns::term_turns), unfolding(put::specs::Inner::Page::added))]
fn put_terms(page: &mut Page, signals: &Signals, set: u64)
    ensures { page.new ≡ added page.old (joined or_sign (map (term_text (names_of signals.now))
        (members (width signals.now.count) 0 set))) }
{
    let mut later = false;
    for letter in 0..letters::width_of(signals.count) {
        if letters::contains(set, letter) {
            put_between(page, b'|', later);
            put_term(page, signals, letter);
            later = true;
        }
    }
}

// A condition: `0`, `1`, or its terms. Letters that the signals do not have count for nothing; and
// no set has all letters of more signals than a table can have.
fn put_condition(page: &mut Page, signals: &Signals, set: u64)
    ensures { page.new ≡ added page.old
        (condition_text (names_of signals.now) signals.now.count set) }
{
    let all = letters::all(signals.count);
    let held = set & all;
    if held == 0 {
        page.byte(b'0');
    } else if held == all && usize::from(signals.count) <= MOST_SIGNALS {
        page.byte(b'1');
    } else {
        put_terms(page, signals, set);
    }
}

// The fields of a row, in file order.
fn fields_of(row: &Row) -> [Field; FIELDS]
    ensures { result ≡ fields_of row.now }
{
    [
        Field::Condition(row.sets[0]),
        Field::Condition(row.sets[1]),
        Field::Condition(row.sets[2]),
        Field::Bound(row.tmin),
        Field::Bound(row.tmax),
        Field::Bound(row.lmin),
        Field::Bound(row.lmax),
        Field::Condition(row.sets[3]),
        Field::Condition(row.sets[4]),
        Field::Condition(row.sets[5]),
        Field::Bound(row.amin),
        Field::Bound(row.amax),
    ]
}

fn put_field(page: &mut Page, signals: &Signals, field: Field)
    ensures { page.new ≡ added page.old
        (field_text (names_of signals.now) signals.now.count field) }
{
    match field {
        Field::Condition(set) => put_condition(page, signals, set),
        Field::Bound(n) => page.decimal(u32::from(n)),
    }
}

// The line of a row.
#[tactic(auto, using(crate::proofs::Turns::field_turns), unfolding(put::specs::Inner::Page::added))]
fn put_row(page: &mut Page, signals: &Signals, row: &Row)
    ensures { page.new ≡ added page.old
        (row_text (names_of signals.now) signals.now.count row.now ++ lineEnd ∷ []) }
{
    page.word(b"rule ");
    for (k, field) in fields_of(row).iter().enumerate() {
        put_between(page, b',', 0 < k);
        put_field(page, signals, *field);
    }
    page.byte(LF);
}

// The names of the signals, each after a space.
#[tactic(auto, using(crate::proofs::Turns::name_turns), unfolding(put::specs::Inner::Page::added, crate::specs::Inner::Writing::behind))]
fn put_names(page: &mut Page, signals: &Signals)
    ensures { page.new ≡ added page.old
        (behind space (map name_text (names_of signals.now))) }
{
    for name in first(&signals.names, signals.count) {
        page.byte(b' ');
        put_name(page, *name);
    }
}

// Line 2.
#[tactic(auto, using(crate::proofs::Turns::signal_line), unfolding(put::specs::Inner::Page::added))]
fn put_signals(page: &mut Page, signals: &Signals)
    ensures { page.new ≡ added page.old
        (joined space (signals_word ∷ map name_text (names_of signals.now)) ++ lineEnd ∷ []) }
{
    page.word(b"signals");
    put_names(page, signals);
    page.byte(LF);
}

// The lines of the first `count` rows, or of all if there are fewer.
#[tactic(auto, using(crate::proofs::Turns::row_turns))]
fn put_rows(page: &mut Page, signals: &Signals, rows: &[Row], count: u8)
    ensures { page.new ≡ added page.old
        (ended (map (row_text (names_of signals.now) signals.now.count) (take count rows.now))) }
{
    for row in first(rows, count) {
        put_row(page, signals, row);
    }
}

// The whole file.
fn put_file(page: &mut Page, table: &Table)
    ensures { page.new ≡ added page.old (file_text table.now) }
{
    let signals = Signals {
        count: table.signals,
        names: table.names,
    };
    page.word(b"PNP 0001\n");
    put_signals(page, &signals);
    put_rows(page, &signals, &table.rows, table.count);
}

// Kept: numbers, by which documents, theorems and reports name a refusal.
fn refused(number: u8) -> Written
    ensures { result ≡ not_written number }
{
    Written {
        outcome: Err(Refusal { number, line: 0 }),
        length: 0,
    }
}

// Writes a table value as a file of version 0001 from the buffer's front, and answers its length;
// or 17, 23 or 24, in this order, and the buffer is unchanged. The file is put twice: into no
// buffer, to know its length, and then into the lent one.
#[tactic(auto, using(crate::proofs::Answers::long_file))]
pub fn write(table: Table, out: &mut [u8]) -> Written
    ensures { record {
      outcome = result.outcome;
      length = result.length;
      buffer = out.new;
    }
        ≡ write_answer table out.old }
{
    if !table::valid(table) {
        return refused(17);
    }
    let mut none = [0u8; 0];
    let mut counted = Page::new(&mut none);
    put_file(&mut counted, &table);
    if MOST_BYTES < counted.at {
        return refused(23);
    }
    if out.len() < counted.at {
        return refused(24);
    }
    let mut page = Page::new(out);
    put_file(&mut page, &table);
    Written {
        outcome: Ok(()),
        length: page.at,
    }
}
