// Reading lines 1 and 2: the version, and the names of the signals. specs/Header.antt says what is
// right, specs/Inner/Header.antt which of 4 to 8 other bytes get.
#![tactic(auto)]

ghost use Rattle.std.specs.Prelude.{◌≡◌, true, length, take, cond, eqb, ◌&&◌, Ok, Err};
ghost use Rattle.letters.specs.Lists.{every};
ghost use Rattle.text.specs.Lines.{space};
ghost use Rattle.text.specs.Inner.Cut.{split};
ghost use Rattle.table.specs.Limits.{name_length};
ghost use Rattle.conditions.specs.Condition.{name_of};
ghost use Rattle.header.specs.Header.{is_digit16};
ghost use Rattle.header.specs.Inner.Header.{version_answer, name_shaped, signals_answer};
ghost use Rattle.header.specs.Inner.Gathering.{name_added, names_answer};

use table::{MOST_SIGNALS, NAME_CHARS, Name, Signals};
use text::Version;

// A digit 0-9 or A-F.
fn is_digit16(b: u8) -> bool
    ensures { result ≡ is_digit16 b }
{
    matches!(b, b'0'..=b'9' | b'A'..=b'F')
}

// Whether bytes are a version: four such digits.
#[tactic(auto, using(crate::proofs::HeaderLaws::digits_four))]
fn is_version(s: &[u8]) -> bool
    ensures { result ≡ (eqb (length s.now) 4 && every is_digit16 s.now) }
{
    match *s {
        [a, b, c, d] => is_digit16(a) & is_digit16(b) & is_digit16(c) & is_digit16(d),
        _ => false,
    }
}

// The version that line 1 gives; or 4, then 5.
pub fn read_version(line: &[u8]) -> Result<Version, u8>
    ensures { result ≡ version_answer line.now }
{
    let digits = line.strip_prefix(b"PNP ").ok_or(4)?;
    if !is_version(digits) {
        return Err(4);
    }
    if digits == b"0001".as_slice() {
        Ok(Version::First)
    } else {
        Err(5)
    }
}

// Whether bytes are a name: 1 to 8 letters a-z.
#[tactic(auto, unfolding(crate::specs::Inner::Header::name_shaped, letters::specs::Lists::every))]
fn is_name(s: &[u8]) -> bool
    ensures { result ≡ name_shaped s.now }
{
    letters::within(1, NAME_CHARS, s.len()) && s.iter().all(|b| table::names::is_lowercase(*b))
}

// Keeps a word as the name at place n, if there is such a place; or 6, where it is no name.
fn keep_name(names: &mut [Name; MOST_SIGNALS], n: usize, word: &[u8]) -> Result<(), u8>
    ensures told { result ≡ cond (name_shaped word.now) (Ok tt) (Err 6) }
    ensures kept { name_shaped word.now ≡ true → names.new ≡ name_added names.old n
        (name_of (take name_length word.now)) }
{
    if !is_name(word) {
        return Err(6);
    }
    if n < MOST_SIGNALS {
        names[n] = conditions::name_of(word, NAME_CHARS);
    }
    Ok(())
}

// The first n names that were read; or 7, then 8.
fn judge_names(names: [Name; MOST_SIGNALS], n: usize) -> Result<Signals, u8>
    ensures { result ≡ names_answer names n }
{
    if MOST_SIGNALS < n {
        return Err(7);
    }
    if !table::names::distinct(names, n) {
        return Err(8);
    }
    Ok(Signals {
        count: n as u8,
        names,
    })
}

// The names of line 2; or 6, 7 or 8, in this order, each over the whole line.
pub fn read_signals(line: &[u8]) -> Result<Signals, u8>
    ensures { result ≡ signals_answer (split space line.now) }
{
    let rest = line.strip_prefix(b"signals ").ok_or(6)?;
    let mut names = [Name::default(); MOST_SIGNALS];
    for (n, word) in rest.split(|b| *b == b' ').enumerate() {
        keep_name(&mut names, n, word)?;
    }
    judge_names(names, text::count_of(rest, b' ') + 1)
}
