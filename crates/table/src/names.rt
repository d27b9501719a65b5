// Names that an accepted file can have. specs/Name.antt says what is right.
ghost use Rattle.std.specs.Prelude.{◌≡◌, take, drop};
ghost use Rattle.letters.specs.Lists.{every, some};
ghost use Rattle.table.specs.Row.{is_zero};
ghost use Rattle.table.specs.Name.{is_lowercase, name_run, name_valid, name_unused};
ghost use Rattle.table.specs.Name.{same_name, all_distinct};

use crate::{MOST_SIGNALS, NAME_CHARS, Name};

// Whether a byte is a letter a-z.
pub fn is_lowercase(b: u8) -> bool
    ensures { result ≡ is_lowercase b }
{
    b.is_ascii_lowercase()
}

// How many letters a name begins with.
#[tactic(auto, using(crate::proofs::Laws::name_run_prefix))]
pub fn name_run(chars: [u8; NAME_CHARS]) -> usize
    ensures { result ≡ name_run chars }
{
    chars.iter().take_while(|b| is_lowercase(**b)).count()
}

// Whether a name is 0 from place n on.
#[tactic(auto, unfolding(letters::specs::Lists::every))]
fn zero_from(chars: [u8; NAME_CHARS], n: usize) -> bool
    ensures { result ≡ every is_zero (drop n chars) }
{
    chars.iter().skip(n).all(|b| *b == 0)
}

// Whether a name is 1 to 8 letters a-z, then zeros.
#[tactic(auto, unfolding(crate::specs::Name::name_valid))]
pub fn name_valid(name: Name) -> bool
    ensures { result ≡ name_valid name }
{
    let run = name_run(name.chars);
    (1 <= run) & zero_from(name.chars, run)
}

// Whether everything in a name is 0.
pub fn name_unused(name: Name) -> bool
    ensures { result ≡ name_unused name }
{
    name == Name::default()
}

// Whether two names are the same.
#[tactic(auto, unfolding(letters::specs::Lists::same_bytes))]
pub fn same_name(a: Name, b: Name) -> bool
    ensures { result ≡ same_name a b }
{
    a == b
}

// Whether the first n names are 1 to 8 letters each.
// Kept: names and n apart, here and below: the contracts hold at any n, `Signals` counts in a byte.
#[tactic(auto, unfolding(letters::specs::Lists::every))]
pub fn used_valid(names: [Name; MOST_SIGNALS], n: usize) -> bool
    ensures { result ≡ every name_valid (take n names) }
{
    names.iter().take(n).all(|name| name_valid(*name))
}

// Whether a name is one of the first n, from place `from` on.
#[tactic(auto, unfolding(letters::specs::Lists::some))]
fn stands_from(names: &[Name; MOST_SIGNALS], n: usize, from: usize, name: Name) -> bool
    ensures { result ≡ some (same_name name) (drop from (take n names.now)) }
{
    names
        .iter()
        .take(n)
        .skip(from)
        .any(|other| same_name(name, *other))
}

// Whether no name stands twice among the first n.
#[tactic(auto, using(crate::proofs::Laws::distinct_turns))]
pub fn distinct(names: [Name; MOST_SIGNALS], n: usize) -> bool
    ensures { result ≡ all_distinct (take n names) }
{
    for (i, name) in names.iter().enumerate() {
        if stands_from(&names, n, i + 1, *name) {
            return false;
        }
    }
    true
}

// Whether the names from place n on are 0.
#[tactic(auto, unfolding(letters::specs::Lists::every))]
pub fn rest_unused(names: [Name; MOST_SIGNALS], n: usize) -> bool
    ensures { result ≡ every name_unused (drop n names) }
{
    names.iter().skip(n).all(|name| name_unused(*name))
}
