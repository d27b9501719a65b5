// Reading a condition. specs/Condition.antt is the grammar and its meaning, specs/Judge.antt says
// which of 11, 12 and 13 other bytes get; specs/Inner/Reading.antt follows this code.
#![tactic(auto)]

ghost use Rattle.std.specs.Prelude.{◌≡◌, ℕ, ◌≤◌, ◌<◌, length, ◌%◌, take, drop, cond, eqb, Some, IfSome};
ghost use Rattle.std.specs.List.{prefix_len};
ghost use Rattle.letters.specs.Letter.{width};
ghost use Rattle.table.specs.Name.{name_run, is_lowercase};
ghost use Rattle.text.specs.Words.{not_sign};
ghost use Rattle.conditions.specs.Condition.{name_of, place, Kind};
ghost use Rattle.conditions.specs.Inner.Judge.{deep, judge};
ghost use Rattle.conditions.specs.Inner.Reading.{is_at, name_at, digit_at, others};
ghost use Rattle.conditions.specs.Inner.Reading.{closed, JoinsTo, ReadsAs, condition_of};

use table::{MOST_SIGNALS, NAME_CHARS, Name, Signals};

// At most so many parentheses are open at one place.
const MOST_OPEN: usize = 8;

// What was read: its set of letters, whether a name in it is unknown, and the place past it.
#[derive(Clone, Copy, Debug, PartialEq, Eq)]
pub struct Part {
    pub set: u64,
    pub unknown: bool,
    pub next: usize,
}

// Whether the byte b stands at a place.
#[tactic(auto, unfolding(crate::specs::Inner::Reading::is_at))]
fn is_at(s: &[u8], at: usize, b: u8) -> bool
    ensures { result ≡ is_at s.now at b }
{
    s.get(at) == Some(&b)
}

// The bytes from a place on. They are cut off: to skip those before them goes through each.
#[tactic(auto, using(std::proofs::lemmas::List::drop_min))]
fn rest_of(s: &[u8], at: usize) -> &[u8]
    ensures { result.now ≡ drop at s.now }
{
    &s[at.min(s.len())..]
}

// How many letters stand at a place.
fn run_at(s: &[u8], at: usize) -> usize
    ensures { result ≡ prefix_len is_lowercase (drop at s.now) }
{
    rest_of(s, at)
        .iter()
        .take_while(|b| b.is_ascii_lowercase())
        .count()
}

// How many `!` stand at a place.
fn signs_at(s: &[u8], at: usize) -> usize
    ensures { result ≡ prefix_len (λ b. eqb b not_sign) (drop at s.now) }
{
    rest_of(s, at).iter().take_while(|b| **b == b'!').count()
}

// The first n bytes as a name: at most eight of them, then zeros.
pub fn name_of(s: &[u8], n: usize) -> Name
    ensures { result ≡ name_of (take n s.now) }
{
    let n = n.min(s.len()).min(NAME_CHARS);
    let mut chars = [0u8; NAME_CHARS];
    chars[..n].copy_from_slice(&s[..n]);
    Name { chars }
}

// How many names stand before a name: all of them, where it is unknown.
fn place_of(names: &[Name], name: Name) -> usize
    ensures { result ≡ place names.now name }
{
    names
        .iter()
        .position(|known| *known == name)
        .unwrap_or(names.len())
}

// The name at a place: none and over eight letters are no name.
fn name_at(s: &[u8], at: usize, signals: Signals) -> Option<Part>
    ensures { result ≡ name_at (take signals.count signals.names)
        (width signals.count) s.now at (name_run (drop at s.now)) }
{
    let run = run_at(s, at);
    if run == 0 || NAME_CHARS < run {
        return None;
    }
    let used = usize::from(signals.count).min(MOST_SIGNALS);
    let k = place_of(&signals.names[..used], name_of(&s[at..], run));
    Some(Part {
        set: letters::signal_set(signals.count, k as u8),
        unknown: k == used,
        next: at + run,
    })
}

// `0`, `1` or a name.
#[tactic(auto, unfolding(crate::specs::Inner::Reading::digit_at, crate::specs::Inner::Reading::is_at))]
fn digit_at(s: &[u8], at: usize, signals: Signals) -> Option<Part>
    ensures { result ≡ digit_at (take signals.count signals.names) (width signals.count)
        s.now at }
{
    let set = match s.get(at) {
        Some(b'0') => 0,
        Some(b'1') => letters::all(signals.count),
        _ => return name_at(s, at, signals),
    };
    Some(Part {
        set,
        unknown: false,
        next: at + 1,
    })
}

// A closing parenthesis has to follow.
#[tactic(auto, using(crate::proofs::Bytes::is_at_lt))]
fn close(s: &[u8], part: Part) -> Option<Part>
    ensures { result ≡ closed s.now (Some part) }
{
    if !is_at(s, part.next, b')') {
        return None;
    }
    Some(Part {
        next: part.next + 1,
        ..part
    })
}

// A part after so many `!`: two are none.
fn signed(signs: usize, part: Part, signals: Signals) -> Part
    ensures { Some result ≡ cond (eqb (signs % 2) 1) (others (width signals.count) (Some part))
        (Some part) }
{
    if signs % 2 == 1 {
        Part {
            set: letters::others(signals.count, part.set),
            ..part
        }
    } else {
        part
    }
}

// One or more parts joined by a sign.
fn joined<J: Fn(u64, u64) -> u64, P: Fn(usize) -> Option<Part>>(
    s: &[u8],
    at: usize,
    sign: u8,
    join: J,
    part: P,
) -> Option<Part>
    requires join { J.IsAlwaysCallable join }
    requires part { (i : ℕ) → at ≤ i → P.pre part i }
    requires past { (i : ℕ) (r : _) → P.post part i r → IfSome r (λ p. i < p.next) }
    ensures { JoinsTo s.now at sign (J.post join) (P.post part) result }
{
    let mut all = part(at)?;
    while is_at(s, all.next, sign) {
        let more = part(all.next + 1)?;
        all = Part {
            set: join(all.set, more.set),
            unknown: all.unknown | more.unknown,
            next: more.next,
        };
    }
    Some(all)
}

// A choice: one or more terms joined by `|`.
#[cycle(choice_factor_term)]
fn choice(s: &[u8], at: usize, signals: Signals) -> Option<Part>
    ensures { ReadsAs (take signals.count signals.names) (width signals.count) s.now
        Kind.choice at result }
{
    joined(
        s,
        at,
        b'|',
        |v, w| v | w,
        |i: usize| -> Option<Part>
            ensures { ReadsAs (take signals.count signals.names)
                (width signals.count) s.entry.now Kind.term i result }
        { term(s, i, signals) },
    )
}

// A term: one or more factors joined by `&`.
#[cycle(choice_factor_term)]
fn term(s: &[u8], at: usize, signals: Signals) -> Option<Part>
    ensures { ReadsAs (take signals.count signals.names) (width signals.count) s.now
        Kind.term at result }
{
    joined(
        s,
        at,
        b'&',
        |v, w| v & w,
        |i: usize| -> Option<Part>
            ensures { ReadsAs (take signals.count signals.names)
                (width signals.count) s.entry.now Kind.factor i result }
        { factor(s, i, signals) },
    )
}

// A factor: any number of `!`, then a choice in parentheses, or `0`, `1` or a name.
#[cycle(choice_factor_term)]
fn factor(s: &[u8], at: usize, signals: Signals) -> Option<Part>
    ensures { ReadsAs (take signals.count signals.names) (width signals.count) s.now
        Kind.factor at result }
{
    let signs = signs_at(s, at);
    let from = at + signs;
    let part = if is_at(s, from, b'(') {
        close(s, choice(s, from + 1, signals)?)?
    } else {
        digit_at(s, from, signals)?
    };
    Some(signed(signs, part, signals))
}

// A condition: nothing may be left over.
#[tactic(auto, using(crate::proofs::Steps::condition_of_reads))]
fn read_condition(s: &[u8], signals: Signals) -> Option<Part>
    ensures { result ≡ condition_of (take signals.count signals.names)
        (width signals.count) s.now }
{
    let part = choice(s, 0, signals)?;
    (part.next == s.len()).then_some(part)
}

// Whether over eight parentheses are open at some place.
#[tactic(auto, using(crate::proofs::Depth::deep_turn, crate::proofs::Depth::deep_end, crate::proofs::Depth::byte_most))]
fn too_deep(s: &[u8]) -> bool
    ensures { result ≡ deep 0 0 s.now }
{
    let mut opened: usize = 0;
    let mut closed: usize = 0;
    for b in s {
        opened += usize::from(*b == b'(');
        closed += usize::from(*b == b')');
        if closed + MOST_OPEN < opened {
            return true;
        }
    }
    false
}

// The letters of a condition over the names of the signals; or 11, 12 or 13, in this order.
#[tactic(auto, unfolding(crate::specs::Inner::Judge::judge))]
pub fn judge_condition(s: &[u8], signals: Signals) -> Result<u64, u8>
    ensures { result ≡ judge (take signals.count signals.names)
        (width signals.count) s.now }
{
    if too_deep(s) {
        return Err(11);
    }
    let part = read_condition(s, signals).ok_or(12)?;
    if part.unknown { Err(13) } else { Ok(part.set) }
}
