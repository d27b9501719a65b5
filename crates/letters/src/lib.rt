// Letters, and sets of letters as numbers: letter l is in the set where bit l is 1.
// specs/Letter.antt says what is right.
#![tactic(auto)]

ghost use Rattle.std.specs.Prelude.{◌≡◌, true, ◌&&◌, not, eqb};
ghost use Rattle.letters.specs.Lists.{within};
ghost use Rattle.letters.specs.Letter.{signal_on, in_set, letter_valid, set_valid, width, set_of};
ghost use Rattle.letters.specs.Inner.Least.{least_in, without};

// The bits of a set, as specs/Letter.antt has them, and the signals that have so many letters.
pub const SET_BITS: u8 = 64;

const SET_SIGNALS: u8 = 6;

// The set that has every letter which a set can hold.
pub const FULL_SET: u64 = u64::MAX;

// The bits of a letter.
const LETTER_BITS: u8 = 8;

// Whether a number is from `least` to `most`.
pub fn within(least: usize, most: usize, n: usize) -> bool
    ensures { result ≡ within least most n }
{
    (least..=most).contains(&n)
}

// Whether a letter is in a set. No letter from `SET_BITS` on is in one.
pub fn contains(set: u64, letter: u8) -> bool
    ensures { result ≡ in_set set letter }
{
    if letter < SET_BITS {
        (set >> letter) % 2 == 1
    } else {
        false
    }
}

// Whether a letter is one of those that so many signals have.
pub fn letter_valid(signals: u8, letter: u8) -> bool
    ensures { result ≡ letter_valid signals letter }
{
    if signals < LETTER_BITS {
        u64::from(letter) < 1u64 << signals
    } else {
        true
    }
}

// Whether a set has only letters that so many signals have.
pub fn set_valid(signals: u8, set: u64) -> bool
    ensures { result ≡ set_valid signals set }
{
    if signals < SET_SIGNALS {
        set < 1u64 << (1u64 << signals)
    } else {
        true
    }
}

// How many letters so many signals have, as far as a set can hold them.
pub fn width_of(signals: u8) -> u8
    ensures { result ≡ width signals }
{
    if signals < SET_SIGNALS {
        1u8 << signals
    } else {
        SET_BITS
    }
}

// The set of all letters that so many signals have.
pub fn all(signals: u8) -> u64
    ensures { result ≡ set_of (width signals) (λ _. true) }
{
    let n = width_of(signals);
    if n < SET_BITS {
        (1u64 << n) - 1
    } else {
        FULL_SET
    }
}

// The set of those letters at which signal k is on, counted from 0.
pub fn signal_set(signals: u8, k: u8) -> u64
    ensures { result ≡ set_of (width signals) (λ letter. signal_on letter k) }
{
    let mut set: u64 = 0;
    for l in 0..u64::from(width_of(signals)) {
        if contains(l, k) {
            set += 1u64 << l;
        }
    }
    set
}

// The set of those letters that are not in a set.
pub fn others(signals: u8, set: u64) -> u64
    ensures { result ≡ set_of (width signals) (λ letter. not (in_set set letter)) }
{
    let full = all(signals);
    full - (full & set)
}

// The letters of a set that are not in another.
#[tactic(auto, using(crate::proofs::Sets::without_is))]
pub fn without(set: u64, off: u64) -> u64
    ensures { result ≡ without set off }
{
    set & !off
}

// The least letter of a set; `SET_BITS` if it has none.
// Kept: the contract's `least_in` is `set_bits` at the empty set, and the search goes by it.
#[tactic(auto, using(crate::proofs::Lowest::zeros_least))]
pub fn least(set: u64) -> u8
    ensures { result ≡ least_in set }
{
    set.trailing_zeros() as u8
}

// Whether a set has a letter, and a letter is its least one.
pub fn is_least(set: u64, letter: u8) -> bool
    ensures { result ≡ (not (eqb set 0) && eqb (least_in set) letter) }
{
    (set != 0) & (least(set) == letter)
}
