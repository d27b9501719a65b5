// Bytes of a line: where one stands and how many there are; and bounds.
// specs/Inner/Cut.antt says what is computed, specs/Bounds.antt which bytes are bounds.
#![tactic(auto)]

ghost use Rattle.std.specs.Prelude.{◌≡◌, length};
ghost use Rattle.text.specs.Inner.Cut.{front};
ghost use Rattle.text.specs.Lines.{count};
ghost use Rattle.text.specs.Inner.Bounds.{bound_of};

use table::MOST_TICKS;

// The byte at the end of each line.
pub const LF: u8 = 10;

// The versions of a table file that are read.
#[derive(Clone, Copy, Debug, PartialEq, Eq)]
pub enum Version {
    First,
}

// How many bytes stand before the first b, or how many there are where there is none.
pub fn find(s: &[u8], b: u8) -> usize
    ensures { result ≡ length (front b s.now) }
{
    s.iter().position(|x| *x == b).unwrap_or(s.len())
}

// How often the byte b stands there.
#[tactic(auto, using(crate::proofs::Splits::count_by_byte))]
pub fn count_of(s: &[u8], b: u8) -> usize
    ensures { result ≡ count b s.now }
{
    s.iter().filter(|x| **x == b).count()
}

// One of the texts `0` to `60`.
#[tactic(auto, using(crate::proofs::Bounds::bound_of_one, crate::proofs::Bounds::bound_of_two, crate::proofs::Bounds::bound_of_other))]
pub fn read_bound(s: &[u8]) -> Option<u8>
    ensures { result ≡ bound_of s.now }
{
    match *s {
        [a @ b'0'..=b'9'] => Some(a - b'0'),
        [a @ b'1'..=b'9', b @ b'0'..=b'9'] => {
            let v = 10 * (a - b'0') + (b - b'0');
            (v <= MOST_TICKS).then_some(v)
        }
        _ => None,
    }
}
