// Bytes, words and numbers put into a lent buffer, one after the other. What the buffer has no
// place for is left out, and still counted, up to the last place that there is: so any place will
// do to begin at. specs/Inner/Page.antt says what is right.
#![tactic(auto, using(crate::proofs::Pages::pages), unfolding(crate::specs::Inner::Page::added, crate::specs::Inner::Page::with_byte))]

ghost use Rattle.std.specs.Prelude.{◌≡◌, [], ◌∷◌, ◌++◌};
ghost use Rattle.text.specs.Bounds.{decimal as decimalOf};
ghost use Rattle.text.specs.Bytes.{bytes};
ghost use Rattle.put.specs.Inner.Page.{added, blank};

// A lent buffer, and the place of the next byte in it.
#[derive(Debug, Drop)]
pub struct Page<'a> {
    pub out: &'a mut [u8],
    pub at: usize,
}

impl<'a> Page<'a> {
    // From the buffer's front.
    pub fn new(out: &'a mut [u8]) -> Page<'a>
        ensures { result ≡ blank out.entry }
    {
        Page { out, at: 0 }
    }

    pub fn byte(&mut self, b: u8)
        ensures { self.new ≡ added self.old (b ∷ []) }
    {
        if self.at < self.out.len() {
            self.out[self.at] = b;
            self.at += 1;
        } else {
            self.at = self.at.saturating_add(1);
        }
    }

    // The place stands in a local meanwhile: in the page it would be stored and read for each byte.
    pub fn word(&mut self, bytes: &[u8])
        ensures { self.new ≡ added self.old bytes.now }
    {
        let mut at = self.at;
        for b in bytes {
            if at < self.out.len() {
                self.out[at] = *b;
                at += 1;
            } else {
                at = at.saturating_add(1);
            }
        }
        self.at = at;
    }

    // A number in base ten.
    pub fn decimal(&mut self, n: u32)
        ensures { self.new ≡ added self.old (decimalOf n) }
    {
        if 10 <= n {
            self.decimal(n / 10);
        }
        self.byte(b'0' + (n % 10) as u8);
    }

    // A number after a space.
    pub fn spaced(&mut self, n: u32)
        ensures { self.new ≡ added self.old (bytes " " ++ decimalOf n) }
    {
        self.byte(b' ');
        self.decimal(n);
    }
}
