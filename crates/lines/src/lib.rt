// The lines that reports share, put on a page. specs/Line.antt says what is right, for every value
// and every lent buffer.
#![tactic(auto, using(put::proofs::Pages::pages), unfolding(put::specs::Inner::Page::added))]

ghost use Rattle.std.specs.Prelude.{[], ◌∷◌, ◌++◌, ◌≡◌, length, take};
ghost use Rattle.text.specs.Bounds.{decimal};
ghost use Rattle.text.specs.Lines.{LF as lineEnd, ended};
ghost use Rattle.verdict.specs.Buffer.{written};
ghost use Rattle.put.specs.Inner.Page.{added};
ghost use Rattle.lines.specs.Line.{refused_line, refused_text, signal_values, tick_line};
ghost use Rattle.lines.specs.Line.{tick_lines, row_numbers, spaced_or_dash};

use put::Page;
use table::Refusal;
use text::LF;

// A word, a number and the line's end.
pub fn numbered(page: &mut Page, word: &[u8], n: u16)
    ensures { page.new ≡ added page.old (word.now ++ decimal n ++ lineEnd ∷ []) }
{
    page.word(word);
    page.decimal(u32::from(n));
    page.byte(LF);
}

// The value of each signal at a letter, `0` or `1`.
#[tactic(auto, using(crate::proofs::Turns::values), unfolding(put::specs::Inner::Page::added))]
fn signal_values(page: &mut Page, signals: u8, letter: u8)
    ensures { page.new ≡ added page.old (signal_values signals 0 letter) }
{
    let mut rest = letter;
    for _ in 0..signals {
        page.byte(b'0' + rest % 2);
        rest /= 2;
    }
}

// The line of a tick.
fn tick_line(page: &mut Page, signals: u8, tick: u16, letter: u8)
    ensures { page.new ≡ added page.old (tick_line signals tick letter ++ lineEnd ∷ []) }
{
    page.word(b"tick ");
    page.decimal(u32::from(tick));
    page.byte(b' ');
    signal_values(page, signals, letter);
    page.byte(LF);
}

// A line for each of the first `length` letters of the trace.
// Kept: trace and length apart: of a slice alone it would have to ask that u16 counts its letters.
#[tactic(auto, using(crate::proofs::Turns::ticks), unfolding(put::specs::Inner::Page::added, text::specs::Lines::ended, crate::specs::Line::tick_lines))]
pub fn tick_lines(page: &mut Page, signals: u8, trace: &[u8], length: u16)
    ensures { page.new ≡ added page.old (ended (tick_lines signals 1 (take length trace.now))) }
{
    let used = &trace[..usize::from(length).min(trace.len())];
    for (i, letter) in used.iter().enumerate() {
        tick_line(page, signals, i as u16 + 1, *letter);
    }
}

// The number of each row in a set, after a space; or ` -` where there is none. Bit r is row r + 1.
#[tactic(auto, using(crate::proofs::Turns::numbers), unfolding(put::specs::Inner::Page::added, crate::specs::Line::spaced, crate::specs::Line::spaced_or_dash))]
fn row_list(page: &mut Page, rows: u8, set: u64)
    ensures { page.new ≡ added page.old (spaced_or_dash (row_numbers rows 0 set)) }
{
    let mut none = true;
    for row in 0..rows {
        if letters::contains(set, row) {
            page.spaced(u32::from(row) + 1);
            none = false;
        }
    }
    if none {
        page.word(b" -");
    }
}

// A word, the numbers of the rows in a set, and the line's end.
pub fn row_line(page: &mut Page, word: &[u8], rows: u8, set: u64)
    ensures { page.new ≡ added page.old (word.now ++ spaced_or_dash (row_numbers rows 0 set)
        ++ lineEnd ∷ []) }
{
    page.word(word);
    row_list(page, rows, set);
    page.byte(LF);
}

// The line of a refusal.
pub fn refused(page: &mut Page, refusal: Refusal)
    ensures { page.new ≡ added page.old (refused_line refusal.number refusal.line ++ lineEnd ∷ []) }
{
    page.word(b"refused ");
    page.decimal(u32::from(refusal.number));
    numbered(page, b" line ", u16::from(refusal.line));
}

// Writes a refused line by itself from the buffer's front, and answers its length. An `out` that is
// shorter holds as much as it takes; the rest of a longer one is unchanged.
#[tactic(auto, using(crate::proofs::Lengths::refusals), unfolding(text::specs::Lines::ended))]
pub fn write_refused(refusal: Refusal, out: &mut [u8]) -> usize
    ensures value { result ≡ length (refused_text refusal.number refusal.line) }
    ensures out_after { out.new
        ≡ written (refused_text refusal.number refusal.line) out.old }
{
    let mut page = Page::new(out);
    refused(&mut page, refusal);
    page.at
}
