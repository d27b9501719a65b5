// The totals of a run as text, to the byte. specs/Totals.antt says what is right, for every value
// and every lent buffer.
#![tactic(auto, using(put::proofs::Pages::page_lines))]

ghost use Rattle.std.specs.Prelude.{◌+◌, ◌*◌, ◌≤◌, [], ◌∷◌, ◌++◌, ◌≡◌, length, take};
ghost use Rattle.text.specs.Lines.{LF as lineEnd, ended};
ghost use Rattle.verdict.specs.Buffer.{written};
ghost use Rattle.put.specs.Inner.Page.{added};
ghost use Rattle.lines.specs.Line.{spaced};
ghost use Rattle.totals.specs.Totals.{totals_line, totals_lines, run_bytes};

use load::{Ran, Totals};
use put::Page;
use text::LF;

// Some numbers, each after a space, and the line's end.
#[tactic(auto, using(crate::proofs::Turns::turns), unfolding(put::specs::Inner::Page::added, lines::specs::Line::spaced))]
fn numbers(page: &mut Page, numbers: [u32; 4])
    ensures puts { page.new ≡ added page.old (spaced numbers ++ lineEnd ∷ []) }
    ensures upper_bound { page.new.at ≤ page.old.at + 45 }
{
    for n in numbers {
        page.spaced(n);
    }
    page.byte(LF);
}

// The line of a row.
#[tactic(auto, using(put::proofs::Pages::pages), unfolding(put::specs::Inner::Page::added))]
fn row_line(page: &mut Page, row: u32, totals: Totals)
    ensures puts { page.new ≡ added page.old (totals_line row totals ++ lineEnd ∷ []) }
    ensures upper_bound { page.new.at ≤ page.old.at + 59 }
{
    page.word(b"row ");
    page.decimal(row);
    numbers(
        page,
        [
            u32::from(totals.realised),
            u32::from(totals.completed),
            u32::from(totals.breaks),
            u32::from(totals.pending),
        ],
    );
}

// The lines of the first `rows` rows, or of all if there are fewer.
// Kept: totals and a count, as a run gives totals and its table the count of rows.
#[tactic(auto, using(crate::proofs::Turns::row_turns), unfolding(crate::specs::Totals::totals_lines))]
fn row_lines(page: &mut Page, totals: &[Totals], rows: u8)
    ensures puts { page.new ≡ added page.old (ended (totals_lines 1 (take rows totals.now))) }
    ensures upper_bound { page.new.at ≤ page.old.at + 59 * rows }
{
    let used = &totals[..usize::from(rows).min(totals.len())];
    for (i, row) in used.iter().enumerate() {
        row_line(page, i as u32 + 1, *row);
    }
}

// What there is of a run: a line for each row and the sums, or the refusal.
fn run(page: &mut Page, ran: Ran, rows: u8)
    ensures puts { page.new ≡ added page.old (run_bytes rows ran) }
    ensures upper_bound { page.new.at ≤ page.old.at + 59 * 256 }
{
    match ran.outcome {
        Err(refusal) => lines::refused(page, refusal),
        Ok(()) => {
            row_lines(page, &ran.totals, rows);
            page.word(b"total");
            let sums = load::sum(ran.totals, rows);
            numbers(
                page,
                [sums.realised, sums.completed, sums.breaks, sums.pending],
            );
        }
    }
}

// Writes what there is of a run of a table with so many rows from the buffer's front, and answers
// its length: a line for each row and the sums, or the refusal. An `out` that is shorter holds as
// much as it takes; the rest of a longer one is unchanged.
#[tactic(auto, using(put::proofs::Pages::whole_page))]
pub fn write(ran: Ran, rows: u8, out: &mut [u8]) -> usize
    ensures value { result ≡ length (run_bytes rows ran) }
    ensures out_after { out.new ≡ written (run_bytes rows ran) out.old }
{
    let mut page = Page::new(out);
    run(&mut page, ran, rows);
    page.at
}
