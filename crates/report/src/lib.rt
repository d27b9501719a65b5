// The report, to the byte, of what is found of a table. specs/Report.antt says what is right, for
// all that can be found and every lent buffer.
#![tactic(auto, using(put::proofs::Pages::page_lines))]

ghost use Rattle.std.specs.Prelude.{◌≡◌, length};
ghost use Rattle.text.specs.Lines.{ended};
ghost use Rattle.verdict.specs.Buffer.{written};
ghost use Rattle.put.specs.Inner.Page.{added};
ghost use Rattle.report.specs.Report.{size_lines, trap_lines, list_lines, report_bytes};

use put::Page;
use verdict::{Finding, Found, RowLists, Summary, Trap};

// The lines after the heading: the table's size; the trap; and the lists of rows.
fn sized(page: &mut Page, rows: u8, summary: Summary)
    ensures { page.new ≡ added page.old (ended (size_lines rows summary.count)) }
{
    lines::numbered(page, b"rules ", u16::from(rows));
    lines::numbered(page, b"configurations ", summary.count);
}

fn trapped(page: &mut Page, signals: u8, trace: &[u8], trap: Trap)
    ensures { page.new ≡ added page.old (ended (trap_lines signals trace.now trap)) }
{
    lines::tick_lines(page, signals, trace, trap.length);
    lines::numbered(page, b"lost ", trap.lost);
}

fn listed(page: &mut Page, rows: u8, lists: RowLists)
    ensures { page.new ≡ added page.old (ended (list_lines rows lists)) }
{
    lines::row_line(page, b"never", rows, lists.never);
}

// All of it.
fn report(page: &mut Page, found: Found, rows: u8, signals: u8, trace: &[u8])
    ensures { page.new ≡ added page.old (report_bytes rows signals trace.now found) }
{
    page.word(b"PNP report\n");
    match found {
        Err(refusal) => lines::refused(page, refusal),
        Ok(Finding::Sound(summary)) => {
            sized(page, rows, summary);
            page.word(b"verdict sound\n");
            listed(page, rows, summary.lists);
        }
        Ok(Finding::Trapped(summary, trap)) => {
            sized(page, rows, summary);
            page.word(b"verdict trapped\n");
            trapped(page, signals, trace, trap);
            listed(page, rows, summary.lists);
        }
    }
}

// Writes the report of a table with so many rows and signals from the buffer's front, and answers
// its length. The trace of a trap is at the front of the trace buffer. An `out` that is shorter
// than the report holds as much as it takes; the rest of a longer one is unchanged.
// Kept: rows and signals apart, as the contract's `report_bytes` has them.
#[tactic(auto, using(crate::proofs::Lengths::whole_report))]
pub fn write(found: Found, rows: u8, signals: u8, trace: &[u8], out: &mut [u8]) -> usize
    ensures value { result ≡ length (report_bytes rows signals trace.now found) }
    ensures out_after { out.new
        ≡ written (report_bytes rows signals trace.now found) out.old }
{
    let mut page = Page::new(out);
    report(&mut page, found, rows, signals, trace);
    page.at
}
