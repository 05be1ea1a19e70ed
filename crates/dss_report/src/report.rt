//! The report of a space.
ghost use Rattle.std.specs.Prelude.{◌≡◌, IfOk};
ghost use Rattle.dss_report.specs.Reading.{AreContentsOf, Reports};
ghost use Rattle.dss_report.specs.Report.{report_of, text_of};

use crate::contents::{Contents, read_contents};
use crate::fault::ReportFault;
use crate::line::{put_lines, put_serial};
use space_core::space::Space;
use std::alloc::{AllocError, Global};

// Returns the text of what a space stores.
fn text_of(alloc: Global, kept: &Contents) -> Result<Vec<u8>, AllocError>
    ensures { IfOk result (λ text. text.items ≡ text_of kept.now) }
{
    let mut text = Vec::new(alloc);
    put_lines(alloc, &mut text, kept.intents.as_slice())?;
    put_lines(alloc, &mut text, kept.constraints.as_slice())?;
    put_serial(alloc, &mut text, kept.serial)?;
    Ok(text)
}

/// Returns the report of a space: a line for each intent by ascending id, then for each constraint
/// by ascending id, and the serial last.
///
/// A line has the kind (left-aligned, 10 wide), the id, the version (right-aligned, 10), the state
/// (left-aligned, 13; `-` for a constraint), the first and last time (right-aligned, 12 each), and
/// the manager, separated by single spaces. The space is only read.
pub fn report_text<S: Space + Drop>(alloc: Global, space: &mut S) -> Result<Vec<u8>, ReportFault>
    ensures { Reports S.Space space.old space.new result (λ a text. text.items ≡ report_of a) }
{
    let kept = match read_contents(space) {
        Ok(kept) => kept,
        Err(_) => return Err(ReportFault::Space),
    };
    Ok(text_of(alloc, &kept)?)
}
