// What is decided of a sheet call before a table is read: refusals 1 to 9 and 20 to 24, by book, sheet and lengths alone.
// Nothing is borrowed here that could be written.
#![tactic(auto)]

ghost use Rattle.std.specs.Prelude.{◌↔◌, IsTrue};
ghost use Rattle.sheet.specs.Trees.{Sound};
ghost use Rattle.admission.specs.Answer.{said};
ghost use Rattle.admission.specs.Refusals.{ShortCounts, AdmissionDue};

use refusals::{Refusal, Refused};
use sheet::Counts;

// Places of the node slice for each node: plausible rank, feasible rank, down entry.
const PLACES: usize = 3;

// The lengths of the slices that are lent: the two of counts, that of nodes and that of groups.
#[derive(Clone, Copy, Debug, PartialEq, Eq)]
pub struct Lengths {
    pub plausible_counts: usize,
    pub feasible_counts: usize,
    pub nodes: usize,
    pub groups: usize,
}

// Whether a count slice is shorter than the number of kinds.
fn too_short(book: &[u8], lengths: Lengths) -> bool
    requires { Sound book.now }
    ensures { IsTrue result ↔ ShortCounts book.now lengths.plausible_counts lengths.feasible_counts }
{
    let n = usize::from(book::kinds(book));
    lengths.plausible_counts < n || lengths.feasible_counts < n
}

// 1 to 8 come before the count slices, and 20 to 23 after them.
pub fn admit(book: &[u8], sheet: &[u8], lengths: Lengths) -> Result<Counts, Refused>
    ensures { AdmissionDue book.now sheet.now lengths (said result) }
{
    let checked = sheet::check_sheet(book, sheet);
    if checked.is_err_and(|refused| refused.refusal.number() < Refusal::ShortSets.number()) {
        return checked;
    }
    if too_short(book, lengths) {
        return Err(Refusal::ShortSets.at(0));
    }
    let counts = checked?;
    if lengths.nodes < PLACES * usize::from(counts.nodes)
        || lengths.groups < usize::from(counts.settings)
    {
        return Err(Refusal::ShortRoom.at(0));
    }
    Ok(counts)
}
