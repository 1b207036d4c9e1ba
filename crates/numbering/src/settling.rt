// A sheet that fits its book and its room: 25, and then what is written.
ghost use Rattle.std.specs.Prelude.{◌≡◌, length};
ghost use Rattle.book.specs.Format.{grammar};
ghost use Rattle.sheet.specs.Reading.{all_settings};
ghost use Rattle.numbering.specs.Promise.{lent, CallDue};
ghost use Rattle.numbering.specs.Answer.{said};
ghost use Rattle.numbering.specs.Parts.{tables_of};
ghost use Rattle.numbering.specs.Admitting.{Clear};

use super::Counts;
use super::call::{Call, Tables};
use super::choice::choose;
use super::limits::NODES;
use super::nodes::UNREAD;
use super::numbers::number_all;
use super::overfull::too_many;
use super::telling::tell;
use refusals::{Refusal, Refused};

// What is known of the nodes stands in an array of its own until every read has been good; only then is the lent memory written.
pub fn settle(
    book: &[u8],
    sheet: &[u8],
    tables: Tables,
    counts: sheet::Counts,
    nodes: &mut [u64],
    groups: &mut [u16],
) -> Result<Counts, Refused>
    requires clear { Clear book.now sheet.now (tables_of tables) (lent nodes.old groups.old) }
    requires nodes { counts.nodes ≡ length sheet.now }
    requires settings { counts.settings ≡ all_settings (grammar book.now) sheet.now }
    ensures { CallDue book.now sheet.now (tables_of tables.entry) (lent nodes.old groups.old) (said result) (lent nodes.new groups.new) }
{
    let call = Call {
        book,
        places: book::index(book),
        sheet,
        tables,
    };
    if too_many(&call) {
        return Err(Refusal::BadTables.at(0));
    }
    let mut known = [UNREAD; NODES];
    choose(&call, &mut known)?;
    tell(&known[..sheet.len()], nodes);
    let used = number_all(&call, &mut known, groups);
    Ok(Counts {
        nodes: counts.nodes,
        settings: counts.settings,
        groups: used,
    })
}
