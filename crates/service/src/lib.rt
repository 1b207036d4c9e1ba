// What the settings service, written in C, calls: the two checks, each with one number for an answer.
// include/unchancyra.h has the contract in words.
#![tactic(auto)]

ghost use Rattle.std.specs.Prelude.{◌≡◌, []};
ghost use Rattle.refusals.specs.Table.{said_by};
ghost use Rattle.bookcheck.specs.Refusals.{BookDue};
ghost use Rattle.sheet.specs.Refusals.{SheetDue};
ghost use Rattle.service.specs.Word.{word, Narrow, Spoken};

use refusals::Refused;

// An answer as one number, whatever an acceptance counts.
fn number_for<T: Drop>(answer: Result<T, Refused>) -> u64
    ensures word { result ≡ word (said_by (λ _. []) answer) }
    ensures narrow { Narrow (said_by (λ _. []) answer) }
{
    match answer {
        Ok(_) => 0,
        Err(refused) => u64::from(refused.refusal.number()) * 65536 + u64::from(refused.place),
    }
}

pub fn unchancyra_check_book(book: &[u8]) -> u64
    ensures { Spoken (BookDue book.now) result }
{
    number_for(bookcheck::check_book(book))
}

pub fn unchancyra_check_sheet(book: &[u8], sheet: &[u8]) -> u64
    ensures { Spoken (SheetDue book.now sheet.now) result }
{
    number_for(sheet::check_sheet(book, sheet))
}
