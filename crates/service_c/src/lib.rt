// The two checks of `service` as the settings service, written in C, links them: the same promises under the same names.
#![tactic(auto)]

ghost use Rattle.bookcheck.specs.Refusals.{BookDue};
ghost use Rattle.sheet.specs.Refusals.{SheetDue};
ghost use Rattle.service.specs.Word.{Spoken};

#[unsafe(no_mangle)]
pub extern "C" fn unchancyra_check_book(book: &[u8]) -> u64
    ensures { Spoken (BookDue book.now) result }
{
    service::unchancyra_check_book(book)
}

#[unsafe(no_mangle)]
pub extern "C" fn unchancyra_check_sheet(book: &[u8], sheet: &[u8]) -> u64
    ensures { Spoken (SheetDue book.now sheet.now) result }
{
    service::unchancyra_check_sheet(book, sheet)
}
