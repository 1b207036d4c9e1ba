// The calls by their numbers. Each prints its answer, or finds the request malformed.
use crate::print::Out;
use crate::request::{argument, ends, exactly};
use crate::{build, group, print, room};

pub fn reply(request: &[u8], out: &mut Out) {
    if called(request, out).is_none() {
        print::malformed(out);
    }
}

fn called(request: &[u8], out: &mut Out) -> Option<()> {
    let (&call, arguments) = request.split_first()?;
    match call {
        1 => check_book(arguments, out),
        2 => check_sheet(arguments, out),
        3 => build::build(arguments, out),
        4 => group::group_sheet(arguments, out),
        5 => block(arguments, out),
        _ => None,
    }
}

fn check_book(arguments: &[u8], out: &mut Out) -> Option<()> {
    let (book, left) = argument(arguments, 1, room::BOOK)?;
    ends(left)?;
    let answer = bookcheck::check_book(book);
    print::answer(out, answer.map(|counts| [counts.kinds, counts.productions]));
    Some(())
}

fn check_sheet(arguments: &[u8], out: &mut Out) -> Option<()> {
    let (book, left) = argument(arguments, 1, room::BOOK)?;
    let (sheet, left) = argument(left, 1, room::SHEET)?;
    ends(left)?;
    let answer = sheet::check_sheet(book, sheet);
    print::answer(out, answer.map(|counts| [counts.nodes, counts.settings]));
    Some(())
}

// The set, its size, its first.
fn block(arguments: &[u8], out: &mut Out) -> Option<()> {
    let (down, left) = argument(arguments, 1, room::DOWN)?;
    let (entry, left) = argument(left, 8, 1)?;
    let entry = exactly(entry)?;
    let (label, left) = argument(left, 1, 1)?;
    let [label] = exactly::<1>(label)?;
    ends(left)?;
    let set = blocks::occurrences(down, u64::from_le_bytes(entry), label);
    let size = blocks::block_size(set);
    let first = blocks::first_occurrence(set);
    print::line(out, &[set, size.into(), first.into()]);
    Some(())
}
