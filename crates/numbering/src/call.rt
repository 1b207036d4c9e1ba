// What a sheet call goes by once the refusals before 25 are out: a book and a sheet in order, and tables with a count for every kind.
ghost use Rattle.std.specs.Prelude.{◌≡◌, ◌≤◌, ◌<◌, length};
ghost use Rattle.chains.specs.Limits.{max_kids, max_settings};
ghost use Rattle.book.specs.Format.{kinds, prods, grammar};
ghost use Rattle.book.specs.Reading.{Index};
ghost use Rattle.numbering.specs.Unrefused.{Unrefused};

use super::limits::PRODUCTIONS;

// Anyone's tables: the counts of the plausible and of the feasible sets, and the entries of the up and of the down table.
#[derive(Clone, Copy)]
pub struct Tables<'a> {
    pub plausible_counts: &'a [u8],
    pub feasible_counts: &'a [u8],
    pub up: &'a [u8],
    pub down: &'a [u8],
}

// The places are those of the production entries, found once.
#[derive(Drop)]
pub struct Call<'a> {
    pub book: &'a [u8],
    pub places: [usize; PRODUCTIONS],
    pub sheet: &'a [u8],
    pub tables: Tables<'a>,
    ghost unrefused: { Unrefused book.now sheet.now },
    ghost indexed: { Index book.now places },
    ghost plausible_counted: { kinds book.now ≤ length tables.plausible_counts.now },
    ghost feasible_counted: { kinds book.now ≤ length tables.feasible_counts.now },
}

impl<'a> Call<'a> {
    // The left kind of production p.
    pub fn left(&self, p: u8) -> u8
        requires { p < prods self.now.book.now }
        ensures is { result ≡ (grammar self.now.book.now).left p }
        ensures known { result < kinds self.now.book.now }
    {
        book::left(self.book, self.places[p as usize])
    }

    // The kinds of its children.
    pub fn kids(&self, p: u8) -> &'a [u8]
        requires { p < prods self.now.book.now }
        ensures are { result.now ≡ (grammar self.now.book.now).kids p }
        ensures few { length result.now ≤ max_kids }
    {
        let at = self.places[p as usize];
        let from = at + 2;
        let arity = book::arity(self.book, at) as usize;
        &self.book[from..from + arity]
    }

    // The number of settings of a kind.
    pub fn width(&self, kind: u8) -> usize
        requires { kind < kinds self.now.book.now }
        ensures is { result ≡ (grammar self.now.book.now).settings kind }
        ensures few { result ≤ max_settings }
    {
        book::settings(self.book, kind) as usize
    }
}
