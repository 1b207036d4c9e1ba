// The rows of the paper's table of refusals, and what a refused call answers.
#![tactic(auto)]

ghost use Rattle.std.specs.Prelude.{◌≡◌};

// Why a call is refused, in the table's order and with its numbers; the last is the program's.
#[derive(Clone, Copy, Debug, PartialEq, Eq)]
pub enum Refusal {
    BookTooShort = 1,
    UnknownEdition = 2,
    OutOfRange = 3,
    BadLayout = 4,
    BadKind = 5,
    BadChildren = 6,
    BadPairs = 7,
    NoProduction = 8,
    ShortSets = 9,
    ManyPlausible = 10,
    ManyFeasible = 11,
    ShortUpTable = 12,
    ShortDownTable = 13,
    BadSheetSize = 20,
    UnknownProduction = 21,
    Misfit = 22,
    TooDeep = 23,
    ShortRoom = 24,
    BadTables = 25,
    BadInput = 30,
}

// Why, and at which kind, production, position or node.
#[derive(Clone, Copy, Debug, PartialEq, Eq)]
pub struct Refused {
    pub refusal: Refusal,
    pub place: u16,
}

impl Refusal {
    ghost use Rattle.refusals.specs.Table.{number_of};

    // The row's number.
    pub fn number(self) -> u8
        ensures { result ≡ number_of self }
    {
        self as u8
    }

    // The refusal at a place.
    pub fn at(self, place: u16) -> Refused
        ensures { result ≡ record { refusal = self; place = place } }
    {
        Refused {
            refusal: self,
            place,
        }
    }
}
