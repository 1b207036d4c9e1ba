// An occurrence of a setting in a production, as a byte: the slot above, 0 for the left kind and then the children in order, and the setting below.
#![tactic(auto)]

ghost use Rattle.std.specs.Prelude.{◌≡◌, ◌/◌, ◌%◌};

// Its slot: the upper five bits.
pub fn slot(o: u8) -> u8
    ensures { result ≡ o / 8 }
{
    o >> 3
}

// Its setting: the lower three bits.
pub fn setting(o: u8) -> u8
    ensures { result ≡ o % 8 }
{
    o & 7
}
