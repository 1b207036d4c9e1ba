// A request taken apart: a byte for the call, then each argument as four bytes of length and the bytes.
ghost use Rattle.std.specs.Prelude.{◌<◌, ◌≡◌, ◌↔◌, [], length, IsSome, MatchOption};
ghost use Rattle.trial.specs.Requests.{Argument, NoArgument};

// The argument at the head of what is left of a request, and what is left behind it: so many elements of `width` bytes as there is room
// for, or fewer.
pub fn argument(left: &[u8], width: usize, room: usize) -> Option<(&[u8], &[u8])>
    requires { 0 < width }
    ensures { MatchOption result (NoArgument left.now width room) (λ p. Argument left.now width room p.0.now p.1.now) }
{
    let (length, behind) = left.split_first_chunk()?;
    let (argument, left) = behind.split_at_checked(u32::from_le_bytes(*length) as usize)?;
    if argument.len() % width != 0 || room < argument.len() / width {
        return None;
    }
    Some((argument, left))
}

// An argument of exactly so many bytes.
pub fn exactly<const N: usize>(argument: &[u8]) -> Option<[u8; N]>
    ensures { MatchOption result (¬ (length argument.now ≡ N)) (λ a. a ≡ argument.now) }
{
    argument.try_into().ok()
}

// Nothing is left after the last argument.
pub fn ends(left: &[u8]) -> Option<()>
    ensures { IsSome result ↔ (left.now ≡ []) }
{
    if left.is_empty() { Some(()) } else { None }
}
