// Numbers in bytes, the lowest first, and parts of a request as arrays of them.
ghost use Rattle.std.specs.Prelude.{ℕ, ◌+◌, ◌<◌, ◌≤◌, ◌≡◌, List, length};
ghost use Rattle.std.proofs.Common.{rules};
ghost use Rattle.trial.specs.Numbers.{one, two, four, eight, Copied, many};

// A number of so many bytes.
pub trait Number: Copy {
    const WIDTH: usize;

    ghost WIDTH: { ℕ };

    ghost number: { List ℕ → ℕ → Self };

    fn at(bytes: &[u8], at: usize) -> Self
        requires { at + WIDTH ≤ length bytes.now }
        ensures { result ≡ number bytes.now at };

    ghost some_bytes: { 0 < WIDTH };
}

impl Number for u8 {
    const WIDTH: usize = 1;

    ghost WIDTH = { 1 };

    ghost number = { one };

    fn at(bytes: &[u8], at: usize) -> u8 {
        bytes[at]
    }

    ghost some_bytes = { Prim.search rules };
}

impl Number for u16 {
    const WIDTH: usize = 2;

    ghost WIDTH = { 2 };

    ghost number = { two };

    fn at(bytes: &[u8], at: usize) -> u16 {
        u16::from_le_bytes(bytes[at..at + 2].try_into().unwrap())
    }

    ghost some_bytes = { Prim.search rules };
}

impl Number for u32 {
    const WIDTH: usize = 4;

    ghost WIDTH = { 4 };

    ghost number = { four };

    fn at(bytes: &[u8], at: usize) -> u32 {
        u32::from_le_bytes(bytes[at..at + 4].try_into().unwrap())
    }

    ghost some_bytes = { Prim.search rules };
}

impl Number for u64 {
    const WIDTH: usize = 8;

    ghost WIDTH = { 8 };

    ghost number = { eight };

    fn at(bytes: &[u8], at: usize) -> u64 {
        u64::from_le_bytes(bytes[at..at + 8].try_into().unwrap())
    }

    ghost some_bytes = { Prim.search rules };
}

// Takes as many numbers as there are and have room, and answers how many.
fn copy<T: Number>(bytes: &[u8], to: &mut [T]) -> usize
    ensures count { result ≡ many T.WIDTH bytes.now to.old }
    ensures copied { Copied T.number T.WIDTH bytes.now to.old (many T.WIDTH bytes.now to.old) to.new }
{
    let n = (bytes.len() / T::WIDTH).min(to.len());
    for (i, place) in to[..n].iter_mut().enumerate() {
        *place = T::at(bytes, T::WIDTH * i);
    }
    n
}

// A part of a request as the memory that is lent to a call: as many elements as it has and there is room for.
pub fn lent<'a, T: Number>(bytes: &[u8], room: &'a mut [T]) -> &'a mut [T] {
    let n = copy(bytes, room);
    &mut room[..n]
}
