// Text on its way out: words and decimals gather in a buffer, so that a number costs no call of the system. The functions work on a
// buffer that the caller lends, with the number of bytes held, which the caller keeps; a `Text` owns buffer and number. A buffer with
// room for everything is added to and flushed once; any other gathers words for a descriptor and goes out when it is full, and what is
// left is flushed at the end.
//
// What goes out no contract can say; what stands in the buffer, or what is held, afterwards it does.
#![tactic(auto)]

ghost use Rattle.std.specs.Prelude.{◌≡◌, ◌+◌, ◌≤◌, ◌<◌, [], List, ℕ, length, take};
ghost use Rattle.text.specs.Decimals.{decimals};
ghost use Rattle.text.specs.Held.{Added, Appended};
ghost use Rattle.text.specs.Texts.{AddedTo, AppendedTo};

use std::marker::Model;

// The descriptors of a program's standard input and output.
pub const STDIN: i32 = 0;

pub const STDOUT: i32 = 1;

// Digits of the largest number.
const MOST_DIGITS: usize = 20;

// A number's decimal digits, which lie at the front of the room.
fn digits(number: u64, room: &mut [u8; MOST_DIGITS]) -> &[u8]
    ensures { result.now ≡ decimals number }
{
    let count = io::decimal(number, room);
    &room[..count]
}

// ---- a buffer that is lent

// Puts text behind what is held, where it has room, and answers how much is held then. Nothing goes out.
pub fn add(out: &mut [u8], held: usize, text: &[u8]) -> usize
    ensures { Added out.old held text.now out.new result }
{
    if out.len() < held {
        return held;
    }
    if out.len() - held < text.len() {
        return held;
    }
    slices::lay(out, held, text);
    held + text.len()
}

// The same with a number's decimal digits.
pub fn add_decimal(out: &mut [u8], held: usize, number: u64) -> usize
    ensures { Added out.old held (decimals number) out.new result }
{
    add(out, held, digits(number, &mut [0; MOST_DIGITS]))
}

// Writes out what is held, no more than the buffer has, and answers how much is held then: nothing.
pub fn flush(fd: i32, out: &[u8], held: usize) -> usize
    ensures { result ≡ 0 }
{
    if held <= out.len() {
        io::write_all(fd, &out[0..held]);
        return 0;
    }
    io::write_all(fd, out);
    0
}

// Puts a word behind what is held, and answers how much is held then.
pub fn word(fd: i32, out: &mut [u8], held: usize, w: &[u8]) -> usize
    ensures { Appended out.old held w.now out.new result }
{
    if out.len() < held {
        return afresh(fd, out, held, w);
    }
    if out.len() - held < w.len() {
        return afresh(fd, out, held, w);
    }
    slices::lay(out, held, w);
    held + w.len()
}

// The word has no room behind what is held, which goes out.
fn afresh(fd: i32, out: &mut [u8], held: usize, w: &[u8]) -> usize
    requires { length out.old < held + length w.now }
    ensures { Appended out.old held w.now out.new result }
{
    flush(fd, out, held);
    if w.len() <= out.len() {
        slices::lay(out, 0, w);
        return w.len();
    }
    io::write_all(fd, w);
    0
}

// Puts a number's decimal digits behind what is held, and answers how much is held then.
pub fn decimal(fd: i32, out: &mut [u8], held: usize, n: u64) -> usize
    ensures { Appended out.old held (decimals n) out.new result }
{
    word(fd, out, held, digits(n, &mut [0; MOST_DIGITS]))
}

// ---- a text

// At most `N` bytes that wait to be written to a descriptor.
#[derive(Drop)]
pub struct Text<const N: usize> {
    fd: i32,
    bytes: [u8; N],
    held: usize,
}

// Clauses see the bytes that are held.
impl<const N: usize> Model for Text<N> {
    ghost Value = { List ℕ };

    ghost view = { λ t. take t.held t.bytes };

    ghost invariant = { λ t. t.held ≤ N };
}

impl<const N: usize> Text<N> {
    pub fn new(fd: i32) -> Self
        ensures { result ≡ [] }
    {
        Text {
            fd,
            bytes: [0; N],
            held: 0,
        }
    }

    // Puts text behind what is held, where it has room. Nothing goes out.
    pub fn add(&mut self, text: &[u8])
        ensures { AddedTo N self.old text.now self.new }
    {
        self.held = add(&mut self.bytes, self.held, text);
    }

    // The same with a number's decimal digits.
    pub fn add_decimal(&mut self, number: u64)
        ensures { AddedTo N self.old (decimals number) self.new }
    {
        self.held = add_decimal(&mut self.bytes, self.held, number);
    }

    // Forgets what is held.
    pub fn clear(&mut self)
        ensures { self.new ≡ [] }
    {
        self.held = 0;
    }

    // Writes out what is held. Nothing is held then.
    pub fn flush(&mut self)
        ensures { self.new ≡ [] }
    {
        self.held = flush(self.fd, &self.bytes, self.held);
    }

    // Puts a word behind what is held, which goes out first where the word has no room there.
    pub fn word(&mut self, w: &[u8])
        ensures { AppendedTo N self.old w.now self.new }
    {
        self.held = word(self.fd, &mut self.bytes, self.held, w);
    }

    // The same with a number's decimal digits.
    pub fn decimal(&mut self, number: u64)
        ensures { AppendedTo N self.old (decimals number) self.new }
    {
        self.held = decimal(self.fd, &mut self.bytes, self.held, number);
    }
}
