// What the program prints: an answer's line, a line for each lent slice, a dot.
use refusals::{Refusal, Refused};

// Bytes that gather before they are written.
const ROOM: usize = 65536;

pub type Out = text::Text<ROOM>;

// The dot, and everything goes out.
pub fn close(out: &mut Out) {
    out.word(b".\n");
    out.flush();
}

// A call's answer: its counts, or why it is refused.
pub fn answer<T: Copy + Into<u64>, const N: usize>(out: &mut Out, answer: Result<[T; N], Refused>) {
    match answer {
        Ok(counts) => said(out, b"ok", &counts),
        Err(refused) => refusal(out, refused),
    }
}

pub fn malformed(out: &mut Out) {
    refusal(out, Refusal::BadInput.at(0));
}

fn refusal(out: &mut Out, refused: Refused) {
    said(
        out,
        b"refused",
        &[refused.refusal.number().into(), refused.place],
    );
}

// A word, and numbers behind it.
fn said<T: Copy + Into<u64>>(out: &mut Out, word: &[u8], numbers: &[T]) {
    out.word(word);
    out.word(b" ");
    line(out, numbers);
}

// Numbers with a blank between any two.
pub fn line<T: Copy + Into<u64>>(out: &mut Out, numbers: &[T]) {
    for (i, &number) in numbers.iter().enumerate() {
        if 0 < i {
            out.word(b" ");
        }
        out.decimal(number.into());
    }
    out.word(b"\n");
}
