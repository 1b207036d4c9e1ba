// The program `trial`: a run of requests comes in on standard input, each four bytes of length and a call with its arguments;
// the answer to each goes out, with what lies in the memory that was lent to the call, and a line with a dot.
#![tactic(auto)]

mod build;
mod calls;
mod group;
mod numbers;
mod print;
mod request;
mod room;

use print::Out;
use text::{STDIN, STDOUT};

// Why no request was read.
#[derive(Clone, Copy)]
enum Fault {
    Ended,
    CutOff,
    OverRoom,
}

fn main() {
    let mut bytes = [0; room::REQUEST];
    let mut out = Out::new(STDOUT);
    run(&mut bytes, &mut out);
}

// Nothing says that the input ends, so the requests are counted.
fn run(bytes: &mut [u8], out: &mut Out) {
    for _ in 0..u64::MAX {
        match read(bytes) {
            Ok(request) => calls::reply(request, out),
            Err(Fault::OverRoom) => print::malformed(out),
            Err(Fault::CutOff) => {
                print::malformed(out);
                print::close(out);
                return;
            }
            Err(Fault::Ended) => return,
        }
        print::close(out);
    }
}

// Reads a request. One that is over all rooms is read and forgotten.
fn read(bytes: &mut [u8]) -> Result<&[u8], Fault> {
    let mut length = [0; 4];
    match io::read_full(STDIN, &mut length) {
        0 => return Err(Fault::Ended),
        4 => {}
        _ => return Err(Fault::CutOff),
    }
    let length = u32::from_le_bytes(length) as usize;
    if bytes.len() < length {
        skip(length);
        return Err(Fault::OverRoom);
    }
    let request = &mut bytes[..length];
    if io::read_full(STDIN, request) < length {
        return Err(Fault::CutOff);
    }
    Ok(request)
}

fn skip(length: usize) {
    let mut bytes = [0; 4096];
    let mut left = length;
    while 0 < left {
        let part = left.min(bytes.len());
        let n = io::read_full(STDIN, &mut bytes[..part]);
        if n == 0 {
            return;
        }
        left -= n;
    }
}
