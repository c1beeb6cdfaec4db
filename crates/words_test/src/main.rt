// Prints, for each file of the input, its refusal and why it was refused, in words. A file ends at the two bytes '=' and newline.
#![tactic(auto)]

use model::{Head, Refusal};
use network::Network;
use record_words::explain;
use std::fmt::Write;
use std::io;
use words::{Lent, Name};

// A refusal of a file and why it was refused.
fn show(rt: &impl Print, file: &[u8], refusal: Refusal) -> io::Result<()> {
    let number = refusal.number();
    let record = refusal.record();
    let words = explain(file, refusal);
    println!(rt; "{number},{record}: {words}")
}

// What a buffer keeps of the words for a refusal that are written from position `at` on.
fn show_kept(
    rt: &impl Print,
    file: &[u8],
    refusal: Refusal,
    buffer: &mut [u8],
    at: usize,
) -> io::Result<()> {
    let mut lent = Lent::starting_at(buffer, at);
    let words = explain(file, refusal);
    let _ = write!(lent, "{words}");
    let number = refusal.number();
    let record = refusal.record();
    print!(rt; "{number},{record}: ")?;
    rt.write_all(lent.as_bytes())?;
    println!(rt)
}

// The refusal of a file and why it was refused.
fn show_file(rt: &impl Print, file: &[u8]) -> io::Result<()> {
    match reader::read(file, &mut Network::new(Head::default())) {
        Ok(()) => println!(rt; "read"),
        Err(refusal) => show(rt, file, refusal),
    }
}

// Refusals that a file does not have, those with another number than 1, 2 or 3, and buffers that are too short.
fn show_strange(rt: &impl Print) -> io::Result<()> {
    let file = b"N,1,0,90,3,0,0,0,1\nS,1,0\n";
    println!(rt; "0,0: {}", explain(file, Refusal::Ring))?;
    show(rt, file, Refusal::TooLong)?;
    for record in [1, 3, u64::MAX] {
        show(rt, file, Refusal::Malformed { record })?;
    }
    show(rt, file, Refusal::NoSuchNumber)?;
    for record in [2, 7] {
        show(rt, file, Refusal::OutOfRange { record })?;
    }
    for record in [1, 3, u64::MAX] {
        show(rt, file, Refusal::Misplaced { record })?;
    }
    println!(rt; "10,2: {}", explain(file, Refusal::ShortBuffer))?;
    show(rt, b"", Refusal::OutOfRange { record: 3 })?;
    show(rt, b"", Refusal::Misplaced { record: 2 })?;
    let absent = Refusal::Malformed { record: 3 };
    // A lent buffer, which keeps what fits.
    let mut short = [b'_'; 20];
    show_kept(rt, file, absent, &mut short, 4)?;
    show_kept(rt, file, absent, &mut short, usize::MAX)?;
    show_kept(rt, file, absent, &mut [], 0)
}

// Bytes as a name.
fn show_name(rt: &impl Print, bytes: &[u8]) -> io::Result<()> {
    println!(rt; "{}", Name(bytes))
}

// What a buffer keeps of bytes that are no text, and of which the last does not fit.
fn show_bytes(rt: &impl Print) -> io::Result<()> {
    let mut buffer = [b'_'; 4];
    let mut lent = Lent::starting_at(&mut buffer, 1);
    lent.put_bytes(&[b'a', 0xff, 0, b'b']);
    show_name(rt, lent.as_bytes())
}

// The refusal of each file of the input. One ends before '=', behind which one more byte is passed over; the last may end with the
// input. A function of all test programs would take a closure and stand in a crate of its own: that is no plainer.
fn show_files(rt: &impl Print, input: &[u8]) -> io::Result<()> {
    let mut rest = input;
    while !rest.is_empty() {
        let end = rest
            .iter()
            .position(|&byte| byte == b'=')
            .unwrap_or(rest.len());
        let (file, after) = rest.split_at(end);
        show_file(rt, file)?;
        rest = match after {
            [_, _, more @ ..] => more,
            _ => &[],
        };
    }
    Ok(())
}

fn main(rt: HostRuntime) -> io::Result<()> {
    // Room for the input, fixed as that of the program. Each test program reads by these two lines: a function of them would be no plainer.
    let mut input = [0; 100000];
    let n = input::read(&mut rt.stdin(), &mut input)?;
    show_files(&rt, &input[..n])?;
    show_strange(&rt)?;
    show_bytes(&rt)
}
