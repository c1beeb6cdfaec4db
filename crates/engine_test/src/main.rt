// Prints what the calls answer for each file of the input, and what they leave in lent buffers. A file ends at the two bytes '='
// and newline. A buffer is filled with one value before each call: 99 a number, '#' a byte.
#![tactic(auto)]

ghost use Rattle.std.specs.Prelude.{◌≤◌};

use model::Refusal;
use std::io;

fn show_refusal(rt: &impl Print, refusal: Refusal) -> io::Result<()> {
    println!(rt; "X,{},{}", refusal.number(), refusal.record())
}

fn show_check(rt: &impl Print, file: &[u8]) -> io::Result<()> {
    match engine::check(file) {
        Ok(()) => println!(rt; "accepted"),
        Err(refusal) => show_refusal(rt, refusal),
    }
}

fn show_total(rt: &impl Print, file: &[u8]) -> io::Result<()> {
    match engine::total(file) {
        Ok(totals) => println!(rt; "{},{}", totals.total, totals.figure),
        Err(refusal) => show_refusal(rt, refusal),
    }
}

// Prints the impact of a fault on a line. Returns whether it was refused.
fn show_impact(rt: &impl Print, file: &[u8], line: u64) -> io::Result<bool> {
    let answered = engine::impact(file, line);
    match answered {
        Ok(n) => println!(rt; "{n}")?,
        Err(refusal) => show_refusal(rt, refusal)?,
    }
    Ok(answered.is_err())
}

// The impacts of the lines from 1 on, to the first number that is refused.
fn show_impacts(rt: &impl Print, file: &[u8]) -> io::Result<()> {
    for line in 1..770 {
        if show_impact(rt, file, line)? {
            return Ok(());
        }
    }
    Ok(())
}

// The numbers of a buffer.
fn show_numbers(rt: &impl Print, numbers: &[u64]) -> io::Result<()> {
    for number in numbers {
        print!(rt; "{number} ")?;
    }
    println!(rt)
}

// What Search answers with a buffer, and what it leaves there: 1 finished or 0 spent, the number of members, their total, the visits.
fn show_search(rt: &impl Print, file: &[u8], members: &mut [u64]) -> io::Result<()> {
    match engine::search(file, members) {
        Ok(found) => {
            let finished = u8::from(found.finished);
            println!(rt;
                "{finished},{},{},{}",
                found.members, found.total, found.visits
            )?;
        }
        Err(refusal) => show_refusal(rt, refusal)?,
    }
    show_numbers(rt, members)
}

// 1 for the byte '#', 0 for any other.
fn is_mark(byte: u8) -> usize
    ensures { result ≤ 1 }
{
    if byte == b'#' { 1 } else { 0 }
}

// How many bytes of a buffer are '#'. By a loop, which takes less time than a filter that counts; so does `unchanged`.
fn untouched(text: &[u8]) -> usize {
    let mut n: usize = 0;
    for byte in text {
        n += is_mark(*byte);
    }
    n
}

// What Report answers with a buffer, the text, and how many bytes are as they were before the call.
fn show_report(rt: &impl Print, file: &[u8], text: &mut [u8]) -> io::Result<()> {
    match engine::report(file, text) {
        Ok(n) => {
            println!(rt; "{n}")?;
            if n <= text.len() {
                rt.write_all(&text[..n])?;
            }
        }
        Err(refusal) => show_refusal(rt, refusal)?,
    }
    println!(rt; "{}", untouched(text))
}

// 1 for the number 99, 0 for any other.
fn is_filling(number: u64) -> usize
    ensures { result ≤ 1 }
{
    if number == 99 { 1 } else { 0 }
}

// How many numbers of a buffer are 99.
fn unchanged(table: &[u64]) -> usize {
    let mut n: usize = 0;
    for number in table {
        n += is_filling(*number);
    }
    n
}

// What Segments answers with a buffer, the table, and how many numbers are as they were before the call.
fn show_table(rt: &impl Print, file: &[u8], table: &mut [u64]) -> io::Result<()> {
    match engine::segments(file, table) {
        Ok(n) => {
            println!(rt; "{n}")?;
            if n <= 1536 && 5 * n <= table.len() {
                show_numbers(rt, &table[..5 * n])?;
            }
        }
        Err(refusal) => show_refusal(rt, refusal)?,
    }
    println!(rt; "{}", unchanged(table))
}

// Search, Report and Segments, each with a buffer of one element too few, of just enough and of more. The calls take lent buffers.
fn show_lent(rt: &impl Print, file: &[u8]) -> io::Result<()> {
    show_search(rt, file, &mut [99u64; 15])?;
    show_search(rt, file, &mut [99u64; 16])?;
    show_search(rt, file, &mut [99u64; 20])?;
    show_report(rt, file, &mut [b'#'; 32767])?;
    show_report(rt, file, &mut [b'#'; 32768])?;
    show_report(rt, file, &mut [b'#'; 40000])?;
    show_table(rt, file, &mut [99u64; 7679])?;
    show_table(rt, file, &mut [99u64; 7680])?;
    show_table(rt, file, &mut [99u64; 8000])
}

// What the calls answer for a file. Impact is asked for 0 and, if the file is accepted, for the largest number and each line too.
fn show(rt: &impl Print, file: &[u8]) -> io::Result<()> {
    show_check(rt, file)?;
    show_total(rt, file)?;
    show_impact(rt, file, 0)?;
    if engine::check(file).is_ok() {
        show_impact(rt, file, u64::MAX)?;
        show_impacts(rt, file)?;
    }
    show_lent(rt, file)
}

// What the calls answer for each file of the input. One ends before '=', behind which one more byte is passed over; the last may end
// with the input. A function of all test programs would take a closure and stand in a crate of its own: that is no plainer.
fn show_files(rt: &impl Print, input: &[u8]) -> io::Result<()> {
    let mut rest = input;
    while !rest.is_empty() {
        let end = rest
            .iter()
            .position(|&byte| byte == b'=')
            .unwrap_or(rest.len());
        let (file, after) = rest.split_at(end);
        show(rt, file)?;
        rest = match after {
            [_, _, more @ ..] => more,
            _ => &[],
        };
    }
    Ok(())
}

fn main(rt: HostRuntime) -> io::Result<()> {
    // Room for the input, fixed as that of the program.
    let mut input = [0; 200000];
    let n = input::read(&mut rt.stdin(), &mut input)?;
    show_files(&rt, &input[..n])
}
