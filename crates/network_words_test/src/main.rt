// Prints why each file of the input is refused: the number and the record, then the words. A file ends at the two bytes '=' and newline.
// What is accepted is explained as if it were refused with 6.
#![tactic(auto)]

use model::{Head, Refusal};
use network::Network;
use network_words::explain;
use std::fmt::Write;
use std::io;
use words::Lent;

// A head without stations and lines.
const NO_HEAD: Head = Head {
    stations: 0,
    lines: 0,
    minutes: 1,
    series: 1,
    adds: 0,
    money: 0,
    hours: 0,
    visits: 1,
};

// The network of a file; one with nothing in it if the file's records are not well formed.
fn network_of(file: &[u8]) -> Network {
    let mut network = Network::new(NO_HEAD);
    if reader::read(file, &mut network).is_err() {
        network.clear(NO_HEAD);
    }
    network
}

// A number, a record and the words for a refusal.
fn show_refusal(rt: &impl Print, network: &Network, refusal: Refusal) -> io::Result<()> {
    let number = refusal.number();
    let record = refusal.record();
    let words = explain(network, refusal);
    println!(rt; "{number},{record}: {words}")
}

// What is said of a file.
fn show(rt: &impl Print, file: &[u8]) -> io::Result<()> {
    let network = network_of(file);
    match engine::check(file) {
        Ok(()) => {
            print!(rt; "accepted, ")?;
            show_refusal(rt, &network, Refusal::Ring)
        }
        Err(refusal) => show_refusal(rt, &network, refusal),
    }
}

// What is said of each file of the input. One ends before '=', behind which one more byte is passed over; the last may end with the
// input. A function of all test programs would take a closure and stand in a crate of its own: that is no plainer.
fn show_files(rt: &impl Print, input: &[u8]) -> io::Result<()> {
    let mut rest = input;
    while !rest.is_empty() {
        let end = rest
            .iter()
            .position(|&byte| byte == b'=')
            .unwrap_or(rest.len());
        let (file, after) = rest.split_at(end);
        show(rt, file)?;
        rest = match after {
            [_, _, more @ ..] => more,
            _ => &[],
        };
    }
    Ok(())
}

// What a buffer keeps of the words for a ring that are written from position `at` on.
fn show_kept(rt: &impl Print, network: &Network, buffer: &mut [u8], at: usize) -> io::Result<()> {
    let mut lent = Lent::starting_at(buffer, at);
    let words = explain(network, Refusal::Ring);
    let _ = write!(lent, "{words}");
    rt.write_all(lent.as_bytes())?;
    println!(rt)
}

// Refusals that a network does not have, those with a number that is no rule of networks, and buffers that are too short.
fn show_others(rt: &impl Print, network: &Network) -> io::Result<()> {
    println!(rt; "0,0: {}", explain(network, Refusal::TooLong))?;
    for record in [0, u64::MAX] {
        show_refusal(rt, network, Refusal::OpenLine { record })?;
    }
    show_refusal(rt, network, Refusal::PlainAtHv { record: 2 })?;
    show_refusal(rt, network, Refusal::Joined)?;
    for record in [2, 0] {
        show_refusal(rt, network, Refusal::Unsupplied { record })?;
    }
    show_refusal(rt, network, Refusal::OverSeries)?;
    show_refusal(rt, network, Refusal::ShortBuffer)?;
    // A lent buffer, which keeps what fits.
    let mut short = [b'#'; 24];
    for at in [0, 12, 25] {
        show_kept(rt, network, &mut short, at)?;
    }
    Ok(())
}

// Others of a network with two parallel lines.
fn show_others_of_two(rt: &impl Print) -> io::Result<()> {
    let file = b"N,2,2,90,3,0,0,0,1\nS,1,0\nS,0,5\nL,1,1,2,1,0\nL,1,1,2,1,0\n";
    show_others(rt, &network_of(file))
}

fn main(rt: HostRuntime) -> io::Result<()> {
    // Room for the input, fixed as that of the program. Each test program reads by these two lines: a function of them would be no plainer.
    let mut input = [0; 200000];
    let n = input::read(&mut rt.stdin(), &mut input)?;
    show_files(&rt, &input[..n])?;
    show_others_of_two(&rt)
}
