// Refusals in words, for the planner who wrote the file or gave the number.
#![tactic(auto)]

use file_parts::Announced;
use model::{Command, Head, Refusal};
use network::Network;
use std::fmt;

// That a number is no line's, and which are.
#[derive(Clone, Copy)]
struct NoLine {
    line: u64,
    lines: u64,
}

impl fmt::Display for NoLine {
    fn fmt<W: fmt::Write>(&self, f: &mut fmt::Formatter<W>) -> fmt::Result {
        write!(f, "there is no line {}; the file", self.line)?;
        match self.lines {
            0 => f.write_str(" has no lines."),
            1 => f.write_str("'s only line is 1."),
            n => write!(f, "'s lines are 1 to {n}."),
        }
    }
}

// The record that a refusal names, 0 if it names none, as C has it.
#[derive(Clone, Copy)]
struct Place(u64);

impl fmt::Display for Place {
    fn fmt<W: fmt::Write>(&self, f: &mut fmt::Formatter<W>) -> fmt::Result {
        match self.0 {
            0 => Ok(()),
            record => write!(f, ", record {record} (line {record} in an editor)"),
        }
    }
}

// Why a command is refused on a file, as one line.
#[derive(Clone, Copy)]
pub struct Explanation<'a> {
    pub command: Command,
    pub file: &'a [u8],
    pub refusal: Refusal,
}

impl Explanation<'_> {
    // Why the number that was given with the command is refused.
    fn write_number<W: fmt::Write>(&self, f: &mut fmt::Formatter<W>) -> fmt::Result {
        match self.command {
            Command::Impact(line) => {
                let lines = Announced::by(self.file).lines;
                write!(f, "{}", NoLine { line, lines })
            }
            _ => f.write_str("PLACES is at most 64, and ADDITIONS at most 16."),
        }
    }

    // Why the network of the file is refused.
    fn write_network<W: fmt::Write>(&self, f: &mut fmt::Formatter<W>) -> fmt::Result {
        let mut network = Network::new(Head::default());
        match reader::read(self.file, &mut network) {
            Ok(()) => write!(f, "{}", network_words::explain(&network, self.refusal)),
            Err(_) => f.write_str("the network breaks a rule of radial feeders."),
        }
    }

    // Why the command is refused.
    fn write_reason<W: fmt::Write>(&self, f: &mut fmt::Formatter<W>) -> fmt::Result {
        match self.refusal {
            Refusal::NoSuchNumber => self.write_number(f),
            Refusal::TooLong
            | Refusal::Malformed { .. }
            | Refusal::OutOfRange { .. }
            | Refusal::Misplaced { .. } => {
                write!(f, "{}", record_words::explain(self.file, self.refusal))
            }
            _ => self.write_network(f),
        }
    }
}

impl fmt::Display for Explanation<'_> {
    fn fmt<W: fmt::Write>(&self, f: &mut fmt::Formatter<W>) -> fmt::Result {
        let number = self.refusal.number();
        let place = Place(self.refusal.record());
        write!(f, "breakers: refusal {number}{place}: ")?;
        self.write_reason(f)?;
        f.write_str("\n")
    }
}
