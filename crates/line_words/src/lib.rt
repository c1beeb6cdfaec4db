// Stations and lines in words, each with its record in the file: the head is record 1, then come the stations, then the lines.
#![tactic(auto)]

ghost use Rattle.std.specs.Prelude.{◌≤◌, ◌^◌};

use lookups::{LineSet, StationSet};
use network::{Network, Side};
use std::fmt;

// A station with its record, as "station 1 (record 2)". It is a type beside `LineName`, so that neither is printed as the other.
#[derive(Clone, Copy, Debug, PartialEq, Eq)]
pub struct StationName {
    number: usize,
    record: usize,
}

impl StationName {
    // The station of a number, if there is one.
    pub fn find(network: &Network, number: usize) -> Option<Self> {
        if (1..=network.stations().len()).contains(&number) {
            Some(StationName {
                number,
                record: 1 + number,
            })
        } else {
            None
        }
    }

    // Its number, where its record has been named.
    pub fn number(&self) -> usize {
        self.number
    }
}

impl fmt::Display for StationName {
    fn fmt<W: fmt::Write>(&self, f: &mut fmt::Formatter<W>) -> fmt::Result {
        write!(f, "station {} (record {})", self.number, self.record)
    }
}

// A line with its record, as "line 3 (record 9)".
#[derive(Clone, Copy, Debug, PartialEq, Eq)]
pub struct LineName {
    number: usize,
    record: usize,
}

impl LineName {
    // The line of a number, if there is one.
    pub fn find(network: &Network, number: usize) -> Option<Self> {
        if (1..=network.lines().len()).contains(&number) {
            Some(LineName {
                number,
                record: 1 + network.stations().len() + number,
            })
        } else {
            None
        }
    }
}

impl fmt::Display for LineName {
    fn fmt<W: fmt::Write>(&self, f: &mut fmt::Formatter<W>) -> fmt::Result {
        write!(f, "line {} (record {})", self.number, self.record)
    }
}

// An end of a line with its record, as "end 2 of line 3 (record 9)".
#[derive(Clone, Copy, Debug, PartialEq, Eq)]
pub struct EndName {
    pub side: Side,
    pub line: LineName,
}

impl fmt::Display for EndName {
    fn fmt<W: fmt::Write>(&self, f: &mut fmt::Formatter<W>) -> fmt::Result {
        write!(f, "end {} of {}", self.side.number(), self.line)
    }
}

// Some numbers, where the first flag is that of the number `first`, as "1, 2 and 3"; behind the first 24 only how many more there are.
#[derive(Clone, Copy)]
struct Numbers<'a> {
    flags: &'a [bool],
    first: usize,
    ghost low: { first ≤ 2 ^ 63 },
}

impl fmt::Display for Numbers<'_> {
    fn fmt<W: fmt::Write>(&self, f: &mut fmt::Formatter<W>) -> fmt::Result {
        let count = self.flags.iter().filter(|&&is_in| is_in).count();
        let numbers = (self.first..)
            .zip(self.flags)
            .filter(|(_, is_in)| **is_in)
            .take(24);
        for (done, (number, _)) in (1..).zip(numbers) {
            let separator = match done {
                1 => "",
                _ if done == count => " and ",
                _ => ", ",
            };
            write!(f, "{separator}{number}")?;
        }
        if count > 24 {
            write!(f, " and {} more", count - 24)?;
        }
        Ok(())
    }
}

// Some stations, as "stations 1 and 3".
#[derive(Clone, Copy)]
pub struct StationNumbers<'a>(pub &'a StationSet);

impl fmt::Display for StationNumbers<'_> {
    fn fmt<W: fmt::Write>(&self, f: &mut fmt::Formatter<W>) -> fmt::Result {
        let ending = if self.0.len() == 1 { "" } else { "s" };
        let numbers = Numbers {
            flags: self.0.flags(),
            first: 1,
        };
        write!(f, "station{ending} {numbers}")
    }
}

// Some lines with their records, as "lines 1 and 3 (records 7 and 9)".
#[derive(Clone, Copy)]
pub struct LineNames<'a> {
    pub network: &'a Network,
    pub lines: LineSet,
}

impl fmt::Display for LineNames<'_> {
    fn fmt<W: fmt::Write>(&self, f: &mut fmt::Formatter<W>) -> fmt::Result {
        let ending = if self.lines.len() == 1 { "" } else { "s" };
        let numbers = Numbers {
            flags: self.lines.flags(),
            first: 1,
        };
        let records = Numbers {
            flags: self.lines.flags(),
            first: 2 + self.network.stations().len(),
        };
        write!(f, "line{ending} {numbers} (record{ending} {records})")
    }
}
