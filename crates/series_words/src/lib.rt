// Why too many breakers are in series, in words.
#![tactic(auto)]

use line_words::{LineName, LineNames, StationName};
use network::Network;
use std::fmt;

// What to do besides making breakers plain if a path passes so many.
#[derive(Clone, Copy)]
struct Raise(u64);

impl fmt::Display for Raise {
    fn fmt<W: fmt::Write>(&self, f: &mut fmt::Formatter<W>) -> fmt::Result {
        match self.0 {
            breakers @ ..=8 => write!(
                f,
                ", or raise series (the fourth number of record 1) to {breakers}."
            ),
            _ => f.write_str("; series can be 8 at most."),
        }
    }
}

// A path from an HV station to a line that passes more breakers than record 1 allows, and the lines that they are on.
#[derive(Clone, Copy)]
pub struct OverSeries<'a> {
    start: StationName,
    last: LineName,
    breakers: u64,
    lines: LineNames<'a>,
    series: u64,
}

impl<'a> OverSeries<'a> {
    // The path that passes the most breakers, if they are too many.
    pub fn find(network: &'a Network) -> Option<Self> {
        let path = breaker_paths::worst_path(network)?;
        let series = network.head().series;
        if path.breakers <= series {
            return None;
        }
        Some(OverSeries {
            start: StationName::find(network, path.start)?,
            last: LineName::find(network, path.last)?,
            breakers: path.breakers,
            lines: LineNames {
                network,
                lines: path.lines,
            },
            series,
        })
    }
}

impl fmt::Display for OverSeries<'_> {
    fn fmt<W: fmt::Write>(&self, f: &mut fmt::Formatter<W>) -> fmt::Result {
        let OverSeries {
            start,
            last,
            breakers,
            lines,
            series,
        } = *self;
        let raise = Raise(breakers);
        write!(
            f,
            "the path from HV {start} to {last} passes {breakers} breakers, on {lines}, \
             and record 1 allows {series} in series: \
             make some of them plain (state 0, but none that is at an HV station){raise}"
        )
    }
}
