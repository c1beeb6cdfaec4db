// Why a station has no supply, in words.
#![tactic(auto)]

use islands::Island;
use line_words::{EndName, LineName, StationName, StationNumbers};
use lookups::{LineSet, StationSet, is_hv};
use network::{Line, Network, Side, State};
use std::fmt;

// The open end of a line with one.
fn open_side(line: &Line) -> Side {
    match line.state1 {
        State::Open => Side::One,
        State::Plain | State::Breaker => Side::Two,
    }
}

// The open ends of some lines with one each, as "end 1 of line 3 (record 9) or end 2 of line 4 (record 10)"; behind the first 24 only
// how many more there are.
#[derive(Clone, Copy)]
struct OpenEnds<'a> {
    network: &'a Network,
    lines: LineSet,
}

impl OpenEnds<'_> {
    // How many of the ends are at an HV station.
    fn at_hv(&self) -> usize {
        (1..)
            .zip(self.network.lines())
            .filter(|(number, line)| {
                self.lines.contains(*number) && is_hv(self.network, line.station(open_side(line)))
            })
            .count()
    }

    // How one of the ends is closed.
    fn closing(&self) -> &'static str {
        match self.at_hv() {
            0 => "closed (state 0 plain, 1 breaker)",
            count if count == self.lines.len() => "made a breaker (state 1)",
            _ => "closed (state 0 plain, 1 breaker; only 1 at an HV station)",
        }
    }
}

impl fmt::Display for OpenEnds<'_> {
    fn fmt<W: fmt::Write>(&self, f: &mut fmt::Formatter<W>) -> fmt::Result {
        let count = self.lines.len();
        let ends = (1..)
            .zip(self.network.lines())
            .filter(|(number, _)| self.lines.contains(*number))
            .take(24);
        for (done, (number, line)) in (1..).zip(ends) {
            let separator = match done {
                1 => "",
                _ if done == count => " or ",
                _ => ", ",
            };
            if let Some(name) = LineName::find(self.network, number) {
                let end = EndName {
                    side: open_side(line),
                    line: name,
                };
                write!(f, "{separator}{end}")?;
            }
        }
        if count > 24 {
            write!(f, " or {} more", count - 24)?;
        }
        Ok(())
    }
}

// Where lines with an open end lead from stations without supply.
#[derive(Clone, Copy)]
enum Exits<'a> {
    // to stations with supply
    Supplied(OpenEnds<'a>),
    // to stations that have no supply either
    Unsupplied(OpenEnds<'a>),
    // there is no such line
    None,
}

impl<'a> Exits<'a> {
    // Where lines lead from an island.
    fn find(network: &'a Network, island: &Island) -> Self {
        let lines = island.ways_to_supply();
        if !lines.is_empty() {
            return Exits::Supplied(OpenEnds { network, lines });
        }
        let lines = island.ways_out();
        if !lines.is_empty() {
            return Exits::Unsupplied(OpenEnds { network, lines });
        }
        Exits::None
    }
}

impl fmt::Display for Exits<'_> {
    fn fmt<W: fmt::Write>(&self, f: &mut fmt::Formatter<W>) -> fmt::Result {
        match self {
            Exits::Supplied(ends) => {
                let closing = ends.closing();
                write!(
                    f,
                    " Or an open end that is no normally open point should be {closing}: {ends}."
                )
            }
            Exits::Unsupplied(ends) => write!(
                f,
                " Or open ends that are no normally open points should be closed on the way to an HV station \
                 (state 0 plain, 1 breaker; only 1 at an HV station): \
                 what lies behind {ends} has no supply either."
            ),
            Exits::None => Ok(()),
        }
    }
}

// That stations have no supply either, being joined with one that has none.
#[derive(Clone, Copy)]
struct Joined(StationSet);

impl fmt::Display for Joined {
    fn fmt<W: fmt::Write>(&self, f: &mut fmt::Formatter<W>) -> fmt::Result {
        let stations = StationNumbers(&self.0);
        match self.0.len() {
            0 => Ok(()),
            1 => write!(f, ", nor has {stations}, which is joined with it"),
            _ => write!(f, ", nor have {stations}, which are joined with it"),
        }
    }
}

// What leaves a station without supply.
#[derive(Clone, Copy)]
enum Fault<'a> {
    // no station is an HV station
    NoHv,
    // no line ends at it
    NoLine(StationName),
    // closed lines join it with no HV station
    Island {
        station: StationName,
        joined: Joined,
        exits: Exits<'a>,
    },
}

// Why a station has no supply.
#[derive(Clone, Copy)]
pub struct Unsupplied<'a>(Fault<'a>);

impl<'a> Unsupplied<'a> {
    // Why a station has no supply, if it is there and has none.
    pub fn find(network: &'a Network, number: usize) -> Option<Self> {
        let station = StationName::find(network, number)?;
        if !network_parts::has_hv(network) {
            return Some(Unsupplied(Fault::NoHv));
        }
        let island = Island::find(network, number)?;
        if !islands::has_line(network, number) {
            return Some(Unsupplied(Fault::NoLine(station)));
        }
        Some(Unsupplied(Fault::Island {
            station,
            joined: Joined(island.others(number)),
            exits: Exits::find(network, &island),
        }))
    }
}

impl fmt::Display for Unsupplied<'_> {
    fn fmt<W: fmt::Write>(&self, f: &mut fmt::Formatter<W>) -> fmt::Result {
        match &self.0 {
            Fault::NoHv => f.write_str(
                "no station is an HV station: \
                 give the one that feeds the network role 1, and no customers, in its S record.",
            ),
            Fault::NoLine(station) => write!(
                f,
                "{station} has no closed path to an HV station, since no line ends at it: add a line, \
                 or correct the station (from or to) of one that should end there. \
                 A station put in or taken out changes the numbers of all later ones, in the L records too."
            ),
            Fault::Island {
                station,
                joined,
                exits,
            } => {
                let (them, one) = if joined.0.is_empty() {
                    ("it", "the station")
                } else {
                    ("them", "one of these stations")
                };
                let dead_end = match exits {
                    Exits::None => ", and no line with an open end leads on from there",
                    Exits::Supplied(_) | Exits::Unsupplied(_) => "",
                };
                write!(
                    f,
                    "{station} has no closed path to an HV station{joined}{dead_end}. \
                     Either a line that should feed {them} is missing or ends at a wrong station (from or to): \
                     add it, a lost one where it was, or correct it.{exits} \
                     Or {one} is a substation: give it role 1 and no customers in its S record."
                )
            }
        }
    }
}
