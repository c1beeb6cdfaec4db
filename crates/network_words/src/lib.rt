// Why a network whose records are all well formed is refused, in words: what is wrong, where, and what to do.
#![tactic(auto)]

use line_words::{EndName, LineName, LineNames, StationName};
use lookups::{is_hv, joined_by};
use model::Refusal;
use network::{Line, Network, Side, State};
use series_words::OverSeries;
use std::fmt;
use supply_words::Unsupplied;

// What is wrong with a network.
#[derive(Clone, Copy)]
enum Fault<'a> {
    // both ends of a line are open
    OpenLine(LineName),
    // an end is plain at an HV station
    PlainAtHv {
        end: EndName,
        station: StationName,
        other: State,
    },
    // both ends of a line are closed at one station
    Loop {
        line: LineName,
        station: StationName,
    },
    // some lines form a ring
    Ring(LineNames<'a>),
    // some lines join two HV stations
    Joined {
        one: StationName,
        other: StationName,
        names: LineNames<'a>,
    },
    Unsupplied(Unsupplied<'a>),
    OverSeries(OverSeries<'a>),
}

// The number of the line that a record is of, if it stands behind those of the head and the stations.
fn line_of(network: &Network, record: u64) -> Option<usize> {
    (record as usize).checked_sub(1 + network.stations().len())
}

// That both ends of a line are open.
fn open_line(network: &Network, number: usize) -> Option<Fault<'_>> {
    match lookups::line(network, number)? {
        Line {
            state1: State::Open,
            state2: State::Open,
            ..
        } => Some(Fault::OpenLine(LineName::find(network, number)?)),
        _ => None,
    }
}

// That an end of a line is plain at an HV station.
fn plain_end(network: &Network, number: usize, side: Side) -> Option<Fault<'_>> {
    let line = lookups::line(network, number)?;
    let station = line.station(side);
    if line.state(side) != State::Plain || !is_hv(network, station) {
        return None;
    }
    Some(Fault::PlainAtHv {
        end: EndName {
            side,
            line: LineName::find(network, number)?,
        },
        station: StationName::find(network, station)?,
        other: line.state(side.other()),
    })
}

// That lines form a ring.
fn ring(network: &Network) -> Option<Fault<'_>> {
    let last = network_parts::first_closing_ring(network)?;
    let (one, other) = joined_by(&lookups::line(network, last)?)?;
    if one == other {
        return Some(Fault::Loop {
            line: LineName::find(network, last)?,
            station: StationName::find(network, one)?,
        });
    }
    let lines = rings::ring_of(network, last);
    Some(Fault::Ring(LineNames { network, lines }))
}

// That lines join two HV stations.
fn joined(network: &Network) -> Option<Fault<'_>> {
    let join = network_parts::first_joining_hv(network)?;
    let lines = rings::path_of(network, join.line);
    Some(Fault::Joined {
        one: StationName::find(network, join.one.min(join.other))?,
        other: StationName::find(network, join.one.max(join.other))?,
        names: LineNames { network, lines },
    })
}

impl<'a> Fault<'a> {
    // What a refusal of a network is about.
    fn find(network: &'a Network, refusal: Refusal) -> Option<Self> {
        match refusal {
            Refusal::OpenLine { record } => open_line(network, line_of(network, record)?),
            Refusal::PlainAtHv { record } => {
                let line = line_of(network, record)?;
                plain_end(network, line, Side::One).or_else(|| plain_end(network, line, Side::Two))
            }
            Refusal::Ring => ring(network),
            Refusal::Joined => joined(network),
            Refusal::Unsupplied { record } => {
                let station = (record as usize).checked_sub(1)?;
                Unsupplied::find(network, station).map(Fault::Unsupplied)
            }
            Refusal::OverSeries => OverSeries::find(network).map(Fault::OverSeries),
            // a refusal of a record, a number or a buffer
            _ => None,
        }
    }
}

impl fmt::Display for Fault<'_> {
    fn fmt<W: fmt::Write>(&self, f: &mut fmt::Formatter<W>) -> fmt::Result {
        match self {
            Fault::OpenLine(line) => write!(
                f,
                "both ends of {line} are open (state 2): close one of them (state 0 plain, 1 breaker), \
                 or take the record out of the file and count one line less in record 1 \
                 (later lines then have numbers one lower, in P records too)."
            ),
            Fault::PlainAtHv {
                end,
                station,
                other,
            } => {
                let opening = match other {
                    State::Open => "",
                    State::Plain | State::Breaker => ", or open it (state 2)",
                };
                let turning = match other {
                    State::Breaker =>
                        " If the line is written the wrong way round, exchange from and to.",
                    State::Plain | State::Open => "",
                };
                let field = match end.side {
                    Side::One => "from",
                    Side::Two => "to",
                };
                let number = station.number();
                write!(
                    f,
                    "{end} is plain (state 0) at HV {station}: make it a breaker (state 1){opening}, \
                     or correct the station ({field}), or the role of station {number} if it is no HV station.{turning} \
                     A station put in or taken out changes the numbers of all later ones, in the L records too."
                )
            }
            Fault::Loop { line, station } => write!(
                f,
                "both ends of {line} are closed at {station}, so that it is a ring by itself: \
                 correct one of its stations (from or to), or open one end (state 2)."
            ),
            Fault::Ring(names) => {
                // a ring of two lines has them between the same stations
                let deleting = if names.lines.len() == 2 {
                    ", or delete one of them if it is there twice, count one line less in record 1, \
                     and look whether each P record names the line that it should"
                } else {
                    ""
                };
                write!(
                    f,
                    "{names} form a ring: \
                     open one end of one of them (state 2), or correct a wrong station (from or to){deleting}."
                )
            }
            Fault::Joined { one, other, names } => {
                let open_end = if names.lines.len() == 1 {
                    "one of its ends"
                } else {
                    "one end of one of them"
                };
                write!(
                    f,
                    "HV {one} and HV {other} are joined by {names}: \
                     open {open_end} (state 2), or correct a wrong station (from or to), \
                     or the role of one of the two stations if it is no HV station."
                )
            }
            Fault::Unsupplied(unsupplied) => write!(f, "{unsupplied}"),
            Fault::OverSeries(over_series) => write!(f, "{over_series}"),
        }
    }
}

// Why a network was refused, in words; only that it breaks a rule if the network and the refusal do not belong together.
#[derive(Clone, Copy)]
pub struct Explanation<'a>(Option<Fault<'a>>);

// Why a network was refused.
pub fn explain(network: &Network, refusal: Refusal) -> Explanation<'_> {
    Explanation(Fault::find(network, refusal))
}

impl fmt::Display for Explanation<'_> {
    fn fmt<W: fmt::Write>(&self, f: &mut fmt::Formatter<W>) -> fmt::Result {
        match &self.0 {
            Some(fault) => write!(f, "{fault}"),
            None => f.write_str("the network breaks a rule of radial feeders."),
        }
    }
}
