// The paths from HV stations, and the breakers that they pass.
#![tactic(auto)]

use lookups::{LineSet, closed_at};
use network::{Line, Network, Role, Side, State};

// How many breakers are on a line.
fn breakers_on(line: &Line) -> u64 {
    [line.state1, line.state2]
        .iter()
        .filter(|&&state| state == State::Breaker)
        .count() as u64
}

// How a path from an HV station reaches a station: past how many breakers, and over which line at last, if over any.
#[derive(Clone, Copy, Debug, PartialEq, Eq)]
struct Reach {
    breakers: u64,
    feeder: Option<usize>,
}

// How each station is reached from the HV stations of a network, if it is. There are at most 512: fixed memory, without a heap.
#[derive(Clone, Copy)]
struct Reaches<'a> {
    network: &'a Network,
    reaches: [Option<Reach>; 512],
}

impl<'a> Reaches<'a> {
    // The HV stations are reached without a breaker.
    fn start(network: &'a Network) -> Self {
        let mut reaches = [None; 512];
        for (station, reach) in network.stations().iter().zip(&mut reaches) {
            if station.role == Role::Hv {
                *reach = Some(Reach {
                    breakers: 0,
                    feeder: None,
                });
            }
        }
        Reaches { network, reaches }
    }

    // How the stations of a network are reached.
    fn of(network: &'a Network) -> Self {
        let mut reaches = Reaches::start(network);
        // a round for each line that a network can have is enough
        for _ in 0..768 {
            if !reaches.spread() {
                break;
            }
        }
        reaches
    }

    // How a station is reached.
    fn at(&self, station: usize) -> Option<Reach> {
        *self.reaches.get(station.checked_sub(1)?)?
    }

    // Goes once over all lines; answers whether that reaches a station anew.
    fn spread(&mut self) -> bool {
        let mut found = false;
        let network = self.network;
        for (number, line) in (1..).zip(network.lines()) {
            let step = self
                .step(number, line, Side::One)
                .or_else(|| self.step(number, line, Side::Two));
            if let Some((station, reach)) = step {
                self.put(station, reach);
                found = true;
            }
        }
        found
    }

    // The station that a line reaches anew from its end `near`, and how.
    fn step(&self, number: usize, line: &Line, near: Side) -> Option<(usize, Reach)> {
        let before = self.at(closed_at(line, near)?)?;
        let station = closed_at(line, near.other())?;
        match self.at(station) {
            Some(_) => None,
            None => Some((
                station,
                Reach {
                    breakers: before.breakers.saturating_add(breakers_on(line)),
                    feeder: Some(number),
                },
            )),
        }
    }

    // Notes how a station is reached.
    fn put(&mut self, station: usize, reach: Reach) {
        if let Some(index) = station.checked_sub(1)
            && let Some(place) = self.reaches.get_mut(index)
        {
            *place = Some(reach);
        }
    }

    // The last line of the path to a station, if it goes over any.
    fn feeder(&self, station: usize) -> Option<usize> {
        self.at(station)?.feeder
    }

    // The station at the end of a line that is nearer to the HV station.
    fn near_station(&self, number: usize, line: &Line) -> Option<usize> {
        match closed_at(line, Side::One) {
            Some(station) if self.feeder(station) != Some(number) => Some(station),
            _ => closed_at(line, Side::Two),
        }
    }

    // How many breakers the path over a line passes up to its far end, if there is one on the line itself.
    fn breakers_to(&self, number: usize, line: &Line) -> Option<u64> {
        let before = self.at(self.near_station(number, line)?)?;
        match breakers_on(line) {
            0 => None,
            here => Some(before.breakers.saturating_add(here)),
        }
    }

    // The first line to which the path passes the most breakers, and how many.
    fn farthest(&self) -> Option<(usize, u64)> {
        let mut farthest: Option<(usize, u64)> = None;
        for (number, line) in (1..).zip(self.network.lines()) {
            if let Some(breakers) = self.breakers_to(number, line)
                && farthest.is_none_or(|(_, most)| most < breakers)
            {
                farthest = Some((number, breakers));
            }
        }
        farthest
    }

    // The path over a line that passes so many breakers.
    fn path(&self, last: usize, breakers: u64) -> Option<Path> {
        let mut lines = LineSet::empty();
        let mut number = last;
        // no path is longer
        for _ in 0..768 {
            let line = lookups::line(self.network, number)?;
            if breakers_on(&line) != 0 {
                lines.insert(number);
            }
            let station = self.near_station(number, &line)?;
            match self.feeder(station) {
                Some(feeder) => number = feeder,
                None => {
                    return Some(Path {
                        start: station,
                        last,
                        breakers,
                        lines,
                    });
                }
            }
        }
        None
    }
}

// A path from an HV station to a line, with how many breakers it passes, and the lines that they are on.
#[derive(Clone, Copy)]
pub struct Path {
    pub start: usize,
    pub last: usize,
    pub breakers: u64,
    pub lines: LineSet,
}

// The path from an HV station that passes the most breakers.
pub fn worst_path(network: &Network) -> Option<Path> {
    let reaches = Reaches::of(network);
    let (last, breakers) = reaches.farthest()?;
    reaches.path(last, breakers)
}
