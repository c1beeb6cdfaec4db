// The part of a station that has no supply: the stations that closed lines join with it, and the lines that lead on from there.
#![tactic(auto)]

use lookups::{LineSet, StationSet, is_hv};
use network::{Line, Network};
use network_parts::Parts;

// Whether a line ends at a station.
pub fn has_line(network: &Network, station: usize) -> bool {
    network
        .lines()
        .iter()
        .any(|line| line.from == station || line.to == station)
}

// A part of a network without an HV station, by its label.
#[derive(Clone, Copy)]
pub struct Island<'a> {
    network: &'a Network,
    parts: Parts,
    label: usize,
}

impl<'a> Island<'a> {
    // The part of a station, if that has no HV station.
    pub fn find(network: &'a Network, station: usize) -> Option<Self> {
        let parts = Parts::of(network);
        let label = parts.label(station)?;
        if is_hv(network, label) {
            return None;
        }
        Some(Island {
            network,
            parts,
            label,
        })
    }

    // The stations of the part, without one of them.
    pub fn others(&self, station: usize) -> StationSet {
        let mut others = StationSet::empty();
        for (number, _) in (1..).zip(self.network.stations()) {
            if number != station && self.parts.label(number) == Some(self.label) {
                others.insert(number);
            }
        }
        others
    }

    // The label of the part that a line leads to from this one.
    fn beyond(&self, line: &Line) -> Option<usize> {
        match (self.parts.label(line.from)?, self.parts.label(line.to)?) {
            (from, to) if from == to => None,
            (from, to) if from == self.label => Some(to),
            (from, to) if to == self.label => Some(from),
            _ => None,
        }
    }

    // The lines that lead to a part that is sought. One end of each is open.
    fn ways_to<F: Fn(usize) -> bool>(&self, is_sought: F) -> LineSet
        requires { F.IsAlwaysCallable is_sought }
    {
        let mut ways = LineSet::empty();
        for (number, line) in (1..).zip(self.network.lines()) {
            if let Some(part) = self.beyond(line)
                && is_sought(part)
            {
                ways.insert(number);
            }
        }
        ways
    }

    // The lines that lead to a part with an HV station.
    pub fn ways_to_supply(&self) -> LineSet {
        self.ways_to(|part| is_hv(self.network, part))
    }

    // The lines that lead to another part.
    pub fn ways_out(&self) -> LineSet {
        self.ways_to(|_| true)
    }
}
