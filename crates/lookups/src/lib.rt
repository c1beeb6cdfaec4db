// A network asked by any number, and sets of its stations and lines.
#![tactic(auto)]

use network::{Line, Network, Role, Side, State, Station};

// The station of a number, if there is one. This and `line` are one chain each over another list: nothing plainer stands for both.
pub fn station(network: &Network, number: usize) -> Option<Station> {
    network.stations().get(number.checked_sub(1)?).copied()
}

// The line of a number, if there is one.
pub fn line(network: &Network, number: usize) -> Option<Line> {
    network.lines().get(number.checked_sub(1)?).copied()
}

// Whether there is an HV station of a number.
pub fn is_hv(network: &Network, number: usize) -> bool {
    station(network, number).is_some_and(|station| station.role == Role::Hv)
}

// The station that an end of a line is at, if the end is closed.
pub fn closed_at(line: &Line, side: Side) -> Option<usize> {
    match line.state(side) {
        State::Plain | State::Breaker => Some(line.station(side)),
        State::Open => None,
    }
}

// The stations that a line joins, if both its ends are closed.
pub fn joined_by(line: &Line) -> Option<(usize, usize)> {
    Some((closed_at(line, Side::One)?, closed_at(line, Side::Two)?))
}

// A set of numbers from 1 to `MOST`: fixed memory, without a heap.
#[derive(Clone, Copy)]
pub struct NumberSet<const MOST: usize> {
    has: [bool; MOST],
}

// A set of stations, by their numbers, of which there are at most 512.
pub type StationSet = NumberSet<512>;

// A set of lines, by their numbers, of which there are at most 768.
pub type LineSet = NumberSet<768>;

impl<const MOST: usize> NumberSet<MOST> {
    // The set without numbers.
    pub fn empty() -> Self {
        NumberSet { has: [false; MOST] }
    }

    // Whether a number is in the set.
    pub fn contains(&self, number: usize) -> bool {
        number
            .checked_sub(1)
            .is_some_and(|index| self.has.get(index) == Some(&true))
    }

    // Puts a number into the set.
    pub fn insert(&mut self, number: usize) {
        if let Some(index) = number.checked_sub(1)
            && let Some(is_in) = self.has.get_mut(index)
        {
            *is_in = true;
        }
    }

    // Leaves the numbers only that are to be kept.
    pub fn retain<F: Fn(usize) -> bool>(&mut self, keeps: F)
        requires { F.IsAlwaysCallable keeps }
    {
        for (number, is_in) in (1..).zip(&mut self.has) {
            *is_in = *is_in && keeps(number);
        }
    }

    // For each number that the set can have, in order, whether it is in the set.
    pub fn flags(&self) -> &[bool] {
        &self.has
    }

    // How many numbers are in the set.
    pub fn len(&self) -> usize {
        self.has.iter().filter(|&&is_in| is_in).count()
    }

    // Whether no number is in the set.
    pub fn is_empty(&self) -> bool {
        self.len() == 0
    }
}
