// The parts of a network that closed lines join, by labels: the stations of a part have one label, the number of one of them, which is
// an HV station if the part has one.
#![tactic(auto)]

use lookups::{is_hv, joined_by};
use network::{Line, Network, Role};

// Whether there is an HV station.
pub fn has_hv(network: &Network) -> bool {
    network
        .stations()
        .iter()
        .any(|station| station.role == Role::Hv)
}

// The label of each station, of which there are at most 512: fixed memory, without a heap.
#[derive(Clone, Copy)]
pub struct Parts {
    labels: [usize; 512],
}

impl Parts {
    // Each station is a part by itself.
    fn apart() -> Parts {
        let mut labels = [0; 512];
        for (number, label) in (1..).zip(&mut labels) {
            *label = number;
        }
        Parts { labels }
    }

    // The parts that the closed lines of a network join.
    pub fn of(network: &Network) -> Parts {
        let mut parts = Parts::apart();
        for line in network.lines() {
            if let Some((one, other)) = parts.labels_at(line) {
                parts.unite(network, one, other);
            }
        }
        parts
    }

    // The label of a station that a network can have.
    pub fn label(&self, station: usize) -> Option<usize> {
        self.labels.get(station.checked_sub(1)?).copied()
    }

    // The labels of the parts at the ends of a line, if both ends are closed.
    fn labels_at(&self, line: &Line) -> Option<(usize, usize)> {
        let (one, other) = joined_by(line)?;
        Some((self.label(one)?, self.label(other)?))
    }

    // Gives the part of a label another one.
    fn rename(&mut self, old: usize, new: usize) {
        for label in &mut self.labels {
            if *label == old {
                *label = new;
            }
        }
    }

    // Makes two parts one, with the label of that which has an HV station if there is one.
    fn unite(&mut self, network: &Network, one: usize, other: usize) {
        if is_hv(network, one) {
            self.rename(other, one);
        } else {
            self.rename(one, other);
        }
    }
}

// A line that joins two parts, with their labels.
#[derive(Clone, Copy, Debug, PartialEq, Eq)]
pub struct Join {
    pub line: usize,
    pub one: usize,
    pub other: usize,
}

// The first line that breaks a rule where it joins two parts that the lines before it make, by their labels.
fn first_breaking<F: Fn(usize, usize) -> bool>(network: &Network, breaks: F) -> Option<Join>
    requires { F.IsAlwaysCallable breaks }
{
    let mut parts = Parts::apart();
    for (number, line) in (1..).zip(network.lines()) {
        if let Some((one, other)) = parts.labels_at(line) {
            if breaks(one, other) {
                return Some(Join {
                    line: number,
                    one,
                    other,
                });
            }
            parts.unite(network, one, other);
        }
    }
    None
}

// The first line that closes a ring with the lines before it.
pub fn first_closing_ring(network: &Network) -> Option<usize> {
    let join = first_breaking(network, |one, other| one == other)?;
    Some(join.line)
}

// The first line that joins two HV stations with the lines before it; the labels are these stations.
pub fn first_joining_hv(network: &Network) -> Option<Join> {
    first_breaking(network, |one, other| {
        one != other && is_hv(network, one) && is_hv(network, other)
    })
}
