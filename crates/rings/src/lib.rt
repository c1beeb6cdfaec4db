// The lines that form a ring, and those that join two HV stations.
#![tactic(auto)]

use lookups::{LineSet, is_hv, joined_by};
use network::Network;

// How many ends of some lines are at each station, of which there are at most 512: fixed memory, without a heap.
#[derive(Clone, Copy)]
struct Ends {
    counts: [usize; 512],
}

impl Ends {
    // The ends of the lines of a set, both of them closed.
    fn of(network: &Network, lines: &LineSet) -> Ends {
        let mut ends = Ends { counts: [0; 512] };
        for (number, line) in (1..).zip(network.lines()) {
            if lines.contains(number) {
                ends.count(line.from);
                ends.count(line.to);
            }
        }
        ends
    }

    // Counts an end at a station.
    fn count(&mut self, station: usize) {
        if let Some(index) = station.checked_sub(1)
            && let Some(count) = self.counts.get_mut(index)
        {
            *count = count.saturating_add(1);
        }
    }

    // Counts an end at a station no more.
    fn take(&mut self, station: usize) {
        if let Some(index) = station.checked_sub(1)
            && let Some(count) = self.counts.get_mut(index)
        {
            *count = count.saturating_sub(1);
        }
    }

    // Whether only one end is at a station.
    fn is_tip(&self, station: usize) -> bool {
        station
            .checked_sub(1)
            .is_some_and(|index| self.counts.get(index) == Some(&1))
    }
}

// The lines up to a last one that have both ends closed.
fn joining_lines(network: &Network, last: usize) -> LineSet {
    let mut lines = LineSet::empty();
    for (number, line) in (1..).zip(network.lines()).take(last) {
        if joined_by(line).is_some() {
            lines.insert(number);
        }
    }
    lines
}

// The lines up to a last one that have both ends closed, without those that lead, again and again, to a tip: a station, none of those
// that are kept, where only one of their ends is.
fn without_tips<F: Fn(usize) -> bool>(network: &Network, last: usize, is_kept: F) -> LineSet
    requires { F.IsAlwaysCallable is_kept }
{
    let mut lines = joining_lines(network, last);
    let mut ends = Ends::of(network, &lines);
    let mut taken = LineSet::empty();
    // Each round but the last takes a line away. Its ends are counted no more at once, so that a branch whose lines are numbered from its
    // tip is gone after one round.
    for _ in 0..768 {
        let mut found = false;
        for (number, line) in (1..).zip(network.lines()) {
            let is_left = lines.contains(number) && !taken.contains(number);
            let is_tip = |station| ends.is_tip(station) && !is_kept(station);
            if is_left && (is_tip(line.from) || is_tip(line.to)) {
                taken.insert(number);
                ends.take(line.from);
                ends.take(line.to);
                found = true;
            }
        }
        if !found {
            break;
        }
    }
    lines.retain(|number| !taken.contains(number));
    lines
}

// The lines of the ring that a line closes with those before it.
pub fn ring_of(network: &Network, last: usize) -> LineSet {
    without_tips(network, last, |_| false)
}

// The lines of the path between HV stations that a line closes with those before it.
pub fn path_of(network: &Network, last: usize) -> LineSet {
    without_tips(network, last, |station| is_hv(network, station))
}
