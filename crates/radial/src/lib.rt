// The radial rules 6 to 8, by labels: stations have one label where a path joins them.
#![tactic(auto)]

ghost use Rattle.std.specs.Prelude.{◌≡◌, not, ◌&&◌, ℕ, ◌+◌, ◌≤◌, ◌<◌, length, get_or, is_none, IfSome};
ghost use Rattle.model.specs.Lists.{first_or};
ghost use Rattle.model.specs.Paths.{end1, end2, is_open, station_numbers, line_numbers};
ghost use Rattle.model.specs.Rules.{both_open, some_path_returns, some_joined, is_supplied};
ghost use Rattle.graphs.specs.Labels.{relabel};
ghost use Rattle.theory.specs.Reading.{Read};
ghost use Rattle.theory.specs.Labels.{label_of, Labelled};
ghost use Rattle.network.specs.Found.{found};
ghost use Rattle.network.specs.There.{StationThere, LineThere};
ghost use Rattle.radial.specs.Stations.{Marked, HoldsParts};

use network::{End, Network, Side};

// Whether both ends of a line are closed.
fn both_closed(net: &Network, line: usize) -> bool
    requires { LineThere net.now line }
    ensures { result ≡ (not (is_open net.now (end1 line))
        && not (is_open net.now (end2 line))) }
{
    let one = End {
        line,
        side: Side::One,
    };
    let two = one.other();
    !net.is_open(one) && !net.is_open(two)
}

// The labels before a line is passed: each station's is its number.
fn numbered() -> [u64; 512]
    ensures { (k : ℕ) → k < 512 → get_or result k 0 ≡ k + 1 }
{
    let mut labels = [0; 512];
    for (i, label) in labels.iter_mut().enumerate() {
        *label = i as u64 + 1;
    }
    labels
}

// Every label x becomes y.
fn rename(labels: &mut [u64; 512], x: u64, y: u64)
    ensures { (k : ℕ) → k < 512 → get_or labels.new k 0 ≡ relabel x y (get_or labels.old k 0) }
{
    for label in labels.iter_mut() {
        if *label == x {
            *label = y;
        }
    }
}

// The parts of a network: each station's label, which two stations share where a path joins them. There are at most 512 stations: fixed
// memory, without a heap.
#[derive(Drop)]
pub struct Parts<'a> {
    net: &'a Network,
    labels: [u64; 512],
    ghost holds: { ∥ HoldsParts net.now labels ∥₁ },
}

impl<'a> Parts<'a> {
    // Rule 6: the parts of a network. None where a path returns to its start.
    pub fn of(net: &'a Network) -> Option<Parts<'a>>
        requires read { Read net.now }
        requires open { first_or 0 (both_open net.now) (line_numbers net.now) ≡ 0 }
        ensures returns { is_none result ≡ some_path_returns net.now }
        ensures network { IfSome result (λ p. p.net.now ≡ net.now) }
        ensures labelled { IfSome result (λ p. Labelled p.net.now (length p.net.now.lines) p.labels) }
    {
        let mut labels = numbered();
        for line in 1..net.line_count() + 1 {
            if both_closed(net, line) {
                let one = End {
                    line,
                    side: Side::One,
                };
                let two = one.other();
                let x = labels[end_rules::station_of(net, one) - 1];
                let y = labels[end_rules::station_of(net, two) - 1];
                let joined = x == y;
                if joined {
                    return None;
                }
                rename(&mut labels, x, y);
            }
        }
        Some(Parts { net, labels })
    }
}

impl Parts<'_> {
    // The label of a station: two stations have one where a path joins them.
    pub fn label(&self, station: usize) -> usize
        requires { StationThere self.now.net.now station }
        ensures { (result ≡ label_of self.now.labels station) × (result ≤ 512) }
    {
        self.labels[station - 1] as usize
    }

    // Rule 7: whether a path joins two HV stations, that is, whether two have one label.
    pub fn hv_joined(&self) -> bool
        ensures { result ≡ some_joined self.now.net.now }
    {
        let mut marks = [false; 513];
        for station in 1..self.net.station_count() + 1 {
            if self.net.is_hv(station) {
                let x = self.label(station);
                if marks[x] {
                    return true;
                }
                marks[x] = true;
            }
        }
        false
    }

    // Which labels HV stations have. The marks are lent to `is_supplied` only: a type for them would be no plainer.
    fn hv_labels(&self) -> [bool; 513]
        ensures { Marked self.now.net.now self.now.labels (length self.now.net.now.stations + 1) result }
    {
        let mut marks = [false; 513];
        for station in 1..self.net.station_count() + 1 {
            if self.net.is_hv(station) {
                marks[self.label(station)] = true;
            }
        }
        marks
    }

    // Whether a station has supply, where the labels that HV stations have are marked.
    fn is_supplied(&self, marks: &[bool; 513], station: usize) -> bool
        requires marked { Marked self.now.net.now self.now.labels (length self.now.net.now.stations + 1) marks.now }
        requires there { StationThere self.now.net.now station }
        ensures { result ≡ is_supplied self.now.net.now station }
    {
        marks[self.label(station)]
    }

    // Rule 8: the lowest station without supply.
    pub fn unsupplied(&self) -> Option<usize>
        ensures { result ≡ found (first_or 0 (λ s. not (is_supplied self.now.net.now s)) (station_numbers self.now.net.now)) }
    {
        let marks = self.hv_labels();
        (1..self.net.station_count() + 1).find(|station| !self.is_supplied(&marks, *station))
    }
}
