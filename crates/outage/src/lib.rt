// The customers behind each line, the impact of a fault on it, the total of the outage amounts and the SAIDI figure.
#![tactic(auto)]

ghost use Rattle.std.specs.Prelude.{ℕ, ◌≡◌, ◌≢◌, ◌+◌, ◌*◌, ◌-◌, ◌^◌, ◌≤◌, ◌<◌};
ghost use Rattle.model.specs.Paths.{is_open};
ghost use Rattle.model.specs.Outage.{impact, outage_amount, total as total_of, figure};
ghost use Rattle.theory.specs.Reading.{Read};
ghost use Rattle.theory.specs.Radial.{Rules};
ghost use Rattle.theory.specs.Sizes.{Sized};
ghost use Rattle.theory.specs.Behind.{station_sum, line_sum};
ghost use Rattle.network.specs.There.{LineThere};
ghost use Rattle.tree.specs.Linked.{LineHeld};
ghost use Rattle.tree.specs.Outwards.{near_end};
ghost use Rattle.tree.specs.Held.{HoldsEnds};
ghost use Rattle.paths.specs.Held.{trip_in, HoldsTrips};
ghost use Rattle.outage.specs.Held.{customers_in, HoldsCustomers, impact_in, HoldsImpacts};
ghost use Rattle.outage.specs.Below.{Ready, came_end, Leaves, AtLine, AtStation, Filled};

use amounts::{Customers, Total, Weight};
use network::{End, Network};
use paths::Paths;
use tree::Tree;

// Whether a line hangs: its far end is open, and it feeds no station. It is a word of this crate's own, so that the sum's proof does
// not speak of states.
fn hangs(net: &Network, far: End) -> bool
    requires { LineThere net.now far.line }
    ensures { result ≡ is_open net.now far }
{
    net.is_open(far)
}

// The customers of a station and behind some lines that leave it, with those behind one more line.
fn with_those_behind(sum: u64, behind: u64) -> u64
    requires { sum + behind < 2 ^ 64 }
    ensures { result ≡ sum + behind }
{
    sum + behind
}

// The customers behind each line. That they are the network's (`HoldsCustomers`, and `HoldsImpacts` of `Impacts`) stands in the
// clauses: the numbers are filled in where they lie, and before that they are of no network. `Impacts` has an array like this one but
// stays a type of its own: to take the impact of a fault for the customers behind the line is an error that the types refuse, and a
// generic type for both would share no more than the array and its reading.
#[derive(Drop)]
pub struct Behind {
    // for each of at most 768 lines: fixed memory, without a heap
    customers: [u64; 768],
}

impl Behind {
    // Room for the customers behind 768 lines.
    pub fn new() -> Behind
        ensures { (l : ℕ) → customers_in result l ≡ 0 }
    {
        Behind {
            customers: [0; 768],
        }
    }

    // The customers behind a line.
    pub fn customers(&self, line: usize) -> u64
        requires { LineHeld line }
        ensures { result ≡ customers_in self.now line }
    {
        self.customers[line - 1]
    }

    // The customers behind a station that we come to by a line, none at an HV station: its own, and those behind each line that
    // leaves it. The customers behind these lines, and behind the lines beyond them, are noted.
    #[cycle(line_sum_station_sum)]
    fn station_sum(
        &mut self,
        net: &Network,
        tree: &Tree,
        came: Option<usize>,
        station: usize,
        levels: usize,
    ) -> u64
        requires { Ready net.now tree.now × AtStation net.now came station levels }
        ensures { (result ≡ station_sum net.now levels (came_end net.now came) station)
            × Filled net.now (Leaves net.now came station) self.old self.new }
    {
        let mut sum = net.customers(station);
        for end in tree.closed_ends(station) {
            if !tree::is_of(end, came) {
                let behind = self.line_sum(net, tree, end, levels - 1);
                sum = with_those_behind(sum, behind);
            }
        }
        sum
    }

    // The customers behind a line that we come to by its near end: those behind its far station, or none if its far end is open.
    // They are noted, with those of the lines beyond.
    #[cycle(line_sum_station_sum)]
    fn line_sum(&mut self, net: &Network, tree: &Tree, near: End, levels: usize) -> u64
        requires { Ready net.now tree.now × AtLine net.now near.line levels × (near ≡ near_end net.now near.line) }
        ensures { (result ≡ line_sum net.now levels near)
            × Filled net.now (λ d. d ≡ near) self.old self.new }
    {
        let far = near.other();
        let sum = if hangs(net, far) {
            0
        } else {
            self.station_sum(net, tree, Some(near.line), net.end_station(far), levels - 1)
        };
        self.customers[near.line - 1] = sum;
        sum
    }

    // Sums the customers behind each line of a network, from the HV stations outwards, by the tree's lists of closed ends.
    pub fn sum(&mut self, net: &Network, tree: &Tree)
        requires { Read net.now × Rules net.now × HoldsEnds net.now tree.now }
        ensures { HoldsCustomers net.now self.new }
    {
        let levels = 2 * net.line_count() + 1;
        for station in 1..net.station_count() + 1 {
            if net.is_hv(station) {
                self.station_sum(net, tree, None, station, levels);
            }
        }
    }
}

// The line of the breaker that trips for a line.
fn trip_line(paths: &Paths, line: usize) -> usize
    requires { LineHeld line }
    ensures { result ≡ (trip_in paths.now line).line }
{
    paths.trip(line).line
}

// The impact of a fault on each line: the customers behind the line of the breaker that trips for it.
#[derive(Drop)]
pub struct Impacts {
    // fixed memory, as that of `Behind`
    impacts: [u64; 768],
}

impl Impacts {
    // Room for the impacts of 768 lines.
    pub fn new() -> Impacts
        ensures { (l : ℕ) → impact_in result l ≡ 0 }
    {
        Impacts { impacts: [0; 768] }
    }

    // Sets the impact of a fault on a line, and no other's.
    pub fn set(&mut self, line: usize, impact: u64)
        requires { LineHeld line }
        ensures line { impact_in self.new line ≡ impact }
        ensures others { (l : ℕ) → 1 ≤ l → l ≢ line → impact_in self.new l ≡ impact_in self.old l }
    {
        self.impacts[line - 1] = impact;
    }

    // Fills in the impacts of a network's lines.
    pub fn fill(&mut self, net: &Network, paths: &Paths, behind: &Behind)
        requires { Read net.now × Rules net.now × HoldsTrips net.now paths.now
            × HoldsCustomers net.now behind.now }
        ensures { HoldsImpacts net.now self.new }
    {
        for line in 1..net.line_count() + 1 {
            self.set(line, behind.customers(trip_line(paths, line)));
        }
    }

    // The impact of a fault on a line.
    pub fn impact(&self, line: usize) -> u64
        requires { LineHeld line }
        ensures { result ≡ impact_in self.now line }
    {
        self.impacts[line - 1]
    }
}

// The outage amount of a line: its weight times the impact of a fault on it.
pub fn outage_amount(net: &Network, impacts: &Impacts, line: usize) -> Total
    requires { LineThere net.now line × Sized net.now
        × (impact_in impacts.now line ≡ impact net.now line) }
    ensures { result.0 ≡ outage_amount net.now line }
{
    Weight(net.weight(line)) * Customers(impacts.impact(line))
}

// The total: the sum of the outage amounts of all lines.
pub fn total_of(net: &Network, impacts: &Impacts) -> Total
    requires { Read net.now × HoldsImpacts net.now impacts.now }
    ensures { result.0 ≡ total_of net.now }
{
    let lines = net.line_count();
    let mut total = Total::ZERO;
    for line in 1..lines + 1 {
        total += outage_amount(net, impacts, line);
    }
    total
}

// Customers without supply multiplied by minutes.
pub fn customer_minutes(minutes: u64, total: u64) -> u64
    requires { (minutes ≤ 1440) × (total ≤ 7864320000000000) }
    ensures { result ≡ minutes * total }
{
    minutes * total
}

// The SAIDI figure of a network's total: minutes times the total.
pub fn figure_of(net: &Network, total: u64) -> u64
    requires { Read net.now × (total ≡ total_of net.now) }
    ensures { result ≡ figure net.now }
{
    customer_minutes(net.head().minutes, total)
}
