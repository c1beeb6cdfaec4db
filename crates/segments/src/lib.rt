// The segment table groups the lines by the breaker that trips for them: an entry a breaker, with the weight of its lines, the
// customers that it cuts off and their outage amount.
#![tactic(auto)]

ghost use Rattle.std.specs.Prelude.{◌≡◌, ◌∷◌, ◌+◌, ◌*◌, ◌^◌, ◌≤◌, ◌<◌, length, drop};
ghost use Rattle.model.specs.Paths.{is_breaker};
ghost use Rattle.model.specs.Segments.{breaker_ends, segment_table};
ghost use Rattle.theory.specs.Best.{Accepted};
ghost use Rattle.network.specs.There.{LineThere};
ghost use Rattle.tree.specs.Linked.{LineHeld, end_code};
ghost use Rattle.paths.specs.Held.{trip_in, HoldsTrips};
ghost use Rattle.outage.specs.Held.{HoldsCustomers};
ghost use Rattle.text.specs.Over.{over, Written};
ghost use Rattle.segments.specs.Entries.{weight_in, HoldsWeights, Summed, entry_of, entries_of};

use amounts::{Customers, Weight};
use network::{End, Network, Side};
use outage::Behind;
use paths::Paths;

// The code of the breaker that trips for a line.
fn trip_code(paths: &Paths, line: usize) -> usize
    requires { LineHeld line × LineHeld (trip_in paths.now line).line }
    ensures value { result ≡ end_code (trip_in paths.now line) }
    ensures few { result ≤ 1536 }
{
    let trip = paths.trip(line);
    tree::code(trip)
}

// The weights of the lines that each breaker trips for, by the code of its end, at most 1,536: fixed memory, without a heap.
#[derive(Drop)]
struct Weights {
    by_code: [u64; 1537],
}

impl Weights {
    // The weights of a network's lines.
    fn of(net: &Network, paths: &Paths) -> Weights
        requires { Accepted net.now × HoldsTrips net.now paths.now }
        ensures { HoldsWeights net.now result }
    {
        let mut weights = Weights { by_code: [0; 1537] };
        for line in 1..net.line_count() + 1 {
            let code = trip_code(paths, line);
            weights.by_code[code] += net.weight(line);
        }
        weights
    }

    // The weights of the lines that a breaker trips for.
    fn at(&self, end: End) -> Weight
        requires { LineHeld end.line }
        ensures { result.0 ≡ weight_in self.now end }
    {
        Weight(self.by_code[tree::code(end)])
    }
}

// Whether an end has an entry: every breaker has one, whatever it trips for. It is a word of this crate's own, apart from the states.
fn has_entry(net: &Network, end: End) -> bool
    requires { LineThere net.now end.line }
    ensures { result ≡ is_breaker net.now end }
{
    net.is_breaker(end)
}

// An entry at the start of a table. C reads the end's side from it as a number.
fn put_entry(table: &mut [u64], end: End, weight: Weight, customers: Customers)
    requires { (5 ≤ length table.old) × (weight.0 * customers.0 < 2 ^ 64) }
    ensures { table.new
        ≡ end.line ∷ end.side ∷ weight.0 ∷ customers.0 ∷ weight.0 * customers.0 ∷ drop 5 table.old }
{
    table[0] = end.line as u64;
    table[1] = end.side.number() as u64;
    table[2] = weight.0;
    table[3] = customers.0;
    table[4] = (weight * customers).into();
}

// What the entries are made of: a network, the customers behind each line and the weights of each breaker.
#[derive(Clone, Copy)]
struct Entries<'a> {
    net: &'a Network,
    behind: &'a Behind,
    weights: &'a Weights,
    ghost summed: { ∥ Summed net.now behind.now weights.now ∥₁ },
}

impl Entries<'_> {
    // The entry of an end, if it has one, at the start of a table; answers how many numbers it has.
    fn put_end(&self, end: End, table: &mut [u64]) -> usize
        requires there { LineThere self.now.net.now end.line }
        requires room { 5 ≤ length table.old }
        ensures written { Written (entry_of self.now.net.now end) table.old table.new result }
        ensures short { result ≤ 5 }
    {
        if has_entry(self.net, end) {
            let weight = self.weights.at(end);
            let customers = Customers(self.behind.customers(end.line));
            put_entry(table, end, weight, customers);
            return 5;
        }
        0
    }

    // The entries of a line's ends; answers how many numbers they have.
    fn put_ends(&self, line: usize, table: &mut [u64]) -> usize
        requires there { LineThere self.now.net.now line }
        requires room { 10 ≤ length table.old }
        ensures written { Written (entries_of self.now.net.now line) table.old table.new result }
        ensures short { result ≤ 10 }
    {
        let first = End {
            line,
            side: Side::One,
        };
        let second = End {
            line,
            side: Side::Two,
        };
        let at = self.put_end(first, table);
        at + self.put_end(second, &mut table[at..])
    }

    // The entries of all lines, one behind another; answers how many there are.
    fn put_lines(&self, table: &mut [u64]) -> usize
        requires { 7680 ≤ length table.old }
        ensures count { result ≡ length (breaker_ends self.now.net.now) }
        ensures written { table.new ≡ over (segment_table self.now.net.now) table.old }
    {
        let mut at: usize = 0;
        for line in 1..self.net.line_count() + 1 {
            at += self.put_ends(line, &mut table[at..]);
        }
        at / 5
    }
}

// Writes the segment table of an accepted network at the start of a buffer, from the breaker that trips for each line and the
// customers behind each line; answers how many entries it has.
pub fn write_table(net: &Network, paths: &Paths, behind: &Behind, table: &mut [u64]) -> usize
    requires ready { Accepted net.now × HoldsTrips net.now paths.now × HoldsCustomers net.now behind.now }
    requires room { 7680 ≤ length table.old }
    ensures count { result ≡ length (breaker_ends net.now) }
    ensures written { table.new ≡ over (segment_table net.now) table.old }
{
    let weights = Weights::of(net, paths);
    let entries = Entries {
        net,
        behind,
        weights: &weights,
    };
    entries.put_lines(table)
}
