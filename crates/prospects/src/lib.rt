// What a breaker on each later place would do, with the breakers of the set on the way: the breaker upstream of the place, the
// weight that would trip it and the most breakers in series with it. These prospects, the set's outlook, change as the walk enters a
// larger set, and what changed is put back as it leaves the set.
#![tactic(auto)]

ghost use Rattle.std.specs.Prelude.{◌≡◌, [], ◌∷◌, ◌++◌, map, ◌+◌, ◌≤◌, length};

use amounts::{Customers, Total, Weight};
use arrayvec::ArrayVec;
use network::{End, Network};
use outage::Behind;
use relations::{Relation, Relations};
use starts::{Outlook, Prospect};

// What a walk reads of a file: the network, how its places stand to each other, and the customers behind each line.
#[derive(Clone, Copy)]
pub struct Tables<'a> {
    pub net: &'a Network,
    pub relations: &'a Relations,
    pub behind: &'a Behind,
}

// A set of places, from which the prospects of the later places are read: its members, and an outlook, which is still without the
// last of them if that is `pending`.
#[derive(Clone, Copy)]
pub struct Choice<'a> {
    pub tables: Tables<'a>,
    pub outlook: &'a Outlook,
    pub members: &'a [usize],
    pub pending: Option<usize>,
}

impl<'a> Choice<'a> {
    ghost use Rattle.model.specs.Paths.{same_end};
    ghost use Rattle.model.specs.Sets.{set_total};
    ghost use Rattle.savings.specs.Breakers.{end_at};
    ghost use Rattle.outage.specs.Held.{HoldsCustomers};
    ghost use Rattle.sets.specs.Sets.{upstream_at, weight_at, in_series_at};
    ghost use Rattle.starts.specs.Outlook.{prospect_of};
    ghost use Rattle.prospects.specs.Chosen.{LaterIn};

    // Whether the same breaker is upstream of two places, by the outlook.
    fn is_alike(&self, a: usize, b: usize) -> bool
        requires { (a ≤ 64) × (b ≤ 64) }
        ensures { result ≡ same_end (prospect_of self.now.outlook.now a).upstream
            (prospect_of self.now.outlook.now b).upstream }
    {
        self.outlook.of(a).upstream == self.outlook.of(b).upstream
    }

    // The breaker upstream of a place.
    fn upstream(&self, place: usize) -> End
        requires { LaterIn self.now place }
        ensures { result ≡ upstream_at self.now.tables.net.now self.now.members.now
            (end_at self.now.tables.net.now place) }
    {
        let upstream = self.outlook.of(place).upstream;
        let Some(pending) = self.pending else {
            return upstream
        };
        let behind = self.tables.relations.between(pending, place) == Relation::Behind;
        if behind && self.is_alike(place, pending) {
            return self.tables.net.place_end(pending);
        }
        upstream
    }

    // The weight of a place.
    fn weight(&self, place: usize) -> u64
        requires { LaterIn self.now place }
        ensures { result ≡ weight_at self.now.tables.net.now self.now.members.now
            (end_at self.now.tables.net.now place) }
    {
        let weight = self.outlook.of(place).weight;
        let Some(pending) = self.pending else {
            return weight
        };
        let above = self.tables.relations.between(pending, place) == Relation::Above;
        if above && self.is_alike(place, pending) {
            return weight - self.outlook.of(pending).weight;
        }
        weight
    }

    // The most breakers in series with a place.
    pub fn in_series(&self, place: usize) -> u64
        requires { LaterIn self.now place }
        ensures { result ≡ in_series_at self.now.tables.net.now self.now.members.now
            (end_at self.now.tables.net.now place) }
    {
        let in_series = self.outlook.of(place).in_series;
        let Some(pending) = self.pending else {
            return in_series
        };
        match self.tables.relations.between(pending, place) {
            Relation::Apart => in_series,
            Relation::Behind => in_series + 1,
            Relation::Above => in_series.max(self.outlook.of(pending).in_series + 1),
        }
    }

    // How much the total of the set falls with one more place.
    pub fn fall(&self, place: usize) -> Total
        requires { LaterIn self.now place × HoldsCustomers self.now.tables.net.now self.now.tables.behind.now }
        ensures { result.0 + set_total self.now.tables.net.now (self.now.members.now ++ (place ∷ []))
            ≡ set_total self.now.tables.net.now self.now.members.now }
    {
        let behind = self.tables.behind;
        let upstream = self.upstream(place).line;
        let line = self.tables.net.place_line(place);
        let spared = behind.customers(upstream) - behind.customers(line);
        Weight(self.weight(place)) * Customers(spared)
    }
}

// The prospects of the places with a set that a walk is in, and in row `n` of `kept`, 65 long, those that changed when its part
// of `n` members was entered, as they were before.
#[derive(Drop)]
pub struct Prospects {
    pub outlook: Outlook,
    // in one array: as an array of rows it was tried, and the check has no rule for repeating a row of structs
    kept: [Prospect; 1040],
    ghost rows: { length kept ≡ 1040 },
}

impl Prospects {
    ghost use Rattle.prospects.specs.Changes.{AllFit};
    ghost use Rattle.prospects.specs.Chosen.{IsUnfilled, Entering, Entered, Undone};

    // Room for the prospects, and for 16 sets on the way.
    pub fn new() -> Prospects
        ensures { IsUnfilled result }
    {
        Prospects {
            outlook: Outlook::new(),
            kept: [Prospect::NONE; 1040],
        }
    }

    // Makes the outlook of a set without its last member the set's own: only the prospects of the places that the member is related
    // to change.
    pub fn enter(&mut self, tables: &Tables, members: &[usize], last: usize)
        requires { Entering tables.now.net.now tables.now.relations.now members.now (length members.now) last self.old }
        ensures { Entered tables.now.net.now tables.now.relations.now members.now (length members.now) last self.old self.new }
    {
        let row = members.len() * 65;
        for place in tables.relations.later(last) {
            let choice = Choice {
                tables: *tables,
                outlook: &self.outlook,
                members,
                pending: Some(last),
            };
            let prospect = Prospect {
                upstream: choice.upstream(*place),
                weight: choice.weight(*place),
                in_series: choice.in_series(*place),
            };
            self.kept[row + *place] = self.outlook.of(*place);
            self.outlook.set(*place, prospect);
        }
    }

    // Undoes what entering a set of `size` members changed, of which these places are those that its last member is related to.
    pub fn leave(&mut self, places: &[usize], size: usize)
        requires { (size ≤ 15) × AllFit places.now }
        ensures { Undone places.now size self.old self.new }
    {
        let row = size * 65;
        for place in places {
            let before = self.kept[row + *place];
            self.outlook.set(*place, before);
        }
    }
}

impl<'a> Tables<'a> {
    ghost use Rattle.model.specs.Sets.{place_numbers, saving};
    ghost use Rattle.starts.specs.Outlook.{HoldsOutlook};
    ghost use Rattle.prospects.specs.Chosen.{HoldsTables};

    // The saving of each place: how much the file's total falls with its breaker alone.
    pub fn savings(&self, start: &Outlook) -> ArrayVec<u64, 64>
        requires { HoldsTables self.now × HoldsOutlook self.now.net.now [] 1 start.now }
        ensures { result.items ≡ map (λ p. saving self.now.net.now p) (place_numbers self.now.net.now) }
    {
        let none = Choice {
            tables: *self,
            outlook: start,
            members: &[],
            pending: None,
        };
        let mut savings = ArrayVec::new();
        for place in 1..self.net.place_count() + 1 {
            savings.push(u64::from(none.fall(place)));
        }
        savings
    }
}
