// What a search by places starts from: for each place the breaker upstream of it, its weight and the most breakers in series with
// it.
#![tactic(auto)]

ghost use Rattle.std.specs.Prelude.{◌≡◌, ◌≢◌, ◌≤◌, ◌<◌, ◌+◌, ◌^◌, ℕ, [], length, replicate, set, IfSome};
ghost use Rattle.model.specs.Paths.{same_end};
ghost use Rattle.savings.specs.Breakers.{end_at};
ghost use Rattle.theory.specs.Best.{Accepted};
ghost use Rattle.network.specs.There.{LineThere, PlaceThere};
ghost use Rattle.network.specs.Found.{found};
ghost use Rattle.tree.specs.Linked.{LineHeld};
ghost use Rattle.paths.specs.Held.{trip_in, HoldsPaths};
ghost use Rattle.relations.specs.Related.{HoldsRelations};
ghost use Rattle.sets.specs.Sets.{upstream_at, weight_at, in_series_at};
ghost use Rattle.starts.specs.Own.{stop_of, far_place, is_behind, behind_in, counts_for};

use network::{End, Network, Side};
use paths::Paths;
use relations::{Relation, Relations, Routes};

// What a breaker on a place would do: the breaker upstream of it, which is an end of line 0 where there is none, the
// weight of the lines that would trip it, and the most breakers in series with it.
#[derive(Clone, Copy, Debug, Default, PartialEq, Eq)]
pub struct Prospect {
    pub upstream: End,
    pub weight: u64,
    pub in_series: u64,
}

impl Prospect {
    // What there is of no place.
    pub const NONE: Prospect = Prospect {
        upstream: End {
            line: 0,
            side: Side::One,
        },
        weight: 0,
        in_series: 0,
    };
}

// The prospect of each place. Places have the file's numbers, from 1. That they are those of a set of a network's places
// (`HoldsOutlook`) stands in the clauses: a walk changes them place by place, and in between they are of no set.
#[derive(Drop)]
pub struct Outlook {
    prospects: [Prospect; 65],
    ghost long: { length prospects ≡ 65 },
}

impl Outlook {
    ghost use Rattle.starts.specs.Outlook.{no_prospect, prospect_of};

    // Room for the prospects of 64 places.
    pub fn new() -> Outlook
        ensures { (p : ℕ) → prospect_of result p ≡ no_prospect }
    {
        Outlook {
            prospects: [Prospect::NONE; 65],
        }
    }

    // The prospect of a place.
    pub fn of(&self, place: usize) -> Prospect
        requires { place ≤ 64 }
        ensures { result ≡ prospect_of self.now place }
    {
        self.prospects[place]
    }

    // Sets the prospect of a place, and no other's.
    pub fn set(&mut self, place: usize, prospect: Prospect)
        requires { place ≤ 64 }
        ensures place { prospect_of self.new place ≡ prospect }
        ensures others { (p : ℕ) → p ≤ 64 → p ≢ place → prospect_of self.new p ≡ prospect_of self.old p }
    {
        self.prospects[place] = prospect;
    }
}

// Whether the same breaker trips for two lines.
fn trip_together(paths: &Paths, a: usize, b: usize) -> bool
    requires { LineHeld a × LineHeld b }
    ensures { result ≡ same_end (trip_in paths.now a) (trip_in paths.now b) }
{
    paths.trip(a) == paths.trip(b)
}

// The place where a line's path first meets a breaker or a place, if that is no breaker: the first place on the path, if the breaker
// upstream of it is the one that trips for the line.
fn stop_of(routes: &Routes, paths: &Paths, line: usize) -> Option<usize>
    requires { HoldsPaths routes.now.net.now paths.now × LineThere routes.now.net.now line }
    ensures { result ≡ found (stop_of routes.now.net.now line) }
{
    let place = routes.firsts.first(line)?;
    if trip_together(paths, line, routes.net.place_line(place)) {
        Some(place)
    } else {
        None
    }
}

// The first place on the path of the station that a line feeds: that on its far end, or else the first on the line's. There is none
// if the far end is open.
fn far_place(routes: &Routes, line: usize) -> Option<usize>
    requires { LineThere routes.now.net.now line }
    ensures { result ≡ found (far_place routes.now.net.now line) }
{
    if routes.net.is_open(routes.tree.far(line)) {
        return None;
    }
    routes.firsts.first_beyond(routes.tree, routes.places, line)
}

// Whether a place lies behind the one that it stands to.
fn is_behind(relation: Relation) -> bool
    ensures { result ≡ is_behind relation }
{
    relation == Relation::Behind
}

// Whether place `s` is place `p` or lies behind it.
fn behind(relations: &Relations, p: usize, s: usize) -> bool
    requires { (p ≤ 64) × (s ≤ 64) }
    ensures { result ≡ behind_in relations.now p s }
{
    s == p || is_behind(relations.between(p, s))
}

// Whether place `s` is place `p` or lies behind it, with the same breaker upstream of both.
#[tactic(auto, using(crate::proofs::UnderPlaces::line_held))]
fn under(net: &Network, paths: &Paths, relations: &Relations, p: usize, s: usize) -> bool
    requires places { Accepted net.now × PlaceThere net.now p × PlaceThere net.now s }
    requires held { HoldsPaths net.now paths.now × HoldsRelations net.now relations.now }
    ensures { result ≡ counts_for net.now p s }
{
    behind(relations, p, s) && trip_together(paths, net.place_line(s), net.place_line(p))
}

// The breaker upstream of a place before any is chosen: the one that trips for its line.
fn start_upstream(net: &Network, paths: &Paths, place: usize) -> End
    requires { Accepted net.now × HoldsPaths net.now paths.now × PlaceThere net.now place }
    ensures { result ≡ upstream_at net.now [] (end_at net.now place) }
{
    paths.trip(net.place_line(place))
}

// What is each place's own, a number for each: of the lines whose path meets the place first. Weights and breakers in series are both
// gathered in it, each for a sum of its own.
#[derive(Drop)]
struct Own {
    // for each of at most 64 places, from 1: fixed memory, without a heap
    numbers: [u64; 65],
    ghost long: { length numbers ≡ 65 },
}

impl Own {
    ghost use Rattle.starts.specs.Held.{own_in, raised, HoldsOwn, HoldsOwnInSeries};

    // 0 for each place.
    fn new() -> Own
        ensures { result.numbers ≡ replicate 65 0 }
    {
        Own { numbers: [0; 65] }
    }

    // The number of a place.
    fn of(&self, place: usize) -> u64
        requires { place ≤ 64 }
        ensures { result ≡ own_in self.now place }
    {
        self.numbers[place]
    }

    // Adds to the number of a place.
    fn add(&mut self, place: usize, weight: u64)
        requires { (place ≤ 64) × (own_in self.old place + weight < 2 ^ 64) }
        ensures { self.new.numbers ≡ set self.old.numbers place (own_in self.old place + weight) }
    {
        self.numbers[place] += weight;
    }

    // Raises the number of a place, if there is one, to at least so many.
    fn raise(&mut self, place: Option<usize>, least: u64)
        requires { IfSome place (λ p. p ≤ 64) }
        ensures { self.new.numbers ≡ raised self.old.numbers place least }
    {
        if let Some(place) = place {
            self.numbers[place] = self.numbers[place].max(least);
        }
    }

    // The weight of the lines whose path meets each place first, of the breakers and places.
    fn weights(routes: &Routes, paths: &Paths) -> Own
        requires { HoldsPaths routes.now.net.now paths.now }
        ensures { HoldsOwn routes.now.net.now result }
    {
        let mut own = Own::new();
        for line in 1..routes.net.line_count() + 1 {
            if let Some(place) = stop_of(routes, paths, line) {
                own.add(place, routes.net.weight(line));
            }
        }
        own
    }

    // The most breakers on a path of a line or a station that meets each place first, of the places.
    fn in_series(routes: &Routes, paths: &Paths) -> Own
        requires { HoldsPaths routes.now.net.now paths.now }
        ensures { HoldsOwnInSeries routes.now.net.now result }
    {
        let mut own = Own::new();
        for line in 1..routes.net.line_count() + 1 {
            own.raise(routes.firsts.first(line), paths.count(line));
            let beyond = far_place(routes, line);
            let count = series::count_beyond(routes.net, routes.tree, paths, line);
            own.raise(beyond, count);
        }
        own
    }

    // The weight of a place before any is chosen: what is its own, and what is that of the places under it.
    fn start_weight(&self, net: &Network, paths: &Paths, relations: &Relations, place: usize) -> u64
        requires places { Accepted net.now × HoldsPaths net.now paths.now × PlaceThere net.now place }
        requires own { HoldsRelations net.now relations.now × HoldsOwn net.now self.now }
        ensures { result ≡ weight_at net.now [] (end_at net.now place) }
    {
        let mut weight: u64 = 0;
        for s in 1..net.place_count() + 1 {
            if under(net, paths, relations, place, s) {
                weight += self.of(s);
            }
        }
        weight
    }

    // The most breakers in series with a place before any is chosen: the most of what is its own, or of a place behind it.
    fn start_in_series(&self, net: &Network, relations: &Relations, place: usize) -> u64
        requires { Accepted net.now × HoldsRelations net.now relations.now
            × HoldsOwnInSeries net.now self.now × PlaceThere net.now place }
        ensures { result ≡ in_series_at net.now [] (end_at net.now place) }
    {
        let mut in_series: u64 = 0;
        for s in 1..net.place_count() + 1 {
            if behind(relations, place, s) {
                in_series = in_series.max(self.of(s));
            }
        }
        in_series
    }
}

impl Outlook {
    ghost use Rattle.starts.specs.Outlook.{HoldsOutlook};

    // Sets the prospects of the empty set: of each place the breaker upstream of it, its weight and the most breakers in series with
    // it.
    pub fn start(&mut self, routes: &Routes, paths: &Paths, relations: &Relations)
        requires { HoldsPaths routes.now.net.now paths.now
            × HoldsRelations routes.now.net.now relations.now }
        ensures { HoldsOutlook routes.now.net.now [] 1 self.new }
    {
        let net = routes.net;
        let own = Own::weights(routes, paths);
        let in_series = Own::in_series(routes, paths);
        for place in 1..net.place_count() + 1 {
            let prospect = Prospect {
                upstream: start_upstream(net, paths, place),
                weight: own.start_weight(net, paths, relations, place),
                in_series: in_series.start_in_series(net, relations, place),
            };
            self.set(place, prospect);
        }
    }
}
