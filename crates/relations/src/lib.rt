// How the places stand to each other, and lists of the later places that each place is related to.
#![tactic(auto)]

ghost use Rattle.std.specs.Prelude.{ℕ, ◌≡◌, ◌+◌, ◌*◌, ◌≤◌, not, length, set};
ghost use Rattle.model.specs.Paths.{same_end};
ghost use Rattle.network.specs.There.{PlaceThere};
ghost use Rattle.network.specs.Found.{found};
ghost use Rattle.tree.specs.Linked.{LineHeld};
ghost use Rattle.tree.specs.Held.{near_in, HoldsFeeders};
ghost use Rattle.relations.specs.declared.Relation.TheVariants.{Apart};
ghost use Rattle.relations.specs.Related.{HoldsRoutes, HoldsLater, HoldsRelations, between_in, later_in, row_count};
ghost use Rattle.relations.specs.Lists.{is_related, Listed};
ghost use Rattle.relations.specs.Climb.{is_above, place_above, Noted, Kept};

use arrayvec::ArrayVec;
use marks::Marks;
use network::{End, Network};
use paths::Firsts;
use tree::Tree;

// How a place stands to another: behind it, where the other is on its path to the HV station; above it, where it is on the other's
// path; or apart.
#[derive(Clone, Copy, Debug, Default, PartialEq, Eq)]
pub enum Relation {
    #[default]
    Apart,
    Behind,
    Above,
}

impl Relation {
    // Whether one of the places is behind the other.
    fn is_related(self) -> bool
        ensures { result ≡ is_related self }
    {
        self != Relation::Apart
    }
}

// What says which places a path to the HV station meets: an accepted network, its tree, the places on the ends of its lines, and the
// first place on the path of each line.
#[derive(Clone, Copy)]
pub struct Routes<'a> {
    pub net: &'a Network,
    pub tree: &'a Tree,
    pub places: &'a Marks,
    pub firsts: &'a Firsts,
    ghost held: { ∥ HoldsRoutes net.now tree.now places.now firsts.now ∥₁ },
}

impl<'a> Routes<'a> {
    // Whether an end is the far end of its line.
    fn is_far(&self, end: End) -> bool
        requires { LineHeld end.line }
        ensures { result ≡ not (same_end end (near_in self.now.tree.now end.line)) }
    {
        end != self.tree.near(end.line)
    }

    // The next place above a place, the first that the path onward from it meets.
    fn above(&self, place: usize) -> Option<usize>
        requires place { PlaceThere self.now.net.now place }
        requires feeders { HoldsFeeders self.now.net.now self.now.tree.now }
        ensures { result ≡ found (place_above self.now.net.now place) }
    {
        let end = self.net.place_end(place);
        if self.is_far(end) {
            return self.firsts.first(end.line);
        }
        let feeder = self.tree.feeder(end.line)?;
        self.firsts.first_beyond(self.tree, self.places, feeder)
    }
}

// How each place stands to each other, and which later places each is related to. Row `q` of `between`, 65 long, has at `p` how place
// `p` stands to place `q`; row `q - 1` of `later` has the places that place `q` is related to.
// That they are a network's (`HoldsRelations`, `HoldsLater`) stands in the clauses, since they are filled in where they lie.
#[derive(Drop)]
pub struct Relations {
    // in one array: as an array of rows it was tried, and the check has no rule for making a struct with such rows of an enum
    between: [Relation; 4225],
    later: ArrayVec<ArrayVec<usize, 64>, 64>,
}

impl Relations {
    // Room for the relations of 64 places.
    pub fn new() -> Relations
        ensures apart { (q p : ℕ) → between_in result q p ≡ Apart }
        ensures none { row_count result ≡ 0 }
    {
        Relations {
            between: [Relation::Apart; 4225],
            later: ArrayVec::new(),
        }
    }

    // How place `p` stands to place `q`.
    pub fn between(&self, q: usize, p: usize) -> Relation
        requires { (q ≤ 64) × (p ≤ 64) }
        ensures { result ≡ between_in self.now q p }
    {
        self.between[q * 65 + p]
    }

    // Notes how place `p` stands to place `q`, in the table alone.
    pub fn set(&mut self, q: usize, p: usize, relation: Relation)
        requires { (q ≤ 64) × (p ≤ 64) }
        ensures table { self.new.between ≡ set self.old.between (q * 65 + p) relation }
        ensures later { self.new.later ≡ self.old.later }
    {
        let at = q * 65 + p;
        self.between[at] = relation;
    }

    // The places after place `q` that it is related to, in rising order.
    pub fn later(&self, q: usize) -> &[usize]
        requires { (1 ≤ q) × (q ≤ row_count self.now) }
        ensures { result.now ≡ later_in self.now q }
    {
        self.later[q - 1].as_slice()
    }

    // The relations between a place and those above it.
    fn climb(&mut self, routes: &Routes, place: usize)
        requires place { PlaceThere routes.now.net.now place }
        requires feeders { HoldsFeeders routes.now.net.now routes.now.tree.now }
        ensures noted { Noted (length routes.now.net.now.places) (λ q. is_above routes.now.net.now q place)
            place self.old.between self.new.between }
        ensures row_zero { Kept self.old.between self.new.between }
    {
        // not by `successors`, whose end the types don't know: that a path ends is the proof of this loop
        let mut next = routes.above(place);
        while let Some(above) = next {
            self.set(above, place, Relation::Behind);
            self.set(place, above, Relation::Above);
            next = routes.above(above);
        }
    }

    // The places after place `q` that it is related to, of `count` places.
    fn row(&self, q: usize, count: usize) -> ArrayVec<usize, 64>
        requires { (count ≤ 64) × (1 ≤ q) × (q ≤ count) }
        ensures { Listed self.now.between q (count + 1) result.items }
    {
        let mut row = ArrayVec::new();
        for p in q + 1..count + 1 {
            if self.between(q, p).is_related() {
                row.push(p);
            }
        }
        row
    }

    // Lists for each of `count` places the later ones of them that it is related to, by the table as it stands.
    pub fn list_later(&mut self, count: usize)
        requires { count ≤ 64 }
        ensures table { self.new.between ≡ self.old.between }
        ensures lists { HoldsLater self.new count }
        ensures count { row_count self.new ≡ count }
    {
        self.later.clear();
        for q in 1..count + 1 {
            let row = self.row(q, count);
            self.later.push(row);
        }
    }

    // How the places of a network stand to each other.
    pub fn relate(&mut self, routes: &Routes)
        requires { HoldsFeeders routes.now.net.now routes.now.tree.now }
        ensures table { HoldsRelations routes.now.net.now self.new }
        ensures later { HoldsLater self.new (length routes.now.net.now.places) }
    {
        let count = routes.net.place_count();
        self.between = [Relation::Apart; 4225];
        for place in 1..count + 1 {
            self.climb(routes, place);
        }
        self.list_later(count);
    }
}
