// What the path of each line meets on its way to the HV station: the breaker that trips for the line and how many breakers are on
// the path; the first place.
#![tactic(auto)]

ghost use Rattle.std.specs.Prelude.{ℕ, ◌≡◌, ◌+◌, ◌≤◌, None};
ghost use Rattle.theory.specs.Reading.{Read};
ghost use Rattle.theory.specs.Radial.{Rules};
ghost use Rattle.theory.specs.Behind.{far};
ghost use Rattle.tree.specs.Linked.{LineHeld};
ghost use Rattle.tree.specs.Held.{near_in, HoldsOutwards};
ghost use Rattle.sets.specs.Sets.{route};
ghost use Rattle.marks.specs.Held.{mark_on, HoldsPlaces};
ghost use Rattle.paths.specs.Held.{trip_in, count_in, first_in, first_beyond_in, HoldsPaths, HoldsFirsts};
ghost use Rattle.paths.specs.Meets.{met_next, met_on, met_in, HoldsMets, Known};

use marks::Marks;
use network::{End, Network};
use tree::Tree;

// The marks that a path to the HV station meets: the first, and how many. A mark has 16 bits, so that a loaded file keeps within the stack
// that C is told of.
#[derive(Clone, Copy)]
struct Met {
    first: Option<u16>,
    count: u64,
}

impl Met {
    // A path without marks.
    const NONE: Met = Met {
        first: None,
        count: 0,
    };

    // What a path meets that begins with an end with such a mark and then meets this.
    fn behind(self, mark: Option<u16>) -> Met
        requires { self.count ≤ 4000 }
        ensures met { result ≡ met_next mark self }
        ensures few { result.count ≤ self.count + 1 }
    {
        match mark {
            None => self,
            Some(mark) => Met {
                first: Some(mark),
                count: self.count + 1,
            },
        }
    }
}

// The mark on the far end of a line.
fn far_mark(tree: &Tree, marks: &Marks, line: usize) -> Option<u16>
    requires { LineHeld line }
    ensures { result ≡ mark_on marks.now (far (near_in tree.now line)) }
{
    marks.on(tree.far(line))
}

// What the path of each line meets.
#[derive(Drop)]
struct Mets {
    lines: [Met; 768],
}

impl Mets {
    // Paths without marks.
    const NONE: Mets = Mets {
        lines: [Met::NONE; 768],
    };

    // What the path of a line meets.
    fn of(&self, line: usize) -> Met
        requires { LineHeld line }
        ensures { result ≡ met_in self.now.lines line }
    {
        self.lines[line - 1]
    }

    // What the path of a line meets, where that of the line that feeds it is held.
    fn line_met(&self, net: &Network, tree: &Tree, marks: &Marks, line: usize) -> Met
        requires { Known net.now tree.now marks.now self.now.lines line }
        ensures { result ≡ met_on marks.now (route net.now line) }
    {
        let beyond = match tree.feeder(line) {
            None => Met::NONE,
            Some(feeder) => {
                let met = self.of(feeder);
                met.behind(far_mark(tree, marks, feeder))
            }
        };
        beyond.behind(marks.on(tree.near(line)))
    }

    // Follows the path of each line, from the HV stations outwards.
    fn follow(&mut self, net: &Network, tree: &Tree, marks: &Marks)
        requires { Read net.now × Rules net.now × HoldsOutwards net.now tree.now }
        ensures { HoldsMets net.now marks.now self.new.lines }
    {
        for &line in &tree.lines()[..net.line_count()] {
            self.lines[line - 1] = self.line_met(net, tree, marks, line);
        }
    }
}

// The breaker that trips for each line, and how many breakers are on its path. It does not borrow the network, beside which it lies in
// a loaded file: so that it is the network's (`HoldsPaths`) stands in the clauses. What it has in common with `Firsts`, whose marks are
// places, is `Mets`, which both have inside; what they answer differs.
#[derive(Drop)]
pub struct Paths {
    mets: Mets,
}

impl Paths {
    // Room for the paths of 768 lines.
    pub fn new() -> Paths
        ensures { (l : ℕ) → count_in result l ≡ 0 }
    {
        Paths { mets: Mets::NONE }
    }

    // Follows the paths of a network's lines.
    pub fn follow(&mut self, net: &Network, tree: &Tree)
        requires { Read net.now × Rules net.now × HoldsOutwards net.now tree.now }
        ensures { HoldsPaths net.now self.new }
    {
        let mut breakers = Marks::new();
        breakers.mark_breakers(net);
        self.mets.follow(net, tree, &breakers);
    }

    // The breaker that trips for a line; an end of line 0 where none does.
    pub fn trip(&self, line: usize) -> End
        requires { LineHeld line }
        ensures { result ≡ trip_in self.now line }
    {
        match self.mets.of(line).first {
            Some(code) => tree::end_of(code as usize),
            None => End::default(),
        }
    }

    // How many breakers are on the path of a line.
    pub fn count(&self, line: usize) -> u64
        requires { LineHeld line }
        ensures { result ≡ count_in self.now line }
    {
        self.mets.of(line).count
    }
}

// The first place on the path of each line.
#[derive(Drop)]
pub struct Firsts {
    mets: Mets,
}

impl Firsts {
    // Room for the paths of 768 lines.
    pub fn new() -> Firsts
        ensures { (l : ℕ) → first_in result l ≡ None }
    {
        Firsts { mets: Mets::NONE }
    }

    // Follows the paths of a network's lines, by the marks of its places.
    pub fn follow(&mut self, net: &Network, tree: &Tree, places: &Marks)
        requires { Read net.now × Rules net.now × HoldsOutwards net.now tree.now
            × HoldsPlaces net.now places.now }
        ensures { HoldsFirsts net.now self.new }
    {
        self.mets.follow(net, tree, places);
    }

    // The first place on the path of a line.
    pub fn first(&self, line: usize) -> Option<usize>
        requires { LineHeld line }
        ensures { result ≡ first_in self.now line }
    {
        let place = self.mets.of(line).first?;
        Some(place as usize)
    }

    // The first place on the path of the station that a line feeds: that on the line's far end, else the first on the line's path.
    pub fn first_beyond(&self, tree: &Tree, places: &Marks, line: usize) -> Option<usize>
        requires { LineHeld line }
        ensures { result ≡ first_beyond_in self.now tree.now places.now line }
    {
        match far_mark(tree, places, line) {
            Some(place) => Some(place as usize),
            None => self.first(line),
        }
    }
}
