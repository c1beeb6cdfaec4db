// The search: a walk over sets of places.
// Where a function takes `pending`, that is the set's last member if the outlook of the course is still without it; there is none if
// the outlook is the set's own, or the set is empty. It is no field of `Current`, which stays as it is while a set is extended.
#![tactic(auto)]

ghost use Rattle.std.specs.Prelude.{◌≡◌, true, false, ◌&&◌, [], ◌∷◌, ◌++◌, ◌+◌, ◌≤◌, leb, ltb, length};
ghost use Rattle.model.specs.Outage.{total as total_of};
ghost use Rattle.model.specs.Sets.{place_at, allowed, set_total};
ghost use Rattle.model.specs.Walk.{search};
ghost use Rattle.theory.specs.Reading.{Read};
ghost use Rattle.network.specs.There.{PlaceThere};
ghost use Rattle.outage.specs.Held.{HoldsCustomers};
ghost use Rattle.prospects.specs.Chosen.{IsUnfilled};
ghost use Rattle.search.specs.Walking.{Chooses, found_in, Begun, visited, extended, Counted, TryingIn, Next, Weighing, BarrenIn, PromisingIn, SeekingIn, Sought, Extending, Left, Starting, Entering, OwnNow, Visits, Leaving, UndoneIn};

use amounts::Total;
use arrayvec::ArrayVec;
use bounds::Bounds;
use network::Network;
use prospects::{Choice, Prospects, Tables};

mod members;

pub use members::Members;

// How far a walk has come: the members of the best set, how much it saves of the file's total, the visits, and whether the walk is
// spent.
#[derive(Clone, Copy)]
pub struct Progress {
    pub best: Members,
    pub saved: Total,
    pub visits: u64,
    pub spent: bool,
}

impl Progress {
    // A walk before its first visit.
    fn begin() -> Progress
        ensures { Begun result }
    {
        Progress {
            best: Members::new(),
            saved: Total::ZERO,
            visits: 0,
            spent: false,
        }
    }
}

// The set that a walk stands at, beside its members: the last of them, how much it saves of the file's total, its cost and its hours.
#[derive(Clone, Copy)]
pub struct Current {
    pub last: Option<usize>,
    pub saved: Total,
    pub cost: u64,
    pub hours: u64,
}

// Where a walk stands: the members of its set, the prospects of the places, and how far it has come.
#[derive(Drop)]
pub struct Course {
    pub members: ArrayVec<usize, 16>,
    pub prospects: Prospects,
    pub progress: Progress,
}

impl Course {
    // Room for a walk, which begins at the empty set.
    pub fn new() -> Course
        ensures members { result.members.items ≡ [] }
        ensures prospects { IsUnfilled result.prospects }
        ensures progress { Begun result.progress }
    {
        Course {
            members: ArrayVec::new(),
            prospects: Prospects::new(),
            progress: Progress::begin(),
        }
    }

    // The set as the prospects of the later places are read from it: the outlook is still without its last member if that is
    // `pending`.
    fn choice<'a>(&'a self, tables: &Tables<'a>, pending: Option<usize>) -> Choice<'a>
        ensures { Chooses tables.now self.now pending result }
    {
        Choice {
            tables: *tables,
            outlook: &self.prospects.outlook,
            members: self.members.as_slice(),
            pending,
        }
    }
}

// Makes a list of members another's copy.
fn copy_members(members: &[usize], copy: &mut Members)
    requires { length members.now ≤ 16 }
    ensures { copy.new.items ≡ members.now }
{
    *copy = Members::of(members);
}

// Whether a set saves less than another.
fn saves_less(saved: Total, other: Total) -> bool
    ensures { result ≡ ltb saved.0 other.0 }
{
    saved < other
}

// Whether a set with such a cost and such hours is within the file's money and hours.
fn within_means(net: &Network, cost: u64, hours: u64) -> bool
    ensures { result ≡ (leb cost net.now.head.money && leb hours
        net.now.head.hours) }
{
    let head = net.head();
    cost <= head.money && hours <= head.hours
}

// The cost of the set with one more place. This and `hours_with` are one sum each: to add both at once would take a type of the two, with
// `+` and its equations, for these two lines.
fn cost_with(net: &Network, current: Current, place: usize) -> u64
    requires { PlaceThere net.now place × Read net.now × (current.cost ≤ net.now.head.money)
        × (current.hours ≤ net.now.head.hours) }
    ensures { result ≡ current.cost + (place_at net.now place).cost }
{
    current.cost + net.place_cost(place)
}

// The hours of the set with one more place.
fn hours_with(net: &Network, current: Current, place: usize) -> u64
    requires { PlaceThere net.now place × Read net.now × (current.cost ≤ net.now.head.money)
        × (current.hours ≤ net.now.head.hours) }
    ensures { result ≡ current.hours + (place_at net.now place).hours }
{
    current.hours + net.place_hours(place)
}

impl Course {
    // Whether the set with one more place is allowed.
    fn may_get(
        &self,
        tables: &Tables,
        current: Current,
        pending: Option<usize>,
        place: usize,
    ) -> bool
        requires { TryingIn tables.now self.now current pending place }
        ensures { result ≡ allowed tables.now.net.now (self.now.members.items ++ (place ∷ [])) }
    {
        let net = tables.net;
        let in_series = self.choice(tables, pending).in_series(place);
        let series = net.head().series;
        if series <= in_series {
            return false;
        }
        let cost = cost_with(net, current, place);
        let hours = hours_with(net, current, place);
        within_means(net, cost, hours)
    }

    // The set with one more place.
    fn with_place(
        &self,
        tables: &Tables,
        current: Current,
        pending: Option<usize>,
        place: usize,
    ) -> Current
        requires { TryingIn tables.now self.now current pending place
            × HoldsCustomers tables.now.net.now tables.now.behind.now }
        ensures { Next tables.now.net.now self.now.members.items current place result }
    {
        let net = tables.net;
        let fall = self.choice(tables, pending).fall(place);
        Current {
            last: Some(place),
            saved: current.saved + fall,
            cost: cost_with(net, current, place),
            hours: hours_with(net, current, place),
        }
    }
}

impl Course {
    // A visit of the set is due, which saves so much. At the limit the walk is spent. Else the visit is counted, and the set is best
    // if it saves more.
    fn visit(&mut self, net: &Network, saved: Total)
        requires { (saved.0 + set_total net.now self.old.members.items ≡ total_of net.now)
            × (length self.old.members.items ≤ 16) × Counted net.now self.old.progress }
        ensures { Visits net.now self.old self.new }
    {
        if self.progress.visits == net.head().visits {
            self.progress.spent = true;
            return;
        }
        self.progress.visits += 1;
        let better = saves_less(self.progress.saved, saved);
        if better {
            copy_members(&self.members, &mut self.progress.best);
            self.progress.saved = saved;
        }
    }

    // The set without its last member gets its own outlook, if the outlook is still without `pending`.
    fn enter(&mut self, tables: &Tables, pending: Option<usize>)
        requires { Entering tables.now self.old pending }
        ensures { OwnNow tables.now pending self.old self.new }
    {
        let size = self.members.len() - 1;
        if let Some(last) = pending {
            self.prospects.enter(tables, &self.members[..size], last);
        }
    }

    // Undoes what entering the set changed, if it was entered: if nothing is pending of a set with a last member.
    fn leave(&mut self, tables: &Tables, last: Option<usize>, pending: Option<usize>)
        requires { Leaving tables.now last pending self.old }
        ensures { UndoneIn tables.now last pending self.old self.new }
    {
        if let Some(last) = last {
            if pending.is_none() {
                let places = tables.relations.later(last);
                self.prospects.leave(places, self.members.len());
            }
        }
    }
}

// A walk over the sets of places of a file: what it reads.
#[derive(Clone, Copy)]
pub struct Walk<'a> {
    pub tables: Tables<'a>,
    pub bounds: &'a Bounds,
}

impl<'a> Walk<'a> {
    // Whether a set that saves so much is to be extended by places from `from` on: it may get `left`, some are left, the walk is not
    // spent, and by the bound they may do better than the best.
    fn goes_on(&self, progress: &Progress, saved: Total, from: usize, left: usize) -> bool
        requires { Weighing self.now progress.now saved.0 left × (1 ≤ from) }
        ensures barren { result ≡ false → BarrenIn self.now progress.now saved.0 from left }
        ensures promising { result ≡ true → PromisingIn self.now progress.now saved.0 from left }
    {
        let full = left == 0;
        if full {
            return false;
        }
        if self.tables.net.place_count() < from {
            return false;
        }
        if progress.spent {
            return false;
        }
        let more = self.bounds.most_saved(left, from);
        saved.can_pass(more, progress.saved)
    }

    // Whether a set whose last member is `place` is to be extended, by `left` more places.
    fn goes_deeper(&self, progress: &Progress, saved: Total, place: usize, left: usize) -> bool
        requires { Weighing self.now progress.now saved.0 left × (place ≤ 64) }
        ensures { result ≡ false → BarrenIn self.now progress.now saved.0 (place + 1) left }
    {
        self.goes_on(progress, saved, place + 1, left)
    }

    // The next place from `from` on that the set may get, unless the set is not to be extended from there on. A walk spends much of
    // its time here.
    #[inline]
    fn next_place(
        &self,
        course: &Course,
        current: Current,
        pending: Option<usize>,
        from: usize,
        left: usize,
    ) -> Option<usize>
        requires { SeekingIn self.now course.now current pending from left }
        ensures { Sought self.now.tables.net.now course.now.members.items current.saved.0 from left course.now.progress result }
    {
        // a copy, so that what is read stays at hand through the loop
        let walk = *self;
        let mut place = from;
        while walk.goes_on(&course.progress, current.saved, place, left) {
            if course.may_get(&walk.tables, current, pending, place) {
                return Some(place);
            }
            place += 1;
        }
        None
    }

    // The next place after `place` that the set may get, unless the set is not to be extended from there on.
    fn next_after(
        &self,
        course: &Course,
        current: Current,
        pending: Option<usize>,
        place: usize,
        left: usize,
    ) -> Option<usize>
        requires { SeekingIn self.now course.now current pending (place + 1) left }
        ensures { Sought self.now.tables.net.now course.now.members.items current.saved.0 (place + 1) left course.now.progress result }
    {
        let from = place + 1;
        self.next_place(course, current, pending, from, left)
    }

    // Extends the set, which may get `left` more places, by each of the places from `from` on in rising order.
    fn extend(&self, course: &mut Course, current: Current, from: usize, left: usize)
        requires { Extending self.now course.old current from left }
        ensures { Left self.now.tables.net.now (extended self.now.tables.net.now left course.old.members.items from
            (found_in self.now.tables.net.now course.old.progress)) course.old course.new }
    {
        // the next place depends on what the visits since have found, so no iterator gives it: one would have to lend out the course
        let mut pending = current.last;
        let mut next = self.next_place(course, current, pending, from, left);
        while let Some(place) = next {
            let more = course.with_place(&self.tables, current, pending, place);
            course.members.push(place);
            course.visit(self.tables.net, more.saved);
            if self.goes_deeper(&course.progress, more.saved, place, left - 1) {
                course.enter(&self.tables, pending);
                pending = None;
                self.extend(course, more, place + 1, left - 1);
            }
            course.members.pop();
            next = self.next_after(course, current, pending, place, left);
        }
        course.leave(&self.tables, current.last, pending);
    }

    // The search: the empty set, which saves nothing, is visited first, then it is extended by at most `adds` of the places.
    pub fn run(&self, course: &mut Course)
        requires { Starting self.now course.old }
        ensures found { found_in self.now.tables.net.now course.new.progress ≡ search self.now.tables.net.now }
        ensures few { length course.new.progress.best.items ≤ 16 }
    {
        course.members.clear();
        course.progress = Progress::begin();
        course.visit(self.tables.net, Total::ZERO);
        let current = Current {
            last: None,
            saved: Total::ZERO,
            cost: 0,
            hours: 0,
        };
        self.extend(course, current, 1, self.tables.net.head().adds);
    }
}
