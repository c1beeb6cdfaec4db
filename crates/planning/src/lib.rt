// The search of an accepted network: what the walk reads is prepared, the sets of places are walked, and the best set's total is that of
// the network with its breakers.
#![tactic(auto)]

ghost use Rattle.std.specs.Prelude.{◌≡◌, ◌≤◌, length};
ghost use mathlib.Core.List.{[], Sublistᴰ};
ghost use Rattle.network.specs.There.{LineThere};
ghost use Rattle.network.specs.Changed.{with_state};
ghost use Rattle.theory.specs.Reading.{Read};
ghost use Rattle.model.specs.Sets.{place_numbers, with_breakers, set_total};
ghost use Rattle.model.specs.Walk.{search};
ghost use Rattle.search.specs.Walking.{found_in};
ghost use Rattle.starts.specs.Outlook.{HoldsOutlook};
ghost use Rattle.relations.specs.Related.{HoldsRelations, HoldsLater};
ghost use Rattle.planning.specs.Planned.{HoldsBasis, plan_found};

use amounts::Total;
use bounds::Bounds;
use loading::Loaded;
use marks::Marks;
use model::Head;
use network::{End, Network, State};
use outage::{Behind, Impacts};
use paths::{Firsts, Paths};
use prospects::Tables;
use relations::{Relations, Routes};
use search::{Course, Members, Walk};
use starts::Outlook;
use tree::Tree;

// What a search found: the best set's total and its members, the visits, and whether the search is spent.
#[derive(Clone, Copy)]
pub struct Plan {
    pub total: Total,
    pub members: Members,
    pub visits: u64,
    pub spent: bool,
}

// What a search is based on: an accepted network, how its lines are fed, what the path of each meets, and the customers behind each.
#[derive(Clone, Copy)]
pub struct Basis<'a> {
    pub network: &'a Network,
    pub tree: &'a Tree,
    pub paths: &'a Paths,
    pub behind: &'a Behind,
    ghost based: { ∥ HoldsBasis network.now tree.now paths.now behind.now ∥₁ },
}

// How the places of an accepted network stand to each other, and what a breaker on each would do before any is chosen.
fn prepare(basis: &Basis, relations: &mut Relations, start: &mut Outlook)
    ensures related { HoldsRelations basis.now.network.now relations.new }
    ensures later { HoldsLater relations.new (length basis.now.network.now.places) }
    ensures start { HoldsOutlook basis.now.network.now [] 1 start.new }
{
    let net = basis.network;
    let mut places = Marks::new();
    places.mark_places(net);
    let mut firsts = Firsts::new();
    firsts.follow(net, basis.tree, &places);
    let routes = Routes {
        net,
        tree: basis.tree,
        places: &places,
        firsts: &firsts,
    };
    relations.relate(&routes);
    start.start(&routes, basis.paths, relations);
}

// The walk over the sets of an accepted network.
fn best_set(basis: &Basis, course: &mut Course)
    ensures found { found_in basis.now.network.now course.new.progress ≡ search basis.now.network.now }
    ensures few { length course.new.progress.best.items ≤ 16 }
{
    let mut relations = Relations::new();
    prepare(basis, &mut relations, &mut course.prospects.outlook);
    let tables = Tables {
        net: basis.network,
        relations: &relations,
        behind: basis.behind,
    };
    let savings = tables.savings(&course.prospects.outlook);
    let mut bounds = Bounds::new();
    bounds.fill(savings.as_slice());
    let walk = Walk {
        tables,
        bounds: &bounds,
    };
    walk.run(course);
}

// Adds a breaker at an end.
fn add_breaker(net: &mut Network, end: End)
    requires { LineThere net.old end.line }
    ensures { net.new ≡ with_state net.old end.line end.side 1 }
{
    net.set_state(end, State::Breaker);
}

// Adds a breaker at each place of a set.
fn add_breakers(net: &mut Network, members: &[usize])
    requires { Read net.old × Sublistᴰ members.now (place_numbers net.old) }
    ensures { net.new ≡ with_breakers net.old members.now }
{
    for &place in members {
        let end = net.place_end(place);
        add_breaker(net, end);
    }
}

// Makes a network another with a breaker at each place of a set.
#[tactic(auto, using(crate::proofs::Changing::some_members))]
fn with_breakers(net: &Network, members: &[usize], changed: &mut Network)
    requires { Read net.now × Sublistᴰ members.now (place_numbers net.now) }
    ensures { changed.new ≡ with_breakers net.now members.now }
{
    changed.copy_from(net);
    add_breakers(changed, members);
}

// The total of a set: that of the network with its breakers.
fn total_with(basis: &Basis, members: &[usize]) -> Total
    requires { Sublistᴰ members.now (place_numbers basis.now.network.now) }
    ensures { result.0 ≡ set_total basis.now.network.now members.now }
{
    let mut changed = Network::new(Head::default());
    with_breakers(basis.network, members, &mut changed);
    let mut paths = Paths::new();
    paths.follow(&changed, basis.tree);
    let mut impacts = Impacts::new();
    impacts.fill(&changed, &paths, basis.behind);
    outage::total_of(&changed, &impacts)
}

// The search of an accepted network.
pub fn best_plan(basis: &Basis) -> Plan
    ensures found { plan_found result ≡ search basis.now.network.now }
    ensures few { length result.members.items ≤ 16 }
{
    let mut course = Course::new();
    best_set(basis, &mut course);
    let found = course.progress;
    let total = total_with(basis, found.best.as_slice());
    Plan {
        total,
        members: found.best,
        visits: found.visits,
        spent: found.spent,
    }
}

// The search of a loaded file.
pub fn search_network(loaded: &Loaded) -> Plan
    ensures found { plan_found result ≡ search loaded.now.network.now }
    ensures few { length result.members.items ≤ 16 }
{
    let behind = loaded.customers();
    let basis = Basis {
        network: loaded.network,
        tree: loaded.tree,
        paths: loaded.paths,
        behind: &behind,
    };
    best_plan(&basis)
}
