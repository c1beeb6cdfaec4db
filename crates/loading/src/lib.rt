// A file loaded: read and held to the rules, with the lines from the HV stations outwards and the breakers on their paths.
#![tactic(auto)]

ghost use Rattle.std.specs.Prelude.{◌≡◌, ◌≤◌, [], OnOk};
ghost use Rattle.model.specs.Answer.{Answer, given};
ghost use Rattle.model.specs.Network.{Network};
ghost use Rattle.theory.specs.Reading.{Read};
ghost use Rattle.theory.specs.Radial.{Rules};
ghost use Rattle.model.specs.Rules.{station_record, line_record, radial, accepted};
ghost use Rattle.outage.specs.Held.{HoldsCustomers, HoldsImpacts};
ghost use Rattle.loading.specs.Loading.{forest, before, IsPrepared, IsLoaded};

use model::{Head, Refusal};
use network::Network;
use outage::{Behind, Impacts};
use paths::Paths;
use radial::Parts;
use tree::Tree;

// Room for a file. It is large for a stack, so a file is loaded where it lies.
#[derive(Drop)]
pub struct Room {
    network: Network,
    tree: Tree,
    paths: Paths,
}

// A loaded file, where it lies: an accepted network, and what is prepared of it: its tree, and what the path of each line meets.
#[derive(Clone, Copy)]
pub struct Loaded<'a> {
    pub network: &'a Network,
    pub tree: &'a Tree,
    pub paths: &'a Paths,
    ghost loaded: { ∥ IsLoaded network.now tree.now paths.now ∥₁ },
}

// The record of a line: behind the head and the stations.
fn line_record(net: &Network, line: usize) -> u64
    requires { Read net.now × (line ≤ 769) }
    ensures { result ≡ line_record net.now line }
{
    (1 + net.station_count() + line) as u64
}

// The record of a station: behind the head.
fn station_record(station: usize) -> u64
    requires { station ≤ 513 }
    ensures { result ≡ station_record station }
{
    (1 + station) as u64
}

// The rules 4 to 8 in turn.
fn forest_rules(net: &Network) -> Result<(), Refusal>
    requires { Read net.now }
    ensures next_value { (next : Answer Network) → before result next ≡ forest net.now next }
    ensures rules { OnOk result (Rules net.now) }
{
    if let Some(line) = end_rules::open_line(net) {
        return Err(Refusal::OpenLine {
            record: line_record(net, line),
        });
    }
    if let Some(line) = end_rules::plain_at_hv(net) {
        return Err(Refusal::PlainAtHv {
            record: line_record(net, line),
        });
    }
    let Some(parts) = Parts::of(net) else {
        return Err(Refusal::Ring);
    };
    if parts.hv_joined() {
        return Err(Refusal::Joined);
    }
    if let Some(station) = parts.unsupplied() {
        return Err(Refusal::Unsupplied {
            record: station_record(station),
        });
    }
    Ok(())
}

impl Room {
    ghost use Rattle.loading.specs.LoadAnswer.{network_says};

    // Room for any file.
    pub fn new() -> Room
        ensures { (result.network.stations ≡ []) × (result.network.lines ≡ []) × (result.network.places ≡ []) }
    {
        Room {
            network: Network::new(Head::default()),
            tree: Tree::new(),
            paths: Paths::new(),
        }
    }

    // The rules 4 to 9 in turn. Where they hold, the rest is prepared of the network.
    fn prepare(&mut self) -> Result<(), Refusal>
        requires { Read self.old.network }
        ensures answer { before result (given self.new.network) ≡ radial self.old.network }
        ensures prepared { OnOk result (IsPrepared self.new.network self.new.tree self.new.paths) }
    {
        forest_rules(&self.network)?;
        self.tree.grow(&self.network);
        self.paths.follow(&self.network, &self.tree);
        if series::over_series(&self.network, &self.tree, &self.paths) {
            return Err(Refusal::OverSeries);
        }
        Ok(())
    }

    // Reads and checks a file.
    pub fn load(&mut self, file: &[u8]) -> Result<Loaded<'_>, Refusal>
        ensures { network_says result ≡ accepted file.now }
    {
        reader::read(file, &mut self.network)?;
        let rules = self.prepare();
        rules?;
        Ok(Loaded {
            network: &self.network,
            tree: &self.tree,
            paths: &self.paths,
        })
    }
}

impl Loaded<'_> {
    // The customers behind each line.
    pub fn customers(&self) -> Behind
        ensures { HoldsCustomers self.now.network.now result }
    {
        let mut behind = Behind::new();
        behind.sum(self.network, self.tree);
        behind
    }

    // The impact of a fault on each line, by the breaker that trips for it.
    pub fn impacts(&self) -> Impacts
        ensures { HoldsImpacts self.now.network.now result }
    {
        let mut impacts = Impacts::new();
        impacts.fill(self.network, self.paths, &self.customers());
        impacts
    }
}
