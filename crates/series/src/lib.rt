// The breakers in series: those on the path of the station that a line feeds, the most on a path from an HV station, and the series
// rule, rule 9. The rule is asked before a file is known to be accepted, so that no loaded file is at hand whose type would say what the
// clauses ask for.
#![tactic(auto)]

ghost use Rattle.std.specs.Prelude.{◌≡◌};
ghost use Rattle.model.specs.Rules.{breakers_on, series_broken};
ghost use Rattle.theory.specs.Reading.{Read};
ghost use Rattle.theory.specs.Radial.{Rules};
ghost use Rattle.network.specs.There.{LineThere};
ghost use Rattle.tree.specs.Held.{HoldsNears};
ghost use Rattle.paths.specs.Held.{HoldsCounts};
ghost use Rattle.paths.specs.Meets.{far_route};
ghost use Rattle.series.specs.Series.{most_in_series};

use network::Network;
use paths::Paths;
use tree::Tree;

// The breakers on the path of the station that a line feeds: those on the line's, and its far end if that is one.
pub fn count_beyond(net: &Network, tree: &Tree, paths: &Paths, line: usize) -> u64
    requires { Read net.now × Rules net.now × HoldsNears net.now tree.now
        × HoldsCounts net.now paths.now × LineThere net.now line }
    ensures { result ≡ breakers_on net.now (far_route net.now line) }
{
    if net.is_breaker(tree.far(line)) {
        paths.count(line) + 1
    } else {
        paths.count(line)
    }
}

// The most breakers on a path from an HV station.
pub fn most_in_series(net: &Network, tree: &Tree, paths: &Paths) -> u64
    requires { Read net.now × Rules net.now × HoldsNears net.now tree.now
        × HoldsCounts net.now paths.now }
    ensures { result ≡ most_in_series net.now }
{
    let mut most: u64 = 0;
    for line in 1..net.line_count() + 1 {
        most = most.max(count_beyond(net, tree, paths, line));
    }
    most
}

// Whether a path from an HV station passes more breakers than the series rule allows.
pub fn over_series(net: &Network, tree: &Tree, paths: &Paths) -> bool
    requires { Read net.now × Rules net.now × HoldsNears net.now tree.now
        × HoldsCounts net.now paths.now }
    ensures { result ≡ series_broken net.now }
{
    net.head().series < most_in_series(net, tree, paths)
}
