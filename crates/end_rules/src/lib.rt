// The rules 4 and 5, on the states of the ends: no line has both ends open, and every closed end at an HV station is a breaker.
#![tactic(auto)]

ghost use Rattle.std.specs.Prelude.{◌≡◌};
ghost use Rattle.model.specs.Lists.{first_or};
ghost use Rattle.model.specs.Paths.{station_at, line_numbers};
ghost use Rattle.model.specs.Rules.{both_open, plain_at_hv, unprotected};
ghost use Rattle.theory.specs.Reading.{Read};
ghost use Rattle.network.specs.Found.{found};
ghost use Rattle.network.specs.There.{StationThere, LineThere};

use network::{End, Network, Side};

// Whether both ends of a line are open.
fn both_open(net: &Network, line: usize) -> bool
    requires { LineThere net.now line }
    ensures { result ≡ both_open net.now line }
{
    let one = End {
        line,
        side: Side::One,
    };
    let two = one.other();
    net.is_open(one) && net.is_open(two)
}

// Rule 4: the first line with both ends open. This and `plain_at_hv` are one call each: a function of both that takes the test would
// be no plainer, since it needs a contract for a test.
pub fn open_line(net: &Network) -> Option<usize>
    requires { Read net.now }
    ensures { result ≡ found (first_or 0 (both_open net.now) (line_numbers net.now)) }
{
    (1..net.line_count() + 1).find(|line| both_open(net, *line))
}

// The station that an end is at.
pub fn station_of(net: &Network, end: End) -> usize
    requires read { Read net.now }
    requires line_there { LineThere net.now end.line }
    ensures value { result ≡ station_at net.now end }
    ensures station_there { StationThere net.now result }
{
    net.end_station(end)
}

// Whether an end is a plain end at an HV station.
fn is_plain_at_hv(net: &Network, end: End) -> bool
    requires read { Read net.now }
    requires line_there { LineThere net.now end.line }
    ensures { result ≡ plain_at_hv net.now end }
{
    net.is_plain(end) && net.is_hv(station_of(net, end))
}

// Whether a line has a plain end at an HV station.
fn is_unprotected(net: &Network, line: usize) -> bool
    requires read { Read net.now }
    requires line_there { LineThere net.now line }
    ensures { result ≡ unprotected net.now line }
{
    let one = End {
        line,
        side: Side::One,
    };
    let two = one.other();
    is_plain_at_hv(net, one) || is_plain_at_hv(net, two)
}

// Rule 5: the first line with a plain end at an HV station.
pub fn plain_at_hv(net: &Network) -> Option<usize>
    requires { Read net.now }
    ensures { result ≡ found (first_or 0 (unprotected net.now) (line_numbers net.now)) }
{
    (1..net.line_count() + 1).find(|line| is_unprotected(net, *line))
}
