// The report of a network: its totals, the impact of a fault on each line, and the breakers that the search found. Each function
// writes into the buffer that C lends and answers how much, as those of crate `text` do, and for their reason.
#![tactic(auto)]

ghost use Rattle.std.specs.Prelude.{◌≡◌, ◌≤◌, length};
ghost use Rattle.model.specs.Outage.{total as total_of, figure as figure_of};
ghost use Rattle.model.specs.Text.{line_a, line_f, line_b, report_text};
ghost use Rattle.model.specs.Commands.{plan_text};
ghost use Rattle.theory.specs.Reading.{Read};
ghost use Rattle.theory.specs.Best.{Accepted};
ghost use Rattle.network.specs.There.{PlaceThere};
ghost use Rattle.outage.specs.Held.{HoldsImpacts};
ghost use Rattle.text.specs.Over.{Written};
ghost use Rattle.report.specs.Parts.{fault_lines, finished_number, outcome_line, member_lines};
ghost use Rattle.report.specs.Ready.{ArePlaces, Planned, Answered};

use amounts::Total;
use network::Network;
use outage::Impacts;
use planning::Plan;

// The A line, with the total and the SAIDI figure, at the start of a buffer; answers its length.
fn put_totals(net: &Network, total: u64, figure: u64, buf: &mut [u8]) -> usize
    requires amounts { (total ≡ total_of net.now) × (figure ≡ figure_of net.now) }
    requires room { 44 ≤ length buf.old }
    ensures written { Written (line_a net.now) buf.old buf.new result }
    ensures short { result ≤ 44 }
{
    text::put_line(buf, b'A', &[total, figure])
}

// The F line of a line, with the impact of a fault and the outage amount; answers its length.
fn put_fault(net: &Network, impacts: &Impacts, line: usize, buf: &mut [u8]) -> usize
    requires ready { Accepted net.now × HoldsImpacts net.now impacts.now }
    requires there { (1 ≤ line) × (line ≤ length net.now.lines) }
    requires room { 65 ≤ length buf.old }
    ensures written { Written (line_f net.now line) buf.old buf.new result }
    ensures short { result ≤ 30 }
{
    let impact = impacts.impact(line);
    let amount = u64::from(outage::outage_amount(net, impacts, line));
    text::put_line(buf, b'F', &[line as u64, impact, amount])
}

// The F lines of all lines; answers their length.
fn put_faults(net: &Network, impacts: &Impacts, buf: &mut [u8]) -> usize
    requires ready { Accepted net.now × HoldsImpacts net.now impacts.now }
    requires room { 23105 ≤ length buf.old }
    ensures written { Written (fault_lines net.now) buf.old buf.new result }
    ensures short { result ≤ 23040 }
{
    let mut at: usize = 0;
    for line in 1..net.line_count() + 1 {
        at += put_fault(net, impacts, line, &mut buf[at..]);
    }
    at
}

// 1 for a search that finished, 0 for one that is spent.
fn finished_number(spent: bool) -> u64
    ensures { result ≡ finished_number spent }
{
    u64::from(!spent)
}

// The C line of a plan, with its total or another number; answers its length.
fn put_outcome(plan: &Plan, best: u64, buf: &mut [u8]) -> usize
    requires room { 86 ≤ length buf.old }
    ensures written { Written (outcome_line plan.now.spent plan.now.visits (length plan.now.members.items) best) buf.old buf.new result }
    ensures short { result ≤ 86 }
{
    let finished = finished_number(plan.spent);
    text::put_line(
        buf,
        b'C',
        &[finished, plan.visits, plan.members.len() as u64, best],
    )
}

// The C line of what the search of a network found, with the total itself and not that of customer minutes; answers its length.
fn put_found(net: &Network, plan: &Plan, buf: &mut [u8]) -> usize
    requires ready { Read net.now × (plan.now.total.0 ≤ 7864320000000000) }
    requires room { 86 ≤ length buf.old }
    ensures written { Written (outcome_line plan.now.spent plan.now.visits (length plan.now.members.items) plan.now.total.0)
        buf.old buf.new result }
    ensures short { result ≤ 86 }
{
    put_outcome(plan, u64::from(plan.total), buf)
}

// The B line of a place, with its line and its end; answers its length.
fn put_member(net: &Network, place: usize, buf: &mut [u8]) -> usize
    requires there { PlaceThere net.now place }
    requires room { 44 ≤ length buf.old }
    ensures written { Written (line_b net.now place) buf.old buf.new result }
    ensures short { result ≤ 44 }
{
    let end = net.place_end(place);
    let line = end.line as u64;
    let side = end.side.number() as u64;
    text::put_line(buf, b'B', &[line, side])
}

// The B lines of the members of a set; answers their length.
fn put_members(net: &Network, members: &[usize], buf: &mut [u8]) -> usize
    requires places { ArePlaces net.now members.now × (length members.now ≤ 16) }
    requires room { 704 ≤ length buf.old }
    ensures written { Written (member_lines net.now members.now) buf.old buf.new result }
    ensures short { result ≤ 704 }
{
    let mut at: usize = 0;
    for &member in members {
        at += put_member(net, member, &mut buf[at..]);
    }
    at
}

// Writes what the search of a network found, the C line and the B lines of its members, at the start of a buffer; answers its length.
pub fn write_plan(net: &Network, plan: &Plan, buf: &mut [u8]) -> usize
    requires { Planned net.now plan.now × (790 ≤ length buf.old) }
    ensures written { Written (plan_text net.now) buf.old buf.new result }
    ensures short { result ≤ 790 }
{
    let at = put_found(net, plan, buf);
    at + put_members(net, plan.members.as_slice(), &mut buf[at..])
}

// Writes the report of an accepted network at the start of a buffer; answers its length.
pub fn write_report(
    net: &Network,
    impacts: &Impacts,
    total: Total,
    plan: &Plan,
    buf: &mut [u8],
) -> usize
    requires { Answered net.now impacts.now total plan.now × (32768 ≤ length buf.old) }
    ensures { Written (report_text net.now) buf.old buf.new result }
{
    let number = u64::from(total);
    let figure = outage::figure_of(net, number);
    let mut at = put_totals(net, number, figure, buf);
    at += put_faults(net, impacts, &mut buf[at..]);
    at + write_plan(net, plan, &mut buf[at..])
}
