// The calls of the engine.
#![tactic(auto)]

ghost use Rattle.std.specs.Prelude.{◌≡◌, ◌++◌, ◌≤◌, length, drop};
ghost use Rattle.model.specs.Answer.{says};
ghost use Rattle.model.specs.Calls.{checked, impact_answered, totalled, search_answered, search_leaves, report_answered, report_leaves, segments_answered, segments_leaves};
ghost use Rattle.model.specs.Demand.{Demand3};
ghost use Rattle.model.specs.Text.{report_text};
ghost use Rattle.model.specs.Segments.{breaker_ends, segment_table, BreakerByBreaker};

use loading::{Loaded, Room};
use model::{Outcome, Refusal, Totals};
use planning::Basis;

// Check: whether the file is accepted.
pub fn check(file: &[u8]) -> Result<(), Refusal>
    ensures { says result ≡ checked file.now }
{
    Room::new().load(file)?;
    Ok(())
}

// Impact: the customers that a fault on a line cuts off.
pub fn impact(file: &[u8], line: u64) -> Result<u64, Refusal>
    ensures { says result ≡ impact_answered file.now line }
{
    let mut room = Room::new();
    let loaded = room.load(file)?;
    if !answers::is_line(loaded.network, line) {
        return Err(Refusal::NoSuchNumber);
    }
    let impacts = loaded.impacts();
    Ok(impacts.impact(line as usize))
}

// Total: the outage total and the figure, minutes times the total.
pub fn total(file: &[u8]) -> Result<Totals, Refusal>
    ensures { says result ≡ totalled file.now }
{
    let mut room = Room::new();
    let loaded = room.load(file)?;
    let impacts = loaded.impacts();
    let total = u64::from(outage::total_of(loaded.network, &impacts));
    let figure = outage::figure_of(loaded.network, total);
    Ok(Totals { total, figure })
}

// Search: which places should get a breaker. Their numbers are written at the start of `members`.
pub fn search(file: &[u8], members: &mut [u64]) -> Result<Outcome, Refusal>
    ensures result_value { says result ≡ search_answered file.now members.old }
    ensures members_after { members.new ≡ search_leaves file.now members.old }
    ensures demand3 { Demand3 file.now result members.new }
{
    answers::long_enough(members.len(), answers::MEMBERS)?;
    let mut room = Room::new();
    let loaded = room.load(file)?;
    let plan = planning::search_network(&loaded);
    answers::put_members(&plan, members);
    Ok(answers::outcome_of(&plan))
}

// Writes the report of an accepted network at the start of a buffer; answers its length.
fn report_network(loaded: &Loaded, text: &mut [u8]) -> usize
    requires { 32768 ≤ length text.old }
    ensures { (result ≡ length (report_text loaded.now.network.now))
        × (text.new ≡ report_text loaded.now.network.now
        ++ drop (length (report_text loaded.now.network.now)) text.old) }
{
    let behind = loaded.customers();
    let basis = Basis {
        network: loaded.network,
        tree: loaded.tree,
        paths: loaded.paths,
        behind: &behind,
    };
    let impacts = loaded.impacts();
    let total = outage::total_of(loaded.network, &impacts);
    let plan = planning::best_plan(&basis);
    report::write_report(loaded.network, &impacts, total, &plan, text)
}

// Report: the totals, the impact of a fault on each line and what the search found, as text at the start of `text`.
pub fn report(file: &[u8], text: &mut [u8]) -> Result<usize, Refusal>
    ensures result_value { says result ≡ report_answered file.now text.old }
    ensures text_after { text.new ≡ report_leaves file.now text.old }
{
    answers::long_enough(text.len(), answers::TEXT)?;
    let mut room = Room::new();
    let loaded = room.load(file)?;
    Ok(report_network(&loaded, text))
}

// Writes the segment table of an accepted network at the start of a buffer; answers how many entries it has.
fn table_network(loaded: &Loaded, table: &mut [u64]) -> usize
    requires { 7680 ≤ length table.old }
    ensures { (result ≡ length (breaker_ends loaded.now.network.now))
        × (table.new ≡ segment_table loaded.now.network.now
        ++ drop (length (segment_table loaded.now.network.now)) table.old) }
{
    let behind = loaded.customers();
    segments::write_table(loaded.network, loaded.paths, &behind, table)
}

// Segments: the lines grouped by the breaker that trips for them, five numbers a breaker, at the start of `table`.
pub fn segments(file: &[u8], table: &mut [u64]) -> Result<usize, Refusal>
    ensures result_value { says result ≡ segments_answered file.now table.old }
    ensures table_after { table.new ≡ segments_leaves file.now table.old }
    ensures breaker_by_breaker { BreakerByBreaker file.now result table.new }
{
    answers::long_enough(table.len(), answers::TABLE)?;
    let mut room = Room::new();
    let loaded = room.load(file)?;
    Ok(table_network(&loaded, table))
}
