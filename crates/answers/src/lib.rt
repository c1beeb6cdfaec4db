// Steps of the calls that are the same for every file: whether what is lent is long enough, whether a number is a line's, the outcome
// of a search and its members, a refusal as one number.
#![tactic(auto)]

ghost use Rattle.std.specs.Prelude.{◌≡◌, true, false, ◌⊎◌, ◌+◌, ◌*◌, ◌++◌, ◌≤◌, ◌<◌, length, drop, OnOk, IfErr};
ghost use Rattle.model.specs.Answer.{refusal_number, refusal_record};
ghost use Rattle.model.specs.Calls.{outcome_of};
ghost use Rattle.planning.specs.Planned.{plan_found};

use model::{Outcome, Refusal};
use network::Network;
use planning::Plan;

// The least lengths of what is lent: the members of a set, a report, and a table of five numbers for each end of 768 lines.
pub const MEMBERS: usize = 16;

pub const TEXT: usize = 32768;

pub const TABLE: usize = 7680;

// Whether a number is a line's.
pub fn is_line(net: &Network, line: u64) -> bool
    ensures { (result ≡ true → (1 ≤ line) × (line ≤ length net.now.lines))
        × (result ≡ false → (line < 1) ⊎ (length net.now.lines < line)) }
{
    let numbered = 1 <= line;
    numbered && line <= net.line_count() as u64
}

// The outcome of a search.
pub fn outcome_of(plan: &Plan) -> Outcome
    ensures { result ≡ outcome_of (plan_found plan.now) }
{
    let finished = !plan.spent;
    Outcome {
        finished,
        members: plan.members.len(),
        total: u64::from(plan.total),
        visits: plan.visits,
    }
}

// Writes the numbers of places at the start of what is lent. By index: tried with `zip`, where the proof would have to follow each
// borrowed element.
fn put_places(places: &[usize], lent: &mut [u64])
    requires { length places.now ≤ length lent.old }
    ensures { lent.new ≡ places.now ++ drop (length places.now) lent.old }
{
    for (i, &place) in places.iter().enumerate() {
        lent[i] = place as u64;
    }
}

// Writes the members of a set at the start of what is lent.
pub fn put_members(plan: &Plan, lent: &mut [u64])
    requires { (length plan.now.members.items ≤ 16) × (16 ≤ length lent.old) }
    ensures { lent.new ≡ plan.now.members.items ++ drop (length plan.now.members.items) lent.old }
{
    put_places(plan.members.as_slice(), lent);
}

// Refuses what is lent if it has fewer than the least number of elements.
pub fn long_enough(room: usize, least: usize) -> Result<(), Refusal>
    ensures enough { OnOk result (least ≤ room) }
    ensures short { IfErr result (λ e. (room < least) × (e ≡ Refusal.ShortBuffer)) }
{
    if room < least {
        return Err(Refusal::ShortBuffer);
    }
    Ok(())
}

// A refusal as one number, for programs in other languages. It asks that the record has less than 17 bits, so it is no `From`.
pub fn refusal(refusal: Refusal) -> u64
    requires { (refusal_number refusal ≤ 16) × (refusal_record refusal < 65536) }
    ensures { result ≡ refusal_number refusal * 65536 + refusal_record refusal }
{
    refusal.number() * 65536 + refusal.record()
}
