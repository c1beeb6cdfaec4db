// Ceiling: how many sets of at most so many places there are, by which planners choose the limit of visits.
#![tactic(auto)]

ghost use Rattle.std.specs.Prelude.{◌≡◌, ◌+◌, ◌^◌, ◌≤◌, ◌<◌};
ghost use Rattle.model.specs.Ceiling.{binomial, set_count};
ghost use Rattle.model.specs.Answer.{says};
ghost use Rattle.model.specs.Calls.{ceiling_answered};
ghost use Rattle.binomials.specs.Pascal.{Binomials};

use model::Refusal;

mod table;

// The binomial coefficient of a row, 0 to 64, and a column, 0 to 16. The table is lent, as an array: so its test is computed once,
// where `ceiling` names the constant, and a type around it would only repeat what the clause says.
fn binomial_at(table: &[[u64; 17]; 65], row: usize, column: usize) -> u64
    requires { Binomials table.now × (row ≤ 64) × (column ≤ 16) }
    ensures { (result ≡ binomial row column) × (result < 2 ^ 49) }
{
    table[row][column]
}

// How many sets of at most `additions` of `places` places there are.
fn set_count(table: &[[u64; 17]; 65], places: usize, additions: usize) -> u64
    requires { Binomials table.now × (places ≤ 64) × (additions ≤ 16) }
    ensures { result ≡ set_count places additions }
{
    let mut sum: u64 = 0;
    for column in 0..additions + 1 {
        sum = sum + binomial_at(table, places, column);
    }
    sum
}

// How many sets of at most `additions` (0 to 16) of `places` (0 to 64) places there are.
pub fn ceiling(places: u64, additions: u64) -> Result<u64, Refusal>
    ensures { says result ≡ ceiling_answered places additions }
{
    if places > 64 {
        return Err(Refusal::NoSuchNumber);
    }
    if additions > 16 {
        return Err(Refusal::NoSuchNumber);
    }
    Ok(set_count(&table::BINOMIALS, places as usize, additions as usize))
}
