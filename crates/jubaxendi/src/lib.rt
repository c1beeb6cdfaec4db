// The calls for programs in other languages, which crate `jubaxendi_c` exports. Each returns 0 if it answered, else the refusal as
// one number, and writes what it answers at the start of a lent list of eight numbers, `answer`, whose rest stays. A refused call
// writes nothing. C calls each by its own name, with its own parameters and eight numbers to answer in: so none becomes one with another.
#![tactic(auto)]

ghost use Rattle.std.specs.Prelude.{◌≡◌, ◌++◌, List, ℕ, length, drop};
ghost use Rattle.model.specs.Answer.{says};
ghost use Rattle.model.specs.Calls.{checked, impact_answered, totalled, search_answered, search_leaves, report_answered, report_leaves, segments_answered, segments_leaves, ceiling_answered};
ghost use Rattle.theory.specs.Refusals.{Bounded};
ghost use Rattle.jubaxendi.specs.Numbers.{returned, answer_leaves, no_values, impact_values, total_values, search_values, report_values, segments_values, ceiling_values, one_value};

use model::{Outcome, Refusal, Totals};

// What a call answers, as numbers.
trait Values {
    ghost values: { Self → List ℕ };

    // Writes the numbers at the start of a lent list.
    fn put(self, answer: &mut [u64; 8])
        ensures { answer.new ≡ values self ++ drop (length (values self)) answer.old };
}

impl Values for () {
    ghost values = { no_values };

    fn put(self, answer: &mut [u64; 8]) {}
}

impl Values for u64 {
    ghost values = { one_value };

    fn put(self, answer: &mut [u64; 8]) {
        lists::put_numbers(&[self], answer);
    }
}

impl Values for usize {
    ghost values = { one_value };

    fn put(self, answer: &mut [u64; 8]) {
        lists::put_numbers(&[self as u64], answer);
    }
}

impl Values for Totals {
    ghost values = { total_values };

    fn put(self, answer: &mut [u64; 8]) {
        lists::put_numbers(&[self.total, self.figure], answer);
    }
}

impl Values for Outcome {
    ghost values = { search_values };

    fn put(self, answer: &mut [u64; 8]) {
        let finished = u64::from(self.finished);
        let values = [finished, self.members as u64, self.total, self.visits];
        lists::put_numbers(&values, answer);
    }
}

// Returns what the engine answered, and leaves its numbers.
fn hand_over<T: Values>(answered: Result<T, Refusal>, answer: &mut [u64; 8]) -> u64
    requires { Bounded (says answered) }
    ensures value { result ≡ returned (says answered) }
    ensures answer_after { answer.new ≡ answer_leaves T.values (says answered) answer.old }
{
    match answered {
        Err(refusal) => answers::refusal(refusal),
        Ok(given) => {
            given.put(answer);
            0
        }
    }
}

// Check: no values.
pub fn jubaxendi_check(file: &[u8], answer: &mut [u64; 8]) -> u64
    ensures value { result ≡ returned (checked file.now) }
    ensures answer_after { answer.new ≡ answer_leaves no_values (checked file.now) answer.old }
{
    hand_over(engine::check(file), answer)
}

// Impact: the customers that a fault on the line cuts off.
pub fn jubaxendi_impact(file: &[u8], line: u64, answer: &mut [u64; 8]) -> u64
    ensures value { result ≡ returned (impact_answered file.now line) }
    ensures answer_after { answer.new ≡ answer_leaves impact_values (impact_answered file.now line)
        answer.old }
{
    hand_over(engine::impact(file, line), answer)
}

// Total: the total and the figure.
pub fn jubaxendi_total(file: &[u8], answer: &mut [u64; 8]) -> u64
    ensures value { result ≡ returned (totalled file.now) }
    ensures answer_after { answer.new ≡ answer_leaves total_values (totalled file.now) answer.old }
{
    hand_over(engine::total(file), answer)
}

// Search: 1 finished or 0 spent, the number of members, their total and the visits. The members' place numbers are written at
// the start of `members`.
pub fn jubaxendi_search(file: &[u8], members: &mut [u64], answer: &mut [u64; 8]) -> u64
    ensures value { result ≡ returned (search_answered file.now members.old) }
    ensures members_after { members.new ≡ search_leaves file.now members.old }
    ensures answer_after { answer.new ≡ answer_leaves search_values (search_answered file.now members.old)
        answer.old }
{
    hand_over(engine::search(file, members), answer)
}

// Report: the length of the text in bytes. The text is written at the start of `text`.
pub fn jubaxendi_report(file: &[u8], text: &mut [u8], answer: &mut [u64; 8]) -> u64
    ensures value { result ≡ returned (report_answered file.now text.old) }
    ensures text_after { text.new ≡ report_leaves file.now text.old }
    ensures answer_after { answer.new ≡ answer_leaves report_values (report_answered file.now text.old)
        answer.old }
{
    hand_over(engine::report(file, text), answer)
}

// Segments: how many entries the segment table has. The table, five numbers an entry, is written at the start of `table`.
pub fn jubaxendi_segments(file: &[u8], table: &mut [u64], answer: &mut [u64; 8]) -> u64
    ensures value { result ≡ returned (segments_answered file.now table.old) }
    ensures table_after { table.new ≡ segments_leaves file.now table.old }
    ensures answer_after { answer.new ≡ answer_leaves segments_values
        (segments_answered file.now table.old) answer.old }
{
    hand_over(engine::segments(file, table), answer)
}

// Ceiling: how many sets of at most `additions` of `places` places there are.
pub fn jubaxendi_ceiling(places: u64, additions: u64, answer: &mut [u64; 8]) -> u64
    ensures value { result ≡ returned (ceiling_answered places additions) }
    ensures answer_after { answer.new ≡ answer_leaves ceiling_values (ceiling_answered places additions) answer.old }
{
    hand_over(binomials::ceiling(places, additions), answer)
}
