// The calls of crate `jubaxendi` as symbols of a static library, for C and the languages that call C. jubaxendi.h, beside that
// crate, declares them. C calls each by its own name and lends eight numbers to answer in: so none becomes one with another.
#![tactic(auto)]

ghost use Rattle.std.specs.Prelude.{◌≡◌};
ghost use Rattle.model.specs.Calls.{checked, impact_answered, totalled, search_answered, search_leaves, report_answered, report_leaves, segments_answered, segments_leaves, ceiling_answered};
ghost use Rattle.jubaxendi.specs.Numbers.{returned, answer_leaves, no_values, impact_values, total_values, search_values, report_values, segments_values, ceiling_values};

// Check: no values.
#[unsafe(no_mangle)]
pub extern "C" fn jubaxendi_check(file: &[u8], answer: &mut [u64; 8]) -> u64
    ensures value { result ≡ returned (checked file.now) }
    ensures answer_after { answer.new ≡ answer_leaves no_values (checked file.now) answer.old }
{
    jubaxendi::jubaxendi_check(file, answer)
}

// Impact: the customers that a fault on the line cuts off.
#[unsafe(no_mangle)]
pub extern "C" fn jubaxendi_impact(file: &[u8], line: u64, answer: &mut [u64; 8]) -> u64
    ensures value { result ≡ returned (impact_answered file.now line) }
    ensures answer_after { answer.new ≡ answer_leaves impact_values (impact_answered file.now line)
        answer.old }
{
    jubaxendi::jubaxendi_impact(file, line, answer)
}

// Total: the total and the figure.
#[unsafe(no_mangle)]
pub extern "C" fn jubaxendi_total(file: &[u8], answer: &mut [u64; 8]) -> u64
    ensures value { result ≡ returned (totalled file.now) }
    ensures answer_after { answer.new ≡ answer_leaves total_values (totalled file.now) answer.old }
{
    jubaxendi::jubaxendi_total(file, answer)
}

// Search: 1 finished or 0 spent, the number of members, their total and the visits. The members' place numbers are written at
// the start of `members`.
#[unsafe(no_mangle)]
pub extern "C" fn jubaxendi_search(file: &[u8], members: &mut [u64], answer: &mut [u64; 8]) -> u64
    ensures value { result ≡ returned (search_answered file.now members.old) }
    ensures members_after { members.new ≡ search_leaves file.now members.old }
    ensures answer_after { answer.new ≡ answer_leaves search_values (search_answered file.now members.old)
        answer.old }
{
    jubaxendi::jubaxendi_search(file, members, answer)
}

// Report: the length of the text in bytes. The text is written at the start of `text`.
#[unsafe(no_mangle)]
pub extern "C" fn jubaxendi_report(file: &[u8], text: &mut [u8], answer: &mut [u64; 8]) -> u64
    ensures value { result ≡ returned (report_answered file.now text.old) }
    ensures text_after { text.new ≡ report_leaves file.now text.old }
    ensures answer_after { answer.new ≡ answer_leaves report_values (report_answered file.now text.old)
        answer.old }
{
    jubaxendi::jubaxendi_report(file, text, answer)
}

// Segments: how many entries the segment table has. The table, five numbers an entry, is written at the start of `table`.
#[unsafe(no_mangle)]
pub extern "C" fn jubaxendi_segments(file: &[u8], table: &mut [u64], answer: &mut [u64; 8]) -> u64
    ensures value { result ≡ returned (segments_answered file.now table.old) }
    ensures table_after { table.new ≡ segments_leaves file.now table.old }
    ensures answer_after { answer.new ≡ answer_leaves segments_values
        (segments_answered file.now table.old) answer.old }
{
    jubaxendi::jubaxendi_segments(file, table, answer)
}

// Ceiling: how many sets of at most `additions` of `places` places there are.
#[unsafe(no_mangle)]
pub extern "C" fn jubaxendi_ceiling(places: u64, additions: u64, answer: &mut [u64; 8]) -> u64
    ensures value { result ≡ returned (ceiling_answered places additions) }
    ensures answer_after { answer.new ≡ answer_leaves ceiling_values (ceiling_answered places additions) answer.old }
{
    jubaxendi::jubaxendi_ceiling(places, additions, answer)
}
