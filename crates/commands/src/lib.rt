// The commands of the program: each asks a call and writes its answer as rows of text at the start of a buffer, as crate `text` does, and
// for its reason. The buffer is a slice of at least `ROOM` bytes: an array of that length as its type would ask more of callers.
#![tactic(auto)]

ghost use Rattle.std.specs.Prelude.{◌≡◌, List, ℕ, ◌≤◌, length, take};
ghost use Rattle.model.specs.Calls.{text_or_x};
ghost use Rattle.model.specs.Commands.{commanded, prints};
ghost use Rattle.model.specs.declared.Command.{Command};
ghost use Rattle.plans.specs.Left.{text_in, Fits, Left};
ghost use Rattle.commands.specs.Told.{Told};

use model::{Command, Refusal};

// What is printed: how many bytes, and the refusal that they say, if they say one.
#[derive(Clone, Copy, Debug, PartialEq, Eq)]
pub struct Said {
    pub bytes: usize,
    pub refusal: Option<Refusal>,
}

// The room for the longest text: a row of one number and 1,536 rows of five.
pub const ROOM: usize = 164375;

// check: K for a file that is accepted.
fn ask_check(file: &[u8], out: &mut [u8]) -> Result<usize, Refusal>
    requires { 164375 ≤ length out.old }
    ensures { Left (commanded Command.Check file.now) result out.new }
{
    match engine::check(file) {
        Ok(()) => Ok(text::put_line(out, b'K', &[])),
        Err(refusal) => Err(refusal),
    }
}

// impact LINE: I, the line and the customers that a fault on it cuts off.
fn ask_impact(file: &[u8], line: u64, out: &mut [u8]) -> Result<usize, Refusal>
    requires { 164375 ≤ length out.old }
    ensures { Left (commanded (Command.Impact line) file.now) result out.new }
{
    let customers = engine::impact(file, line)?;
    Ok(text::put_line(out, b'I', &[line, customers]))
}

// total: A, the total and the figure.
fn ask_total(file: &[u8], out: &mut [u8]) -> Result<usize, Refusal>
    requires { 164375 ≤ length out.old }
    ensures { Left (commanded Command.Total file.now) result out.new }
{
    let totals = engine::total(file)?;
    Ok(text::put_line(out, b'A', &[totals.total, totals.figure]))
}

// ceiling PLACES ADDITIONS: M, the two numbers and how many sets there are.
fn ask_ceiling(places: u64, additions: u64, out: &mut [u8]) -> Result<usize, Refusal>
    requires { 164375 ≤ length out.old }
    ensures { (file : List ℕ) → Left (commanded (Command.Ceiling places additions) file) result out.new }
{
    let sets = binomials::ceiling(places, additions)?;
    Ok(text::put_line(out, b'M', &[places, additions, sets]))
}

// segments: G and how many entries the segment table has, T and the numbers of each. The table is an array: there is no heap.
fn ask_segments(file: &[u8], out: &mut [u8]) -> Result<usize, Refusal>
    requires { 164375 ≤ length out.old }
    ensures { Left (commanded Command.Segments file.now) result out.new }
{
    let mut table = [0; 7680];
    let entries = engine::segments(file, &mut table)?;
    Ok(segment_rows::put_table(&table, entries, out))
}

// report: the rows of the report.
fn ask_report(file: &[u8], out: &mut [u8]) -> Result<usize, Refusal>
    requires { 164375 ≤ length out.old }
    ensures { Left (commanded Command.Report file.now) result out.new }
{
    engine::report(file, out)
}

// The answer to a command: the length of its text at the start of the buffer, or a refusal.
fn ask(command: Command, file: &[u8], out: &mut [u8]) -> Result<usize, Refusal>
    requires { 164375 ≤ length out.old }
    ensures { Left (commanded command file.now) result out.new }
{
    match command {
        Command::Report => ask_report(file, out),
        Command::Check => ask_check(file, out),
        Command::Impact(line) => ask_impact(file, line, out),
        Command::Total => ask_total(file, out),
        Command::Search => plans::plan(file, out),
        Command::Segments => ask_segments(file, out),
        Command::Ceiling { places, additions } => ask_ceiling(places, additions, out),
    }
}

// What is printed of an answer: its text, or the line of its refusal; answers its length.
fn put_answer(answer: Result<usize, Refusal>, out: &mut [u8]) -> usize
    requires { Fits answer out.old × (44 ≤ length out.old) }
    ensures { (take result out.new ≡ text_or_x (text_in answer out.old)) × (result ≤ length out.new) }
{
    match answer {
        Ok(n) => n,
        Err(refusal) => text::put_line(out, b'X', &[refusal.number(), refusal.record()]),
    }
}

// Writes what a command prints for a file at the start of a buffer.
pub fn answer(command: Command, file: &[u8], out: &mut [u8]) -> Said
    requires { 164375 ≤ length out.old }
    ensures text { (take result.bytes out.new ≡ prints command file.now) × (result.bytes ≤ length out.new) }
    ensures told { Told result.refusal (commanded command file.now) }
{
    let answer = ask(command, file, out);
    let bytes = put_answer(answer, out);
    Said {
        bytes,
        refusal: answer.err(),
    }
}
