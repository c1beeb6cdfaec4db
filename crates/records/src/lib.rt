// The records of a file, one after the other: their form, then the ranges of their numbers.
#![tactic(auto)]

ghost use Rattle.std.specs.Prelude.{◌≡◌, true, ◌+◌, ◌<◌, ◌^◌, eqb, length, drop, IfOk, OnOk, OnErr, IfSome, MatchOption};
ghost use Rattle.model.specs.Format.{newline, records_of, fields_of, after_letter};
ghost use Rattle.model.specs.Network.{value};
ghost use Rattle.model.specs.Ranges.{all_in_range};
ghost use Rattle.ranges.specs.Kinds.{kind_of};
ghost use Rattle.fields.specs.Fields.{up_to};
ghost use Rattle.records.specs.Records.{first_closed, next_record, closed_says, record_says, read_says, numbers};

use arrayvec::ArrayVec;
use model::Refusal;
use ranges::{Context, Kind};

// What is left of a file, and the number of the record that comes next. A record takes a byte at least, so that by `few` each has a number.
#[derive(Clone, Copy, Debug)]
pub struct Records<'a> {
    rest: &'a [u8],
    number: u64,
    ghost few: { number + length rest.now < 2 ^ 64 },
}

// Where the newline stands that closes the record that comes first, if it is closed.
fn newline_at(rest: &[u8]) -> Option<usize>
    ensures { MatchOption result (up_to newline rest.now ≡ length rest.now)
        (λ at. (at ≡ up_to newline rest.now) × (at < length rest.now)) }
{
    fields::first_of(rest, b'\n')
}

// The numbers of a record, of which no kind has more than eight.
pub type Row = ArrayVec<u64, 8>;

// The numbers of a record of a kind: its letter, then as many fields as the kind has. None where the record has not this form.
fn row_of(bytes: &[u8], kind: Kind) -> Option<Row>
    ensures numbers { numbers result ≡ after_letter (kind_of kind).letter (length (kind_of kind).ranges) (fields_of bytes.now) }
    ensures width { IfSome result (λ row. length row.items ≡ length (kind_of kind).ranges) }
{
    // `read_form` fills a row that has its length already: the zeros are that length
    let mut row = Row::from([0; 8]);
    row.truncate(kind.ranges().len());
    fields::read_form(bytes, kind.letter(), row.as_mut_slice())?;
    Some(row)
}

// Whether each number of a record of a kind is in its range.
fn in_ranges(kind: Kind, numbers: &[u64], stations: u64, lines: u64) -> bool
    ensures { result ≡ all_in_range stations lines (value numbers.now 0) (kind_of kind).ranges numbers.now }
{
    let first = numbers.first().copied().unwrap_or(0);
    let context = Context {
        stations,
        lines,
        first,
    };
    ranges::all_in_range(kind.ranges(), numbers, context)
}

// The bytes of the record that comes first, where it is closed, without the newline that closes it; and the bytes behind that newline.
fn first_closed(rest: &[u8]) -> Option<(&[u8], &[u8])>
    ensures bytes { closed_says result ≡ first_closed (records_of rest.now) }
    ensures behind { IfSome result (λ p. p.1.now ≡ drop (up_to newline rest.now + 1) rest.now) }
    ensures shorter { IfSome result (λ p. length p.1.now < length rest.now) }
{
    let end = newline_at(rest)?;
    Some((&rest[..end], &rest[end + 1..]))
}

// The numbers of the record that comes first, which must be of a kind: its form, then the ranges of its numbers; and the bytes behind it.
// The number is the record's own in its file, which a refusal names.
pub fn read_record(
    rest: &[u8],
    number: u64,
    kind: Kind,
    stations: u64,
    lines: u64,
) -> Result<(Row, &[u8]), Refusal>
    ensures numbers { record_says result ≡ next_record stations lines number (kind_of kind) (records_of rest.now) }
    ensures width { IfOk result (λ p. length p.0.items ≡ length (kind_of kind).ranges) }
    ensures ranges { IfOk result (λ p. all_in_range stations lines (value p.0.items 0) (kind_of kind).ranges p.0.items ≡ true) }
    ensures behind { IfOk result (λ p. p.1.now ≡ drop (up_to newline rest.now + 1) rest.now) }
    ensures shorter { IfOk result (λ p. length p.1.now < length rest.now) }
{
    let malformed = Refusal::Malformed { record: number };
    let (bytes, behind) = first_closed(rest).ok_or(malformed)?;
    let row = row_of(bytes, kind).ok_or(malformed)?;
    if !in_ranges(kind, &row, stations, lines) {
        return Err(Refusal::OutOfRange { record: number });
    }
    Ok((row, behind))
}

impl<'a> Records<'a> {
    // The records of a file, from record 1 on.
    pub fn of(file: &'a [u8]) -> Records<'a>
        ensures { (result.rest.now ≡ file.now) × (result.number ≡ 1) }
    {
        Records {
            rest: file,
            number: 1,
        }
    }

    // Whether no record is left.
    pub fn is_empty(&self) -> bool
        ensures { result ≡ eqb (length self.now.rest.now) 0 }
    {
        self.rest.is_empty()
    }

    // The number of the record that comes next.
    pub fn number(&self) -> u64
        ensures { result ≡ self.now.number }
    {
        self.number
    }

    // The numbers of the next record, which must be of a kind. A record that is refused is still the next.
    pub fn next(&mut self, kind: Kind, stations: u64, lines: u64) -> Result<Row, Refusal>
        ensures numbers { read_says result self.new.rest.now
            ≡ next_record stations lines self.old.number (kind_of kind) (records_of self.old.rest.now) }
        ensures width { IfOk result (λ row. length row.items ≡ length (kind_of kind).ranges) }
        ensures ranges { IfOk result (λ row. all_in_range stations lines (value row.items 0) (kind_of kind).ranges row.items ≡ true) }
        ensures goes_on { OnOk result ((self.new.number ≡ self.old.number + 1)
            × (length self.new.rest.now < length self.old.rest.now)) }
        ensures stays { OnErr result (self.new ≡ self.old) }
    {
        let (row, rest) = read_record(self.rest, self.number, kind, stations, lines)?;
        *self = Records {
            rest,
            number: self.number + 1,
        };
        Ok(row)
    }
}
