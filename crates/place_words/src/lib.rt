// Why a place was refused with 3, in words.
#![tactic(auto)]

ghost use Rattle.std.specs.Prelude.{◌≤◌};

use file_parts::{Announced, Record};
use network::Side;
use std::cmp::Ordering;
use std::fmt;

// An end, 1 or 2, of a line that a file can have.
#[derive(Clone, Copy, Debug, PartialEq, Eq, PartialOrd, Ord)]
struct End {
    line: u64,
    side: Side,
    ghost few_lines: { line ≤ 768 },
}

impl End {
    // The end that a place names, if a file can have it.
    fn named_by(place: Record<'_>) -> Option<End> {
        match (place.number(1)?, place.number(2)?) {
            (line @ 1..=768, side @ 1..=2) => Some(End {
                line,
                side: Side::of(side as usize),
            }),
            _ => None,
        }
    }
}

impl fmt::Display for End {
    fn fmt<W: fmt::Write>(&self, f: &mut fmt::Formatter<W>) -> fmt::Result {
        write!(f, "line {}, end {}", self.line, self.side.number())
    }
}

// What an end has or is that can get no breaker.
#[derive(Clone, Copy, Debug, PartialEq, Eq)]
enum Taken {
    Breaker,
    Open,
}

impl fmt::Display for Taken {
    fn fmt<W: fmt::Write>(&self, f: &mut fmt::Formatter<W>) -> fmt::Result {
        f.write_str(match self {
            Taken::Breaker => "has a breaker already",
            Taken::Open => "is kept open",
        })
    }
}

// What is wrong with a place.
#[derive(Clone, Copy, Debug, PartialEq, Eq)]
enum Fault {
    // it is the 65th
    TooMany,
    // it names the end that the record before it names
    Twice { end: End },
    // it names an end that comes before the one that the record before it names
    Unsorted { end: End, before: End },
    // its end is not plain in the record of its line
    NotPlain { end: End, taken: Taken, record: u64 },
}

// How a place is out of order behind one that names the end `before`.
fn order_fault(end: End, before: End) -> Option<Fault> {
    match before.cmp(&end) {
        Ordering::Less => None,
        Ordering::Equal => Some(Fault::Twice { end }),
        Ordering::Greater => Some(Fault::Unsorted { end, before }),
    }
}

// How the end of a place is not plain.
fn state_fault(file: &[u8], announced: Announced, end: End) -> Option<Fault> {
    let record = 1 + announced.stations + end.line;
    let field = 3 + end.side.number();
    let taken = match Record::find(file, record)?.number(field)? {
        1 => Taken::Breaker,
        2 => Taken::Open,
        _ => return None,
    };
    Some(Fault::NotPlain { end, taken, record })
}

// Why a place was refused.
#[derive(Clone, Copy, Debug, PartialEq, Eq)]
pub struct WrongPlace(Fault);

impl WrongPlace {
    // What is wrong with the place at a record of a file.
    pub fn find(file: &[u8], record: u64) -> Option<Self> {
        let announced = Announced::by(file);
        let place = Record::find(file, record)?;
        let places_before = record.checked_sub(announced.first_place())?;
        if places_before > 63 {
            return Some(WrongPlace(Fault::TooMany));
        }
        let end = End::named_by(place)?;
        let before = if places_before > 0 {
            Record::find(file, record - 1).and_then(End::named_by)
        } else {
            None
        };
        before
            .and_then(|before| order_fault(end, before))
            .or_else(|| state_fault(file, announced, end))
            .map(WrongPlace)
    }
}

impl fmt::Display for WrongPlace {
    fn fmt<W: fmt::Write>(&self, f: &mut fmt::Formatter<W>) -> fmt::Result {
        match self.0 {
            Fault::TooMany => f.write_str(
                "it is the 65th place, and a file has at most 64; delete this place or another.",
            ),
            Fault::Twice { end } => write!(
                f,
                "it names {end}, as the record before it does: correct the line or end of one of the two \
                (if lines were put in, taken out or swapped, those of other places too), or delete one."
            ),
            Fault::Unsorted { end, before } => write!(
                f,
                "it names {end}, but the record before it names {before}: correct the line or end of one of the two \
                (if lines were put in, taken out or swapped, those of other places too), or sort the places by line, then by end."
            ),
            Fault::NotPlain { end, taken, record } => write!(
                f,
                "it names {end}, which {taken} (state{} of record {record}): correct its line or end \
                (if lines were put in, taken out or swapped, those of other places too), correct that record, or delete this place.",
                end.side.number()
            ),
        }
    }
}
