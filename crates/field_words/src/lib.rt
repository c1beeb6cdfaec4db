// Fields of a record in words: what they are called, what stands there and what is allowed. The fields behind the letter are counted
// from 1.
#![tactic(auto)]

use file_parts::{Announced, Record};
use kind_words::Count;
use model::Range;
use ranges::{Context, Kind};
use std::cmp::Ordering;
use std::fmt;
use words::Quoted;

// What a field of a kind of record is called; nothing if there is no such field.
pub fn field_name(kind: Kind, field: usize) -> &'static str {
    kind_words::form(kind).split(',').nth(field).unwrap_or("")
}

// A field of a kind of record, as "field 3 behind the letter L (to)".
#[derive(Clone, Copy, Debug, PartialEq, Eq)]
pub struct Field {
    pub kind: Kind,
    pub field: usize,
}

impl fmt::Display for Field {
    fn fmt<W: fmt::Write>(&self, f: &mut fmt::Formatter<W>) -> fmt::Result {
        let Field { kind, field } = *self;
        let letter = kind.letter() as char;
        let name = field_name(kind, field);
        write!(f, "field {field} behind the letter {letter} ({name})")
    }
}

// What stands in a field.
#[derive(Clone, Copy, Debug, PartialEq, Eq)]
pub struct Content<'a>(pub &'a [u8]);

impl fmt::Display for Content<'_> {
    fn fmt<W: fmt::Write>(&self, f: &mut fmt::Formatter<W>) -> fmt::Result {
        match self.0 {
            [] => f.write_str("empty"),
            bytes => write!(f, "{}", Quoted(bytes)),
        }
    }
}

// Whether each of some bytes is a digit or this byte.
fn only_digits_and(bytes: &[u8], other: u8) -> bool {
    bytes
        .iter()
        .all(|&byte| byte == other || byte.is_ascii_digit())
}

// Whether bytes are digits and letters that look like some: O for 0, l or I for 1.
fn only_like_digits(bytes: &[u8]) -> bool {
    bytes.iter().all(|&byte| matches!(byte, b'0'..=b'9' | b'O' | b'o' | b'l' | b'I'))
}

// Whether each of some bytes is a letter.
fn only_letters(bytes: &[u8]) -> bool {
    bytes
        .iter()
        .all(|&byte| matches!(byte, b'a'..=b'z' | b'A'..=b'Z'))
}

// Whether all bytes are ASCII.
pub fn only_ascii(bytes: &[u8]) -> bool {
    bytes.iter().all(|&byte| byte < 128)
}

// Why bytes with something else than digits and spaces are no number.
fn sign_fault(bytes: &[u8]) -> &'static str {
    if !only_ascii(bytes) {
        ": it has characters that are not plain ASCII (shown as \\x..), though they may look like digits or spaces \
        or be invisible; type the field again"
    } else if only_like_digits(bytes) {
        ": a letter stands in it for a digit (O for 0, or l or I for 1)"
    } else if bytes.contains(&b'"') {
        ": a number has no quotation marks"
    } else if bytes.len() > 1 && only_letters(bytes) {
        ": a number has only the digits 0 to 9, no sign, point or unit (if the record is a heading, delete it)"
    } else {
        ": a number has only the digits 0 to 9, no sign, point or unit"
    }
}

// Why the bytes of a field are no number; nothing of a field that is empty.
fn number_fault(bytes: &[u8]) -> &'static str {
    if bytes.is_empty() {
        ""
    } else if only_digits_and(bytes, b'0') {
        if bytes.starts_with(b"0") {
            ": a number does not begin with 0, unless it is 0"
        } else {
            ": a number has at most 10 digits"
        }
    } else if only_digits_and(bytes, b' ') {
        ": a number has no spaces in it"
    } else if only_digits_and(bytes, b'\t') {
        ": a number has no tabs in it"
    } else {
        sign_fault(bytes)
    }
}

// What is found in a field that is wrong: bytes that are no number, or a number out of its range.
#[derive(Clone, Copy, Debug, PartialEq, Eq)]
enum Found<'a> {
    Bytes(&'a [u8]),
    Number(u64),
}

impl fmt::Display for Found<'_> {
    fn fmt<W: fmt::Write>(&self, f: &mut fmt::Formatter<W>) -> fmt::Result {
        match *self {
            Found::Bytes(bytes) => write!(f, "{}{}", Content(bytes), number_fault(bytes)),
            Found::Number(n) => write!(f, "{n}"),
        }
    }
}

// The numbers from the least to the largest.
#[derive(Clone, Copy)]
struct Limits {
    least: u64,
    largest: u64,
}

impl fmt::Display for Limits {
    fn fmt<W: fmt::Write>(&self, f: &mut fmt::Formatter<W>) -> fmt::Result {
        let Limits { least, largest } = *self;
        match least.cmp(&largest) {
            Ordering::Less => write!(f, "allowed is {least} to {largest}"),
            Ordering::Equal => write!(f, "allowed is only {least}"),
            Ordering::Greater => f.write_str("no number is possible"),
        }
    }
}

// Why some numbers are allowed for a field of a kind of record.
#[derive(Clone, Copy)]
struct Reason {
    kind: Kind,
    field: usize,
    context: Context,
}

impl fmt::Display for Reason {
    fn fmt<W: fmt::Write>(&self, f: &mut fmt::Formatter<W>) -> fmt::Result {
        let Context {
            stations,
            lines,
            first,
        } = self.context;
        match (self.kind, self.field) {
            (Kind::Station, 1) => f.write_str(": 0 for an MV station, 1 for an HV station"),
            (Kind::Station, _) if first == 1 => {
                f.write_str(
                    ", since an HV station (role 1) has no customers; \
                if it is an MV station, keep them and write role 0",
                )
            }
            (Kind::Line, 1) => f.write_str(" millionths of a failure a year"),
            (Kind::Line, 2 | 3) => {
                write!(
                    f,
                    ", since record 1 announces {}; \
                    a station put in or taken out changes the numbers of all later ones",
                    Count(stations, "station")
                )
            }
            (Kind::Line, _) => {
                f.write_str(": 0 for a plain end, 1 for a breaker, 2 for an open end")
            }
            (Kind::Place, 1) if lines == 0 => f.write_str(
                ", since record 1 announces 0 lines, and without lines there are no places",
            ),
            (Kind::Place, 1) => write!(
                f,
                ", since record 1 announces {}; \
                a line put in or taken out changes the numbers of all later ones",
                Count(lines, "line")
            ),
            (Kind::Place, 2) => f.write_str(
                ": 1 for the end at the line's station from, 2 for the end at its station to",
            ),
            _ => Ok(()),
        }
    }
}

// A field of a kind of record, what is wrong in it, and what is allowed there.
#[derive(Clone, Copy, Debug, PartialEq, Eq)]
pub struct WrongField<'a> {
    kind: Kind,
    field: usize,
    found: Found<'a>,
    range: Range,
    context: Context,
}

// What the ranges of a record's numbers depend on.
fn context_of(record: Record<'_>, announced: Announced) -> Context {
    Context {
        stations: announced.stations,
        lines: announced.lines,
        first: record.number(1).unwrap_or(0),
    }
}

impl<'a> WrongField<'a> {
    // The first field of a record that is no number.
    pub fn no_number(record: Record<'a>, kind: Kind, announced: Announced) -> Option<Self> {
        let (range, field) = kind
            .ranges()
            .iter()
            .zip(1..)
            .find(|(_, field)| record.number(*field).is_none())?;
        Some(WrongField {
            kind,
            field,
            found: Found::Bytes(record.field(field)),
            range: *range,
            context: context_of(record, announced),
        })
    }

    // The first field of a record that is out of its range, if each is a number.
    pub fn out_of_range(record: Record<'a>, kind: Kind, announced: Announced) -> Option<Self> {
        if Self::no_number(record, kind, announced).is_some() {
            return None;
        }
        let context = context_of(record, announced);
        for (range, field) in kind.ranges().iter().zip(1..) {
            let number = record.number(field)?;
            if !ranges::in_range(*range, number, context) {
                return Some(WrongField {
                    kind,
                    field,
                    found: Found::Number(number),
                    range: *range,
                    context,
                });
            }
        }
        None
    }
}

impl fmt::Display for WrongField<'_> {
    fn fmt<W: fmt::Write>(&self, f: &mut fmt::Formatter<W>) -> fmt::Result {
        let WrongField {
            kind,
            field,
            found,
            range,
            context,
        } = *self;
        let place = Field { kind, field };
        let limits = Limits {
            least: range.least,
            largest: ranges::largest_of(range.largest, context),
        };
        let reason = Reason {
            kind,
            field,
            context,
        };
        write!(f, "{place} is {found}; {limits}{reason}.")
    }
}
