// A record with too few or too many fields, or split in two, in words.
#![tactic(auto)]

use field_words::{Content, Field, field_name};
use file_parts::Record;
use kind_words::{Count, form};
use ranges::Kind;
use std::fmt;

// The byte that the record behind this one begins with, if it is a comma or a digit: Enter may have split the two.
fn rest_behind(file: &[u8], number: u64) -> Option<u8> {
    let next = Record::find(file, number.checked_add(1)?)?;
    match next.text.first()? {
        &byte @ (b',' | b'0'..=b'9') => Some(byte),
        _ => None,
    }
}

// Whether a field begins and ends with a digit, and has something else between.
fn has_two_numbers(field: &[u8]) -> bool {
    match field {
        [b'0'..=b'9', between @ .., b'0'..=b'9'] => {
            !between.iter().all(|&byte| byte.is_ascii_digit())
        }
        _ => false,
    }
}

// What to do about a record that has too few or too many fields.
#[derive(Clone, Copy, Debug, PartialEq, Eq)]
enum Advice<'a> {
    Delete,
    // two numbers stand in this field
    Part { field: usize, content: &'a [u8] },
    // the next record begins with this byte
    Join { byte: u8 },
    Add,
}

// What to do about a record of a file that has too few fields.
fn advice_to_add<'a>(file: &'a [u8], number: u64, record: Record<'a>) -> Advice<'a> {
    for field in 1..8 {
        let content = record.field(field);
        if has_two_numbers(content) {
            return Advice::Part { field, content };
        }
    }
    match rest_behind(file, number) {
        Some(byte) => Advice::Join { byte },
        None => Advice::Add,
    }
}

// A record of a kind with too few or too many fields.
#[derive(Clone, Copy, Debug, PartialEq, Eq)]
pub struct WrongWidth<'a> {
    width: usize,
    kind: Kind,
    advice: Advice<'a>,
}

impl<'a> WrongWidth<'a> {
    // How a record of a file has too few or too many fields for its kind.
    pub fn find(file: &'a [u8], number: u64, record: Record<'a>, kind: Kind) -> Option<Self> {
        let width = record.width();
        let due = kind.ranges().len();
        if width == due {
            return None;
        }
        let advice = if width > due {
            Advice::Delete
        } else {
            advice_to_add(file, number, record)
        };
        Some(WrongWidth {
            width,
            kind,
            advice,
        })
    }
}

// That a record may go on in the next one, which begins with a comma or a digit.
#[derive(Clone, Copy)]
struct NextBegins(u8);

impl fmt::Display for NextBegins {
    fn fmt<W: fmt::Write>(&self, f: &mut fmt::Formatter<W>) -> fmt::Result {
        f.write_str(if self.0 == b',' {
            "the next, which begins with a comma"
        } else {
            "the next, which begins with a digit"
        })
    }
}

// A record whose last field is empty, before one that may be its rest.
#[derive(Clone, Copy, Debug, PartialEq, Eq)]
pub struct SplitRecord {
    kind: Kind,
    byte: u8,
}

impl SplitRecord {
    // How a record of a file with all fields of its kind may be split in two.
    pub fn find(file: &[u8], number: u64, record: Record<'_>, kind: Kind) -> Option<Self> {
        if !record.text.ends_with(b",") {
            return None;
        }
        let byte = rest_behind(file, number)?;
        Some(SplitRecord { kind, byte })
    }
}

impl fmt::Display for SplitRecord {
    fn fmt<W: fmt::Write>(&self, f: &mut fmt::Formatter<W>) -> fmt::Result {
        let SplitRecord { kind, byte } = *self;
        let last = Field {
            kind,
            field: kind.ranges().len(),
        };
        let next = NextBegins(byte);
        write!(
            f,
            "{last} is empty; write what is missing, or join the record with {next}."
        )
    }
}

impl fmt::Display for WrongWidth<'_> {
    fn fmt<W: fmt::Write>(&self, f: &mut fmt::Formatter<W>) -> fmt::Result {
        let WrongWidth {
            width,
            kind,
            advice,
        } = *self;
        let due = kind.ranges().len();
        let fields = Count(width as u64, "field");
        write!(
            f,
            "it has {fields} behind the letter instead of {due}: {}. ",
            form(kind)
        )?;
        match advice {
            Advice::Delete => f.write_str(
                "Delete what is too much, or begin a new record with it; \
                a number has no commas in it, no comma stands at the end, and a record has no number of its own.",
            ),
            Advice::Part { field, content } => write!(
                f,
                "Field {field} ({}) is {}: a comma is missing in it, or another sign stands for one.",
                field_name(kind, field),
                Content(content)
            ),
            Advice::Join { byte } => write!(
                f,
                "Add what is missing, or join the record with {}.",
                NextBegins(byte)
            ),
            Advice::Add => f.write_str("Add the field or the comma that is missing."),
        }
    }
}
