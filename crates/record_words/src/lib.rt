// Why a record of a network file was refused with 1, 2 or 3, in words for the planner who wrote it.
#![tactic(auto)]

use field_words::WrongField;
use file_parts::{Announced, Record};
use kind_words::{Announcement, Due, form};
use letter_words::WrongLetter;
use model::Refusal;
use place_words::WrongPlace;
use ranges::Kind;
use std::fmt;
use text_words::WrongText;
use width_words::{SplitRecord, WrongWidth};

// What is wrong with a record or with the file.
#[derive(Clone, Copy, Debug, PartialEq, Eq)]
enum Fault<'a> {
    // the file has over 32,768 bytes
    TooLong,
    // the file has no bytes
    EmptyFile,
    // the file ends before the record
    Absent { due: Due, announced: Announced },
    WrongText(WrongText<'a>),
    // the fields are parted by something else than commas
    NoCommas { kind: Kind },
    WrongLetter(WrongLetter<'a>),
    WrongWidth(WrongWidth<'a>),
    SplitRecord(SplitRecord),
    WrongField(WrongField<'a>),
    WrongPlace(WrongPlace),
}

// Why a file was refused, in words; what a network file holds if the file and the refusal do not belong together.
#[derive(Clone, Copy, Debug, PartialEq, Eq)]
pub struct Explanation<'a>(Option<Fault<'a>>);

// What is wrong where a file ends before a record.
fn absence(file: &[u8], number: u64) -> Option<Fault<'_>> {
    if file.is_empty() {
        return Some(Fault::EmptyFile);
    }
    let announced = Announced::by(file);
    match Due::at(number, announced) {
        Due::Place => None,
        due => Some(Fault::Absent { due, announced }),
    }
}

// Whether the fields of a record are parted by something else than commas. Where no letter of a kind is there, it is taken for the one
// that is due.
fn parted_fault(text: &[u8], due: Kind) -> Option<Fault<'_>> {
    let letter = match text {
        [letter, b';' | b'\t', ..] | [letter, b' ', .., b'0'..=b'9'] => *letter,
        _ => return None,
    };
    if text.contains(&b',') {
        return None;
    }
    let kind = kind_words::kind_of(letter).unwrap_or(due);
    Some(Fault::NoCommas { kind })
}

// What is wrong with a record of a file.
fn record_fault<'a>(file: &'a [u8], number: u64, record: Record<'a>) -> Option<Fault<'a>> {
    let announced = Announced::by(file);
    let due = Due::at(number, announced);
    let kind = due.kind();
    if let Some(wrong) = WrongText::find(file, number, record) {
        return Some(Fault::WrongText(wrong));
    }
    if let Some(fault) = parted_fault(record.text, kind) {
        return Some(fault);
    }
    if let Some(wrong) = WrongLetter::find(file, record, due, announced) {
        return Some(Fault::WrongLetter(wrong));
    }
    if let Some(wrong) = WrongWidth::find(file, number, record, kind) {
        return Some(Fault::WrongWidth(wrong));
    }
    if let Some(wrong) = SplitRecord::find(file, number, record, kind) {
        return Some(Fault::SplitRecord(wrong));
    }
    WrongField::no_number(record, kind, announced).map(Fault::WrongField)
}

// Whether a file is too long.
fn length_fault(file: &[u8]) -> Option<Fault<'_>> {
    let too_long = file.len() > 32768;
    too_long.then_some(Fault::TooLong)
}

// How a file or one of its records has the wrong form.
fn form_fault(file: &[u8], number: u64) -> Option<Fault<'_>> {
    if let Some(fault) = length_fault(file) {
        return Some(fault);
    }
    if number == 0 {
        return None;
    }
    match Record::find(file, number) {
        Some(record) => record_fault(file, number, record),
        None => absence(file, number),
    }
}

// How a number of a record is out of its range.
fn range_fault(file: &[u8], number: u64) -> Option<Fault<'_>> {
    let announced = Announced::by(file);
    let record = Record::find(file, number)?;
    let kind = Due::at(number, announced).kind();
    WrongField::out_of_range(record, kind, announced).map(Fault::WrongField)
}

// What is wrong with a place.
fn place_fault(file: &[u8], number: u64) -> Option<Fault<'_>> {
    let wrong = WrongPlace::find(file, number)?;
    Some(Fault::WrongPlace(wrong))
}

// Why a file was refused with 1, 2 or 3.
pub fn explain(file: &[u8], refusal: Refusal) -> Explanation<'_> {
    Explanation(match refusal {
        Refusal::TooLong => length_fault(file),
        Refusal::Malformed { record } => form_fault(file, record),
        Refusal::OutOfRange { record } => range_fault(file, record),
        Refusal::Misplaced { record } => place_fault(file, record),
        _ => None,
    })
}

impl fmt::Display for Fault<'_> {
    fn fmt<W: fmt::Write>(&self, f: &mut fmt::Formatter<W>) -> fmt::Result {
        match *self {
            Fault::TooLong => f.write_str(
                "the file has more than 32,768 bytes, the most that a network file may have; \
                no network needs so many, so look whether it is the right file.",
            ),
            Fault::EmptyFile => {
                write!(
                    f,
                    "the file, or what came on standard input, is empty; its first record is {}.",
                    form(Kind::Head)
                )
            }
            Fault::Absent { due, announced } => write!(
                f,
                "the file ends before this record; due here is {due}, since {}. \
                Add the missing records or correct record 1.",
                Announcement(announced)
            ),
            Fault::WrongText(wrong) => write!(f, "{wrong}"),
            Fault::NoCommas { kind } => write!(
                f,
                "there is no comma in the record; \
                part its fields by commas, not by semicolons, tabs or spaces: {}.",
                form(kind)
            ),
            Fault::WrongLetter(wrong) => write!(f, "{wrong}"),
            Fault::WrongWidth(wrong) => write!(f, "{wrong}"),
            Fault::SplitRecord(wrong) => write!(f, "{wrong}"),
            Fault::WrongField(wrong) => write!(f, "{wrong}"),
            Fault::WrongPlace(wrong) => write!(f, "{wrong}"),
        }
    }
}

impl fmt::Display for Explanation<'_> {
    fn fmt<W: fmt::Write>(&self, f: &mut fmt::Formatter<W>) -> fmt::Result {
        match self.0 {
            Some(fault) => write!(f, "{fault}"),
            None => write!(
                f,
                "a network file has one record {}, then its {}, its {} and its {}.",
                form(Kind::Head),
                form(Kind::Station),
                form(Kind::Line),
                form(Kind::Place)
            ),
        }
    }
}
