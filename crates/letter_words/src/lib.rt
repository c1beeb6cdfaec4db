// A record whose first field is not the letter that is due, in words.
#![tactic(auto)]

use field_words::Content;
use file_parts::{Announced, Record};
use kind_words::{Announcement, Due};
use ranges::Kind;
use std::fmt;

// A record of another kind than the one that is due.
#[derive(Clone, Copy, Debug, PartialEq, Eq)]
struct WrongKind {
    there: Kind,
    due: Due,
    announced: Announced,
    // whether it has as many fields as the record that is due; it has two faults if its letter is right
    has_due_width: bool,
    // whether the kinds of the file's records are out of order
    is_unordered: bool,
}

impl WrongKind {
    // What is too many or too few.
    fn balance(self) -> &'static str {
        match (self.there, self.due) {
            (_, Due::Head) => "",
            (Kind::Head, Due::Place) => {
                " A file has one N record, its first; another file may have been put behind this one."
            }
            (Kind::Head, _) => " A file has one N record, its first.",
            (_, Due::Station { .. }) => {
                " A station is missing before it, not necessarily just before it, or record 1 announces too many."
            }
            (Kind::Station, _) =>
                " A station is too many (perhaps a copy), not necessarily this one, or record 1 announces too few.",
            (_, Due::Line { .. }) => {
                " A line is missing before it, not necessarily just before it, or record 1 announces too many."
            }
            _ =>
                " A line is too many (perhaps a copy), not necessarily the last, or record 1 announces too few.",
        }
    }

    // That the kinds may be out of order.
    fn order_hint(self) -> &'static str {
        if self.is_unordered && (self.there != Kind::Head) {
            " The records may be out of order: N first, then all S, all L, all P."
        } else {
            ""
        }
    }
}

impl fmt::Display for WrongKind {
    fn fmt<W: fmt::Write>(&self, f: &mut fmt::Formatter<W>) -> fmt::Result {
        let letter = self.there.letter() as char;
        write!(
            f,
            "the record begins with {letter}, but due here is {}",
            self.due
        )?;
        match self.due {
            Due::Head => f.write_str(", which comes first.")?,
            _ => write!(f, ", since {}.", Announcement(self.announced))?,
        }
        if self.has_due_width {
            f.write_str(
                " Its letter may be wrong, since it has as many fields as the record that is due.",
            )
        } else {
            f.write_str(self.balance())?;
            f.write_str(self.order_hint())
        }
    }
}

// A first field that is no letter of a kind.
#[derive(Clone, Copy, Debug, PartialEq, Eq)]
struct NoLetter<'a> {
    field: &'a [u8],
    due: Due,
    // whether the letter follows, at the end of the field or as the next one
    letter_follows: bool,
}

impl NoLetter<'_> {
    // What may have happened, and what to do.
    fn hint(self) -> &'static str {
        if !field_words::only_ascii(self.field) {
            return " It has characters that are not plain ASCII (shown as \\x..), though they may look like letters, \
                commas or spaces or be invisible: type the record again, or delete it if it is a heading or a note.";
        }
        if self.letter_follows {
            return " Delete what stands before the letter; a record has no number of its own.";
        }
        match self.field {
            [b'0'..=b'9', ..] if self.due == Due::Head => " Put the letter before it.",
            [b'0'..=b'9', ..] => {
                " Put the letter before it, or join it with the record before it if Enter has split the two."
            }
            [letter, .., b'0'..=b'9'] if *letter == self.due.kind().letter() => {
                " A comma is missing behind the letter, or another sign stands for one."
            }
            [] => " Put the letter before the comma, or delete the record if it is a blank row.",
            [_] => "",
            _ => " If the record is a heading, a note or a blank row, delete it.",
        }
    }
}

impl fmt::Display for NoLetter<'_> {
    fn fmt<W: fmt::Write>(&self, f: &mut fmt::Formatter<W>) -> fmt::Result {
        write!(
            f,
            "its first field is {} and must be the capital letter {} alone, since due here is {}.{}",
            Content(self.field),
            self.due.kind().letter() as char,
            self.due,
            self.hint()
        )
    }
}

// Where a kind comes in a file.
fn rank(kind: Kind) -> usize {
    match kind {
        Kind::Head => 0,
        Kind::Station => 1,
        Kind::Line => 2,
        Kind::Place => 3,
    }
}

// Where the kind of a record comes in a file, if its first byte is the letter of a kind.
fn rank_of(text: &[u8]) -> Option<usize> {
    kind_words::kind_of(*text.first()?).map(rank)
}

// Whether a record of a file stands behind one whose kind comes later.
fn is_unordered(file: &[u8]) -> bool {
    let mut last = 0;
    for text in file.split(|&byte| byte == b'\n') {
        match rank_of(text) {
            Some(rank) if rank < last => return true,
            Some(rank) => last = rank,
            None => {}
        }
    }
    false
}

// What is wrong with the first field of a record.
#[derive(Clone, Copy, Debug, PartialEq, Eq)]
enum Fault<'a> {
    Kind(WrongKind),
    None(NoLetter<'a>),
}

// A first field that is not the letter that is due.
#[derive(Clone, Copy, Debug, PartialEq, Eq)]
pub struct WrongLetter<'a>(Fault<'a>);

impl<'a> WrongLetter<'a> {
    // How the first field of a record of a file is not the letter that is due.
    pub fn find(
        file: &'a [u8],
        record: Record<'a>,
        due: Due,
        announced: Announced,
    ) -> Option<Self> {
        let field = record.field(0);
        let there = match field {
            [letter] => kind_words::kind_of(*letter),
            _ => None,
        };
        match there {
            Some(there) if there == due.kind() => None,
            Some(there) => Some(WrongLetter(Fault::Kind(WrongKind {
                there,
                due,
                announced,
                has_due_width: record.width() == due.kind().ranges().len(),
                is_unordered: is_unordered(file),
            }))),
            None => {
                let letter = [due.kind().letter()];
                Some(WrongLetter(Fault::None(NoLetter {
                    field,
                    due,
                    letter_follows: field.ends_with(&letter)
                        || record.field(1) == letter.as_slice(),
                })))
            }
        }
    }
}

impl fmt::Display for WrongLetter<'_> {
    fn fmt<W: fmt::Write>(&self, f: &mut fmt::Formatter<W>) -> fmt::Result {
        match self.0 {
            Fault::Kind(wrong) => write!(f, "{wrong}"),
            Fault::None(wrong) => write!(f, "{wrong}"),
        }
    }
}
