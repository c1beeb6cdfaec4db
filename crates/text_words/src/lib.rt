// What is wrong with a record before its fields are looked at: how the file is saved, what cannot be seen, what stands before the letter.
#![tactic(auto)]

use file_parts::{Announced, Record};
use std::fmt;
use words::Quoted;

// What is wrong with the text of a record.
#[derive(Clone, Copy, Debug, PartialEq, Eq)]
pub enum WrongText<'a> {
    // the file is not saved as plain text
    ByteOrderMark,
    NotPlainText,
    CarriageReturn,
    // spaces and tabs as all of a record, or behind the last newline
    Blank,
    BlankEnd,
    // control characters as all of a record, behind the last newline, or behind the start of a record
    Controls,
    ControlsEnd,
    Control { before: &'a [u8] },
    // no newline ends the last record, at the end of the file or before the last station or line that record 1 announces
    NoNewline,
    CutOff { last: u64 },
    Empty,
    // what stands before the letter, or begins a comment
    Space,
    Tab,
    QuotationMark,
    Comment { mark: u8 },
}

// How a file is not saved as plain text, by the bytes of its first record.
fn encoding_fault(text: &[u8], number: u64) -> Option<WrongText<'_>> {
    if number != 1 {
        return None;
    }
    match text {
        [0xef, 0xbb, ..] => Some(WrongText::ByteOrderMark),
        [0xff, 0xfe, ..] | [0xfe, 0xff, ..] => Some(WrongText::NotPlainText),
        _ if text.contains(&0) => Some(WrongText::NotPlainText),
        _ => None,
    }
}

// Whether a byte is a control character, which editors do not show. A tab is none here: it is shown as space.
fn is_control(byte: u8) -> bool {
    matches!(byte, 0..=8 | 10..=31 | 127)
}

// Whether there is a text, and nothing of it can be seen.
fn is_unseen(text: &[u8]) -> bool {
    !text.is_empty()
        && text
            .iter()
            .all(|&byte| byte == b' ' || byte == b'\t' || is_control(byte))
}

// What cannot be seen in a text, which may stand behind the last newline of a file.
fn unseen_fault(text: &[u8], is_behind: bool) -> Option<WrongText<'_>> {
    let before = text.split(|&byte| is_control(byte)).next().unwrap_or(&[]);
    let has_control = before.len() < text.len();
    match (is_unseen(text), has_control, is_behind) {
        (true, false, false) => Some(WrongText::Blank),
        (true, false, true) => Some(WrongText::BlankEnd),
        (true, true, false) => Some(WrongText::Controls),
        (true, true, true) => Some(WrongText::ControlsEnd),
        (false, true, _) => Some(WrongText::Control { before }),
        (false, false, _) => None,
    }
}

// The record of the last station or line that a file announces, if its record 1 has all fields.
fn last_announced(file: &[u8]) -> Option<u64> {
    let head = Record::find(file, 1)?;
    let Announced { stations, lines } = Announced::by(file);
    (head.width() == 8).then_some(1 + stations + lines)
}

// How a last record is not ended.
fn unclosed_fault(file: &[u8], number: u64) -> WrongText<'_> {
    match last_announced(file) {
        Some(last) if number < last => WrongText::CutOff { last },
        _ => WrongText::NoNewline,
    }
}

// What stands before the letter of a record, or that the record is empty or a comment.
fn start_fault(text: &[u8]) -> Option<WrongText<'_>> {
    match text {
        [] => Some(WrongText::Empty),
        [b' ', ..] => Some(WrongText::Space),
        [b'\t', ..] => Some(WrongText::Tab),
        [b'"', ..] => Some(WrongText::QuotationMark),
        &[mark @ (b'#' | b'/' | b';' | b'-'), ..] => Some(WrongText::Comment { mark }),
        _ => None,
    }
}

impl<'a> WrongText<'a> {
    // What is wrong with the text of a record of a file.
    pub fn find(file: &'a [u8], number: u64, record: Record<'a>) -> Option<Self> {
        let Record { text, is_closed } = record;
        if let Some(fault) = encoding_fault(text, number) {
            return Some(fault);
        }
        if text.contains(&b'\r') {
            return Some(WrongText::CarriageReturn);
        }
        let is_behind = number > 1 && !is_closed;
        if let Some(fault) = unseen_fault(text, is_behind) {
            return Some(fault);
        }
        if is_closed {
            start_fault(text)
        } else {
            Some(unclosed_fault(file, number))
        }
    }

    // What is wrong and what to do, where this is the same for all files.
    fn words(self) -> &'static str {
        match self {
            WrongText::ByteOrderMark => {
                "the file begins with a byte order mark, which editors do not show; \
                save it as plain text, that is as ASCII or as UTF-8 without a byte order mark (BOM)."
            }
            WrongText::NotPlainText => {
                "the file is not plain text but UTF-16 or a program's own format (of a spreadsheet, say); \
                save it as plain text, that is as ASCII or as UTF-8 without a byte order mark (BOM)."
            }
            WrongText::CarriageReturn => {
                "the record has a carriage return in it, as files from Windows or an old Mac have; \
                save the file with Unix line ends (LF, a newline only); \
                docs/FORMAT.md says how, also for a spreadsheet's file."
            }
            WrongText::Blank =>
                "the record has only spaces or tabs in it; delete the whole record.",
            WrongText::BlankEnd => {
                "behind the last newline of the file stand only spaces or tabs; delete them."
            }
            WrongText::Controls => {
                "the record has only invisible control characters (such as NUL or Ctrl-Z) in it; \
                delete the whole record, or copy the other records into a new file."
            }
            WrongText::ControlsEnd => {
                "behind the last record stand invisible control characters (such as NUL or Ctrl-Z); \
                delete them, or copy the records into a new file."
            }
            WrongText::Control { .. } => {
                "an invisible control character (such as NUL or Ctrl-Z) stands in the record"
            }
            WrongText::NoNewline | WrongText::CutOff { .. } => {
                "no newline ends this record, the last of the file; \
                if it is complete, press Enter behind it and save the file."
            }
            WrongText::Empty => {
                "the record is empty; delete it. A network file has no empty records, not even at its end."
            }
            WrongText::Space => {
                "the record begins with a space; delete it, so that the letter comes first."
            }
            WrongText::Tab => {
                "the record begins with a tab; delete it, so that the letter comes first."
            }
            WrongText::QuotationMark => {
                "the record begins with a quotation mark; write letters and numbers without quotation marks."
            }
            WrongText::Comment { .. } => "the record begins with",
        }
    }
}

impl fmt::Display for WrongText<'_> {
    fn fmt<W: fmt::Write>(&self, f: &mut fmt::Formatter<W>) -> fmt::Result {
        f.write_str(self.words())?;
        match *self {
            WrongText::Control { before: [] } => {
                f.write_str(", at its start; delete it, or type the record again.")
            }
            WrongText::Control { before } => write!(
                f,
                " behind {}; delete it, or type the record again.",
                Quoted(before)
            ),
            WrongText::CutOff { last } => write!(
                f,
                " Record 1 announces records up to {last}, so the file may be cut off."
            ),
            WrongText::Comment { mark } => write!(
                f,
                " {}; delete that sign if a record stands behind it, and the whole record if it is a comment: a network file has none.",
                Quoted(&[mark])
            ),
            _ => Ok(()),
        }
    }
}
