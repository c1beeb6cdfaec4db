// Records and fields of a file that need not be well formed. Records are counted from 1; field 0 of a record is its letter, and the
// fields behind it are counted from 1.
#![tactic(auto)]

ghost use Rattle.std.specs.Prelude.{◌≤◌};

// A record without its newline, and whether a newline ends it.
#[derive(Clone, Copy, Debug, PartialEq, Eq)]
pub struct Record<'a> {
    pub text: &'a [u8],
    pub is_closed: bool,
}

impl<'a> Record<'a> {
    // A record of a file by its number, unless the file ends before it.
    pub fn find(file: &'a [u8], number: u64) -> Option<Self> {
        let before = number.checked_sub(1)? as usize;
        match file.split_inclusive(|&byte| byte == b'\n').nth(before)? {
            [text @ .., b'\n'] => Some(Record {
                text,
                is_closed: true,
            }),
            text => Some(Record {
                text,
                is_closed: false,
            }),
        }
    }

    // A field of the record; empty if there is none.
    pub fn field(self, field: usize) -> &'a [u8] {
        self.text
            .split(|&byte| byte == b',')
            .nth(field)
            .unwrap_or(&[])
    }

    // The number in a field of the record, if it is one.
    pub fn number(self, field: usize) -> Option<u64> {
        fields::read_number(self.field(field))
    }

    // How many fields stand behind the letter of the record.
    pub fn width(self) -> usize {
        self.text.iter().filter(|&&byte| byte == b',').count()
    }
}

// How many stations and how many lines record 1 of a file announces; 0 of them where it has no number, or one that no file may have.
#[derive(Clone, Copy, Debug, PartialEq, Eq)]
pub struct Announced {
    pub stations: u64,
    pub lines: u64,
    ghost few_stations: { stations ≤ 768 },
    ghost few_lines: { lines ≤ 768 },
}

impl Announced {
    // What a file announces.
    pub fn by(file: &[u8]) -> Self {
        Announced {
            stations: count_in(file, 1),
            lines: count_in(file, 2),
        }
    }

    // The record of the first place.
    pub fn first_place(self) -> u64 {
        2 + self.stations + self.lines
    }
}

// The number of stations or lines in a field of record 1; 0 where it has none, so that no record of them is due.
fn count_in(file: &[u8], field: usize) -> u64
    ensures { result ≤ 768 }
{
    let count = Record::find(file, 1).and_then(|head| head.number(field));
    match count {
        Some(n) if n <= 768 => n,
        _ => 0,
    }
}
