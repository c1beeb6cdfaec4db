// Kinds of record in words: their forms, and which kind is due where.
#![tactic(auto)]

ghost use Rattle.std.specs.Prelude.{◌≡◌, IfSome};
ghost use Rattle.ranges.specs.Kinds.{kind_of};

use file_parts::Announced;
use ranges::Kind;
use std::cmp::Ordering;
use std::fmt;

// The form of a record of a kind.
pub fn form(kind: Kind) -> &'static str {
    match kind {
        Kind::Head => "N,stations,lines,minutes,series,adds,money,hours,visits",
        Kind::Station => "S,role,customers",
        Kind::Line => "L,weight,from,to,state1,state2",
        Kind::Place => "P,line,end,cost,hours",
    }
}

// The kind that a letter stands for. A letter of no kind is no error here: so it is an Option, and no TryFrom, which would be no plainer.
pub fn kind_of(letter: u8) -> Option<Kind>
    ensures { IfSome result (λ kind. (kind_of kind).letter ≡ letter) }
{
    [Kind::Head, Kind::Station, Kind::Line, Kind::Place]
        .into_iter()
        .find(|kind| kind.letter() == letter)
}

// So many of something, as "7 stations".
#[derive(Clone, Copy, Debug, PartialEq, Eq)]
pub struct Count<'a>(pub u64, pub &'a str);

impl fmt::Display for Count<'_> {
    fn fmt<W: fmt::Write>(&self, f: &mut fmt::Formatter<W>) -> fmt::Result {
        let Count(n, name) = *self;
        let ending = if n == 1 { "" } else { "s" };
        write!(f, "{n} {name}{ending}")
    }
}

// The records from `first` to `last` between parentheses; nothing if there are none.
#[derive(Clone, Copy)]
struct Records {
    first: u64,
    last: u64,
}

impl fmt::Display for Records {
    fn fmt<W: fmt::Write>(&self, f: &mut fmt::Formatter<W>) -> fmt::Result {
        let Records { first, last } = *self;
        match first.cmp(&last) {
            Ordering::Less => write!(f, " (records {first} to {last})"),
            Ordering::Equal => write!(f, " (record {last})"),
            Ordering::Greater => Ok(()),
        }
    }
}

// What record 1 announces, as "record 1 announces 7 stations (records 2 to 8) and 1 line (record 9)".
#[derive(Clone, Copy, Debug, PartialEq, Eq)]
pub struct Announcement(pub Announced);

impl fmt::Display for Announcement {
    fn fmt<W: fmt::Write>(&self, f: &mut fmt::Formatter<W>) -> fmt::Result {
        let Announced { stations, lines } = self.0;
        let of_stations = Records {
            first: 2,
            last: 1 + stations,
        };
        let of_lines = Records {
            first: 2 + stations,
            last: 1 + stations + lines,
        };
        let stations = Count(stations, "station");
        let lines = Count(lines, "line");
        write!(
            f,
            "record 1 announces {stations}{of_stations} and {lines}{of_lines}"
        )
    }
}

// What is due at a record: the head of the file, the station or line with a number of so many, or a place.
#[derive(Clone, Copy, Debug, PartialEq, Eq)]
pub enum Due {
    Head,
    Station { number: u64, of: u64 },
    Line { number: u64, of: u64 },
    Place,
}

impl Due {
    // What is due at a record of a file, by what its record 1 announces.
    pub fn at(record: u64, announced: Announced) -> Due {
        let Announced { stations, lines } = announced;
        if record < 2 {
            Due::Head
        } else if record < 2 + stations {
            Due::Station {
                number: record - 1,
                of: stations,
            }
        } else if record < announced.first_place() {
            Due::Line {
                number: record - 1 - stations,
                of: lines,
            }
        } else {
            Due::Place
        }
    }

    // The kind of record that is due.
    pub fn kind(self) -> Kind {
        match self {
            Due::Head => Kind::Head,
            Due::Station { .. } => Kind::Station,
            Due::Line { .. } => Kind::Line,
            Due::Place => Kind::Place,
        }
    }
}

// What is due, with its form, as "line 2 of 3 (L,weight,from,to,state1,state2)".
impl fmt::Display for Due {
    fn fmt<W: fmt::Write>(&self, f: &mut fmt::Formatter<W>) -> fmt::Result {
        match *self {
            Due::Head => f.write_str("the head of the file")?,
            Due::Station { number, of } => write!(f, "station {number} of {of}")?,
            Due::Line { number, of } => write!(f, "line {number} of {of}")?,
            Due::Place => f.write_str("the end of the file or a place")?,
        }
        write!(f, " ({})", form(self.kind()))
    }
}
