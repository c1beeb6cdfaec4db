// The kinds of record of a network file, and the ranges of their numbers.
#![tactic(auto)]

ghost use Rattle.std.specs.Prelude.{◌≡◌, ◌<◌, length};
ghost use Rattle.model.specs.Ranges.{in_range, all_in_range, largest_of};
ghost use Rattle.model.specs.Network.{value};
ghost use Rattle.ranges.specs.Kinds.{kind_of};

use model::{Largest, Range};

// The kinds of record: N, S, L and P.
#[derive(Clone, Copy, Debug, PartialEq, Eq)]
pub enum Kind {
    Head,
    Station,
    Line,
    Place,
}

// stations, lines, minutes, series, adds, money, hours, visits
const HEAD: [Range; 8] = [
    Range {
        least: 1,
        largest: Largest::Number(512),
    },
    Range {
        least: 0,
        largest: Largest::Number(768),
    },
    Range {
        least: 0,
        largest: Largest::Number(1440),
    },
    Range {
        least: 1,
        largest: Largest::Number(8),
    },
    Range {
        least: 0,
        largest: Largest::Number(16),
    },
    Range {
        least: 0,
        largest: Largest::Number(100000000),
    },
    Range {
        least: 0,
        largest: Largest::Number(100000),
    },
    Range {
        least: 1,
        largest: Largest::Number(1000000000),
    },
];

// role, customers
const STATION: [Range; 2] = [
    Range {
        least: 0,
        largest: Largest::Number(1),
    },
    Range {
        least: 0,
        largest: Largest::NoneAtHv(20000),
    },
];

// weight, from, to, state1, state2
const LINE: [Range; 5] = [
    Range {
        least: 0,
        largest: Largest::Number(1000000),
    },
    Range {
        least: 1,
        largest: Largest::Stations,
    },
    Range {
        least: 1,
        largest: Largest::Stations,
    },
    Range {
        least: 0,
        largest: Largest::Number(2),
    },
    Range {
        least: 0,
        largest: Largest::Number(2),
    },
];

// line, end, cost, hours
const PLACE: [Range; 4] = [
    Range {
        least: 1,
        largest: Largest::Lines,
    },
    Range {
        least: 1,
        largest: Largest::Number(2),
    },
    Range {
        least: 0,
        largest: Largest::Number(1000000),
    },
    Range {
        least: 0,
        largest: Largest::Number(1000),
    },
];

impl Kind {
    // The letter with which a record of the kind begins.
    pub fn letter(self) -> u8
        ensures { result ≡ (kind_of self).letter }
    {
        match self {
            Kind::Head => b'N',
            Kind::Station => b'S',
            Kind::Line => b'L',
            Kind::Place => b'P',
        }
    }

    // The ranges of the numbers behind the letter.
    pub fn ranges(self) -> &'static [Range]
        ensures ranges { result.now ≡ (kind_of self).ranges }
        ensures few { length result.now < 9 }
    {
        match self {
            Kind::Head => &HEAD,
            Kind::Station => &STATION,
            Kind::Line => &LINE,
            Kind::Place => &PLACE,
        }
    }
}

// The file and the record that a number stands in, as far as its range depends on them: how many stations and lines the file has, and
// the first number of the record.
#[derive(Clone, Copy, Debug, PartialEq, Eq)]
pub struct Context {
    pub stations: u64,
    pub lines: u64,
    pub first: u64,
}

// The number that a largest value stands for.
pub fn largest_of(largest: Largest, context: Context) -> u64
    ensures { result ≡ largest_of context.stations context.lines context.first largest }
{
    match largest {
        Largest::Number(n) => n,
        Largest::Stations => context.stations,
        Largest::Lines => context.lines,
        Largest::NoneAtHv(n) => {
            let at_hv = context.first == 1;
            if at_hv { 0 } else { n }
        }
    }
}

// Whether a value is in a range.
pub fn in_range(range: Range, value: u64, context: Context) -> bool
    ensures { result ≡ in_range context.stations context.lines context.first range value }
{
    let most = largest_of(range.largest, context);
    range.least <= value && value <= most
}

// Whether each number of a record is in its range.
pub fn all_in_range(ranges: &[Range], numbers: &[u64], context: Context) -> bool
    ensures { result ≡ all_in_range context.stations context.lines context.first ranges.now numbers.now }
{
    ranges
        .iter()
        .zip(numbers)
        .all(|(range, number)| in_range(*range, *number, context))
}
