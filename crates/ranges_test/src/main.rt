// Prints, for each kind of record and each field, which of some values are in range, in a file of 7 stations and 5 lines; all
// of it for three first numbers of the record.
#![tactic(auto)]

use model::{Largest, Range};
use ranges::{Context, Kind};
use std::io;

const KINDS: [Kind; 4] = [Kind::Head, Kind::Station, Kind::Line, Kind::Place];

// What stands where a kind has no further field.
const NONE: Range = Range {
    least: 0,
    largest: Largest::Number(0),
};

const VALUES: [u64; 32] = [
    0,
    1,
    2,
    3,
    4,
    5,
    6,
    7,
    8,
    9,
    16,
    17,
    512,
    513,
    768,
    769,
    1000,
    1001,
    1440,
    1441,
    20000,
    20001,
    100000,
    100001,
    1000000,
    1000001,
    100000000,
    100000001,
    1000000000,
    1000000001,
    9999999999,
    18446744073709551615,
];

fn show(rt: &impl Print, range: Range, context: Context) -> io::Result<()> {
    for value in &VALUES {
        let held = ranges::in_range(range, *value, context);
        print!(rt; "{}", u8::from(held))?;
    }
    println!(rt)
}

fn show_kind(rt: &impl Print, kind: Kind, context: Context) -> io::Result<()> {
    for field in 0..8 {
        let range = kind.ranges().get(field).copied().unwrap_or(NONE);
        show(rt, range, context)?;
    }
    Ok(())
}

fn show_table(rt: &impl Print, first: u64) -> io::Result<()> {
    let context = Context {
        stations: 7,
        lines: 5,
        first,
    };
    for kind in &KINDS {
        show_kind(rt, *kind, context)?;
    }
    Ok(())
}

fn main(rt: HostRuntime) -> io::Result<()> {
    for first in 0..3 {
        show_table(&rt, first)?;
    }
    Ok(())
}
