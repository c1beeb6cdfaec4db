// Prints what Ceiling answers for 0 to 65 places and 0 to 17 additions, and for numbers far outside its ranges.
#![tactic(auto)]

use std::io;

fn show(rt: &impl Print, places: u64, additions: u64) -> io::Result<()> {
    match binomials::ceiling(places, additions) {
        Ok(n) => println!(rt; "{n}"),
        Err(refusal) => println!(rt; "X,{},{}", refusal.number(), refusal.record()),
    }
}

fn show_row(rt: &impl Print, places: u64) -> io::Result<()> {
    for additions in 0..18 {
        show(rt, places, additions)?;
    }
    Ok(())
}

fn main(rt: HostRuntime) -> io::Result<()> {
    for places in 0..66 {
        show_row(&rt, places)?;
    }
    show(&rt, u64::MAX, 0)?;
    show(&rt, 0, u64::MAX)?;
    show(&rt, 4294967296, 4294967296)?;
    show(&rt, 64, 256)?;
    show(&rt, 256, 16)
}
