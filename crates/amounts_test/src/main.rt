// Prints the outage total of a feeder with three lines, growing line by line, and how totals compare.
#![tactic(auto)]

ghost use Rattle.std.specs.Prelude.{◌≡◌, ◌+◌, ◌*◌, ◌^◌, ◌<◌};

use amounts::{Customers, Total, Weight};
use std::io;

// The total with the outage amount of one more line.
fn with_line(total: Total, weight: u64, customers: u64) -> Total
    requires { total.0 + weight * customers < 2 ^ 64 }
    ensures { result.0 ≡ total.0 + weight * customers }
{
    total + Weight(weight) * Customers(customers)
}

fn show(rt: &impl Print, total: Total) -> io::Result<()> {
    println!(rt; "{}", u64::from(total))
}

fn show_below(rt: &impl Print, a: Total, b: Total) -> io::Result<()> {
    println!(rt; "{}", u8::from(a < b))
}

fn show_can_pass(rt: &impl Print, a: Total, more: u64, b: Total) -> io::Result<()>
    requires { a.0 + more < 2 ^ 64 }
{
    println!(rt; "{}", u8::from(a.can_pass(more, b)))
}

fn main(rt: HostRuntime) -> io::Result<()> {
    let first = with_line(Total::ZERO, 2, 60);
    let second = with_line(first, 3, 60);
    let third = with_line(second, 5, 60);
    show(&rt, Total::ZERO)?;
    show(&rt, first)?;
    show(&rt, second)?;
    show(&rt, third)?;
    show_below(&rt, first, second)?;
    show_below(&rt, second, first)?;
    show_below(&rt, third, third)?;
    show_below(&rt, Total::ZERO, first)?;
    show_can_pass(&rt, first, 179, second)?;
    show_can_pass(&rt, first, 180, second)?;
    show_can_pass(&rt, first, 181, second)
}
