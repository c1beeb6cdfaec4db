// Prints lines of one number and a line of four.
#![tactic(auto)]

ghost use Rattle.std.specs.Prelude.{◌≤◌, length};

use std::io;

fn show(rt: &impl Print, letter: u8, numbers: &[u64]) -> io::Result<()>
    requires { length numbers.now ≤ 4 }
{
    // Room for the longest line, lent as C lends it.
    let mut line = [0u8; 86];
    let n = text::put_line(&mut line, letter, numbers);
    rt.write_all(&line[..n])
}

fn show_number(rt: &impl Print, n: u64) -> io::Result<()> {
    show(rt, b'A', &[n])
}

fn main(rt: HostRuntime) -> io::Result<()> {
    show_number(&rt, 0)?;
    show_number(&rt, 9)?;
    show_number(&rt, 10)?;
    show_number(&rt, 99)?;
    show_number(&rt, 100)?;
    show_number(&rt, 12345678901234567890)?;
    show_number(&rt, 18446744073709551615)?;
    show(&rt, b'C', &[1, 4096, 16, 18446744073709551615])
}
