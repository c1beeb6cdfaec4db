// What the program says of itself: its help, its version, and how the words behind its name are wrong.
#![tactic(auto)]

use model::Misuse;
use std::fmt;
use words::Quoted;

// The version of the engine. crates/jubaxendi/jubaxendi.h has the same in JUBAXENDI_VERSION; tests/commands compares them.
pub const VERSION: &str = "breakers 1.2.0\n";

// How the program is called, and what it prints for each command.
pub const HELP: &str = "usage: breakers [COMMAND [NUMBERS]] [FILE]\n\
    \n\
    Reads a network file, from standard input if no FILE is named, and prints rows of\n\
    a letter and numbers. A file that is refused gives X,number,record on standard\n\
    output and the reason in words on standard error.\n\
    \n\
    report    the default: A as below, F,line,impact,weight x impact of each line, C and B\n\
    check     K if the file is accepted\n\
    impact LINE\n\
    \x20         I,line,customers that a fault on the line cuts off\n\
    total     A,total,figure\n\
    search    C,1 finished or 0 spent,visits,added breakers,total with them,\n\
    \x20         and B,line,end of each added breaker\n\
    segments  G,breaker ends, and T,line,end,weights,customers,product of each\n\
    ceiling PLACES ADDITIONS\n\
    \x20         M,places,additions,how many sets of at most so many places there are\n\
    help      this text\n\
    version   the version of the engine\n\
    \n\
    A file called like a command is given with its folder, as ./report.\n\
    Status of the script ./breakers: 0 answered, 1 refused, 2 nothing printed.\n\
    docs/FORMAT.md explains the network file and every refusal, README.md the rows.\n";

// How the words behind the program's name, the first three of them, are wrong, as one line.
#[derive(Clone, Copy, Debug, PartialEq, Eq)]
pub struct Complaint<'a> {
    pub misuse: Misuse,
    pub words: [&'a [u8]; 3],
}

impl fmt::Display for Complaint<'_> {
    fn fmt<W: fmt::Write>(&self, f: &mut fmt::Formatter<W>) -> fmt::Result {
        let [first, second, third] = self.words;
        f.write_str("breakers: ")?;
        match self.misuse {
            Misuse::NoNumber if first == b"impact".as_slice() => f.write_str(
                "impact takes the number of a line: breakers impact LINE [FILE]",
            )?,
            Misuse::NoNumber => f.write_str(
                "ceiling takes two numbers: breakers ceiling PLACES ADDITIONS",
            )?,
            Misuse::BadNumber { word } => {
                let bad = if word == 2 { second } else { third };
                write!(
                    f,
                    "{} is no number; a number has 1 to 10 digits and does not begin with 0, unless it is 0",
                    Quoted(bad)
                )?;
            }
            Misuse::TooMany => f.write_str("too many arguments")?,
            Misuse::Unknown => write!(
                f,
                "{} is no command; the command comes first, then its numbers, then the file",
                Quoted(first)
            )?,
        }
        f.write_str(" (breakers help lists the commands)\n")
    }
}
