// A command carried out: the network file read to its end from what gives it, and the answer printed to what takes it. Readers and writers
// are types of any kind: of one whose bytes are known the clauses say which are read and which are written. That the system's own
// are such is assumed.
#![tactic(auto)]

ghost use Rattle.std.specs.Prelude.{◌≡◌, ◌≤◌, IfSome, OnOk, IfOk, IfErr, length, take};
ghost use Rattle.std.specs.Io.KnownBytes.{Appends};
ghost use Rattle.model.specs.Commands.{prints, commanded};
ghost use Rattle.input.specs.Reading.{ReadsAll};
ghost use Rattle.commands.specs.Told.{Told};
ghost use Rattle.printing.specs.declared.Served.{Served};
ghost use Rattle.printing.specs.Asked.{text_of, Answers};
ghost use Rattle.printing.specs.Failing.{Failed, IsWrite, Fails};

use model::{Command, Misuse, Refusal, Request};
use std::io;
use std::io::{Read, Write};

// What failed: the file could not be read, and nothing is printed; or the answer could not be written, or not all of it.
#[derive(Debug, Drop)]
pub enum Failure {
    Read(io::Error),
    Write(io::Error),
}

// What is printed for a file: how many bytes of it were read, and the refusal that is printed, if one is.
#[derive(Clone, Copy, Debug, PartialEq, Eq)]
pub struct Printed {
    pub bytes: usize,
    pub refusal: Option<Refusal>,
}

// Prints what a command answers for a file, and nothing else. Answers the refusal that this says, if it says one.
pub fn print<W: Write>(command: Command, file: &[u8], to: &mut W) -> io::Result<Option<Refusal>>
    ensures printed { OnOk result (Appends (W.contents to.old) (W.contents to.new) (prints command file.now)) }
    ensures told { IfOk result (λ refusal. Told refusal (commanded command file.now)) }
{
    let mut out = [0; commands::ROOM];
    let said = commands::answer(command, file, &mut out);
    to.write_all(&out[..said.bytes])?;
    Ok(said.refusal)
}

// Reads a file to its end, into a buffer that holds one byte more than a file may have, and prints what a command answers for it.
pub fn run<R: Read, W: Write>(
    command: Command,
    from: &mut R,
    file: &mut [u8],
    to: &mut W,
) -> Result<Printed, Failure>
    requires { length file.old ≡ 32769 }
    ensures printed { OnOk result (IfSome (R.remaining from.old)
        (λ bytes. Appends (W.contents to.old) (W.contents to.new) (prints command bytes))) }
    ensures bound { IfOk result (λ p. p.bytes ≤ length file.new) }
    ensures read { IfOk result (λ p. ReadsAll (R.remaining from.old) (length file.new) (take p.bytes file.new)) }
    ensures told { IfOk result (λ p. Told p.refusal (commanded command (take p.bytes file.new))) }
    ensures failed { IfErr result (λ e. Failed e (R.remaining from.old) (W.contents to.old) (W.contents to.new) file.new) }
{
    match input::read(from, file) {
        Err(e) => Err(Failure::Read(e)),
        Ok(bytes) => match print(command, &file[..bytes], to) {
            Err(e) => Err(Failure::Write(e)),
            Ok(refusal) => Ok(Printed { bytes, refusal }),
        },
    }
}

// What came of what the words behind the program's name ask for.
#[derive(Clone, Copy, Debug, PartialEq, Eq)]
pub enum Served {
    // what a command answers is printed
    Answered { command: Command, printed: Printed },
    // the help or the version is printed
    Told,
    // nothing is printed, since the words are wrong
    Misused(Misuse),
}

// Prints a text of the program's own.
fn tell<W: Write>(text: &[u8], to: &mut W) -> Result<Served, Failure>
    ensures printed { OnOk result (Appends (W.contents to.old) (W.contents to.new) text.now) }
    ensures told { IfOk result (λ served. served ≡ Served.Told) }
    ensures failed { IfErr result IsWrite }
{
    match to.write_all(text) {
        Ok(()) => Ok(Served::Told),
        Err(e) => Err(Failure::Write(e)),
    }
}

// Carries out what the words behind the program's name ask for: prints what a command answers for the file that `from` gives, or the help,
// or the version, or nothing where the words are wrong.
pub fn serve<R: Read, W: Write>(
    asked: Result<Request, Misuse>,
    help: &[u8],
    version: &[u8],
    from: &mut R,
    file: &mut [u8],
    to: &mut W,
) -> Result<Served, Failure>
    requires { length file.old ≡ 32769 }
    ensures printed { OnOk result (IfSome (R.remaining from.old)
        (λ bytes. Appends (W.contents to.old) (W.contents to.new) (text_of asked help.now version.now bytes))) }
    ensures answered { IfOk result (λ served. Answers served asked (R.remaining from.old) file.new) }
    ensures failed { IfErr result
        (λ e. Fails asked e (R.remaining from.old) (W.contents to.old) (W.contents to.new) file.new) }
{
    match asked {
        Err(misuse) => Ok(Served::Misused(misuse)),
        Ok(Request::Help) => tell(help, to),
        Ok(Request::Version) => tell(version, to),
        Ok(Request::Ask { command, .. }) => {
            match run(command, from, file, to) {
                Ok(printed) => Ok(Served::Answered { command, printed }),
                Err(failure) => Err(failure),
            }
        }
    }
}
