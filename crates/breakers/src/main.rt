// The program `breakers`: prints what the words behind its name ask for of a network file, and says on standard error why a file, a
// number or a word is refused, or what failed.
#![tactic(auto)]

ghost use Rattle.std.specs.Prelude.{◌≤◌};

use explanations::Explanation;
use model::{Command, Misuse, Refusal, Request};
use printing::{Failure, Served};
use std::env::{Env, FillError};
use std::fmt::{Display, Write};
use std::fs::File;
use std::io::{ErrorKind, IsTerminal, Read};
use std::{io, str};
use usage::Complaint;
use words::{Lent, Name};

// The first three words behind the program's name, empty where there is none, and what they ask for.
#[derive(Clone, Copy)]
struct Words<'a> {
    all: [&'a [u8]; 3],
    asked: Result<Request, Misuse>,
}

// Writes a text, what does not fit into 20,000 bytes left out, by one write. This buffer and those below are
// fixed memory, so that none can be refused.
fn write_text(to: &impl Print, text: &impl Display) -> io::Result<()> {
    let mut buffer = [0u8; 20000];
    let mut lent = Lent::new(&mut buffer);
    let _ = write!(lent, "{text}");
    to.write_all(lent.as_bytes())
}

// Why something failed, without the system's number for it, and the end of the line.
fn write_reason(rt: &HostRuntime, error: io::Error) -> io::Result<()> {
    let Ok(text) = format!(in rt.alloc(); "{error}") else {
        return rt.eprintln(error);
    };
    match text.as_str().split_once(" (os error ") {
        Some((reason, _)) => rt.eprintln(reason),
        None => rt.eprintln(text.as_str()),
    }
}

// The line that says what failed, and why, behind `start`.
fn write_failure(
    rt: &HostRuntime,
    start: &str,
    what: &impl Display,
    error: io::Error,
) -> io::Result<()> {
    rt.eprint(start)?;
    write_text(&rt.stderr(), what)?;
    rt.eprint(": ")?;
    write_reason(rt, error)
}

// Says on standard error what failed, and why.
fn fail(rt: &HostRuntime, what: &impl Display, error: io::Error) {
    let _ = write_failure(rt, "breakers: ", what, error);
}

// Says on standard error why a command was refused on a file.
fn explain(rt: &HostRuntime, command: Command, file: &[u8], refusal: Refusal) {
    let explanation = Explanation {
        command,
        file,
        refusal,
    };
    let _ = write_text(&rt.stderr(), &explanation);
}

// Says on standard error how the words are wrong.
fn complain(rt: &HostRuntime, misuse: Misuse, words: [&[u8]; 3]) {
    let _ = write_text(&rt.stderr(), &Complaint { misuse, words });
}

// Carries out what the words ask for, with the file that `from` gives: prints the answer, and says why it is refused, how the words are
// wrong, or what cannot be read or written.
fn serve<F: Read>(rt: &HostRuntime, words: Words<'_>, from: &mut F, name: &impl Display) {
    let mut file = [0; input::ROOM];
    let help = usage::HELP.as_bytes();
    let version = usage::VERSION.as_bytes();
    let served = printing::serve(
        words.asked,
        help,
        version,
        from,
        &mut file,
        &mut rt.stdout(),
    );
    match served {
        Ok(Served::Answered { command, printed }) => {
            if let Some(refusal) = printed.refusal {
                explain(rt, command, &file[..printed.bytes], refusal);
            }
        }
        Ok(Served::Told) => {}
        Ok(Served::Misused(misuse)) => complain(rt, misuse, words.all),
        Err(Failure::Read(e)) => fail(rt, name, e),
        Err(Failure::Write(e)) => fail(rt, &"standard output", e),
    }
}

// Carries out what the words ask for, with the file of standard input.
fn serve_input(rt: &HostRuntime, words: Words<'_>) {
    if IsTerminal::is_terminal(&rt.stdin()) {
        let _ = rt.eprintln(
            "breakers: reading a network file from standard input (Ctrl-D ends it; breakers help says more)",
        );
    }
    serve(rt, words, &mut rt.stdin(), &"standard input");
}

// The system's number for a name that is too long.
const ENAMETOOLONG: i32 = 36;

// The file at a path, which std takes as UTF-8. One that fills its buffer may have been cut short.
fn open(rt: &HostRuntime, path: &[u8]) -> io::Result<File> {
    if path.len() >= 4096 {
        return Err(io::Error::from_raw_os_error(ENAMETOOLONG));
    }
    match str::from_utf8(path) {
        Ok(text) => File::open(rt, text),
        Err(_) => Err(io::Error::new(
            ErrorKind::InvalidInput,
            "the name is not UTF-8; rename the file, or give it on standard input",
        )),
    }
}

// Carries out what the words ask for, with the file that one of them names. The first may have been meant as a command.
fn serve_file(rt: &HostRuntime, words: Words<'_>, word: usize) {
    let [first, second, third] = words.all;
    let path = arguments::word_at(word, first, second, third);
    let name = Name(path);
    match open(rt, path) {
        Ok(mut file) => serve(rt, words, &mut file, &name),
        Err(e) if word == 1 => {
            let start =
                "breakers: no command (breakers help lists them), and no file that can be read: ";
            let _ = write_failure(rt, start, &name, e);
        }
        Err(e) => fail(rt, &name, e),
    }
}

// Carries out what the words ask for, where that takes no file.
fn serve_alone(rt: &HostRuntime, words: Words<'_>) {
    serve(rt, words, &mut io::empty(), &"no file");
}

// A word behind the program's name, in a buffer, which one that does not fit fills; empty where there is none. A `String` would take
// memory that may be wanting.
fn fetch<'a>(env: &impl Env, i: usize, buf: &'a mut [u8]) -> &'a [u8] {
    match env.arg(i, buf) {
        Ok(n) => &buf[..n],
        Err(FillError::TooLong) => buf,
        Err(FillError::NotPresent) => &[],
    }
}

// How many words there are behind the program's name, up to `most`.
fn word_count(env: &impl Env, most: usize) -> usize
    ensures { result ≤ most }
{
    (0..most)
        .find(|i| matches!(env.arg(*i + 1, &mut []), Err(FillError::NotPresent)))
        .unwrap_or(most)
}

fn main(rt: HostRuntime) {
    // Each word has room for a path.
    let mut first = [0; 4096];
    let mut second = [0; 4096];
    let mut third = [0; 4096];
    let all = [
        fetch(&rt, 1, &mut first),
        fetch(&rt, 2, &mut second),
        fetch(&rt, 3, &mut third),
    ];
    // Four words are too many, whatever follows.
    let count = word_count(&rt, 4);
    let asked = arguments::request(count, all[0], all[1], all[2]);
    let words = Words { all, asked };
    match asked {
        Ok(
            Request::Ask {
                file: Some(word),
                ..
            },
        ) => serve_file(&rt, words, word),
        Ok(
            Request::Ask {
                command: Command::Ceiling { .. },
                ..
            },
        ) => serve_alone(&rt, words),
        Ok(Request::Ask { .. }) => serve_input(&rt, words),
        _ => serve_alone(&rt, words),
    }
}
