// The words behind the program's name: what they ask for. The first three are slices, and of the others only their number counts: a
// list of all would need room for each.
#![tactic(auto)]

ghost use Rattle.std.specs.Prelude.{◌≡◌, []};
ghost use Rattle.model.specs.declared.Word.{Word};
ghost use Rattle.model.specs.declared.Misuse.{Misuse};
ghost use Rattle.model.specs.Format.{number_of};
ghost use Rattle.arguments.specs.Numbers.{number_or};
ghost use Rattle.arguments.specs.Names.{word_at};
ghost use Rattle.model.specs.Commands.{word_of, alone, with_file, impact_asked, ceiling_asked, asked, requested};

use model::{Command, Misuse, Request, Word};

// What the first word stands for. `From<&[u8]> for Word` would be no plainer, and would have to stand in crate `model`, beside the type.
fn word_of(word: &[u8]) -> Word
    ensures { result ≡ word_of word.now }
{
    let words: [(&[u8], Word); 11] = [
        (b"report", Word::Report),
        (b"check", Word::Check),
        (b"total", Word::Total),
        (b"search", Word::Search),
        (b"segments", Word::Segments),
        (b"impact", Word::Impact),
        (b"ceiling", Word::Ceiling),
        (b"help", Word::Help),
        (b"--help", Word::Help),
        (b"-h", Word::Help),
        (b"version", Word::Version),
    ];
    let known = words.iter().find(|(name, _)| word == *name);
    match known {
        Some((_, stands)) => *stands,
        None => Word::Other,
    }
}

// A request that takes none of the words that are left.
#[tactic(auto, unfolding(model::specs::Commands::alone))]
fn by_itself(request: Request, left: usize) -> Result<Request, Misuse>
    ensures { result ≡ alone request left }
{
    if left == 0 {
        Ok(request)
    } else {
        Err(Misuse::TooMany)
    }
}

// A command whose file is named by the word that is left, number `next`, or comes from standard input.
#[tactic(auto, unfolding(model::specs::Commands::with_file))]
fn with_file(command: Command, next: usize, left: usize) -> Result<Request, Misuse>
    ensures { result ≡ with_file command next left }
{
    match left {
        0 => Ok(Request::Ask {
            command,
            file: None,
        }),
        1 => Ok(Request::Ask {
            command,
            file: Some(next),
        }),
        _ => Err(Misuse::TooMany),
    }
}

// The number that a word is, which is word `word` behind the program's name.
fn number_at(word: usize, bytes: &[u8]) -> Result<u64, Misuse>
    ensures { result ≡ number_or (Misuse.BadNumber word) (number_of bytes.now) }
{
    fields::read_number(bytes).ok_or(Misuse::BadNumber { word })
}

// impact LINE
#[tactic(auto, unfolding(model::specs::Commands::impact_asked))]
fn impact_asked(left: usize, line: &[u8]) -> Result<Request, Misuse>
    ensures { result ≡ impact_asked left (number_of line.now) }
{
    if left == 0 {
        return Err(Misuse::NoNumber);
    }
    let line = number_at(2, line)?;
    with_file(Command::Impact(line), 3, left - 1)
}

// ceiling PLACES ADDITIONS
#[tactic(auto, unfolding(model::specs::Commands::ceiling_asked, model::specs::Commands::sets_asked))]
fn ceiling_asked(left: usize, second: &[u8], third: &[u8]) -> Result<Request, Misuse>
    ensures { result ≡ ceiling_asked left (number_of second.now) (number_of third.now) }
{
    if left < 2 {
        return Err(Misuse::NoNumber);
    }
    let places = number_at(2, second)?;
    let additions = number_at(3, third)?;
    let command = Command::Ceiling { places, additions };
    by_itself(
        Request::Ask {
            command,
            file: None,
        },
        left - 2,
    )
}

// The only word that is no command names the file of a report.
#[tactic(auto, unfolding(model::specs::Commands::asked))]
fn file_asked(left: usize) -> Result<Request, Misuse>
    ensures { result ≡ asked Word.Other left [] [] }
{
    if left == 0 {
        return Ok(Request::Ask {
            command: Command::Report,
            file: Some(1),
        });
    }
    Err(Misuse::Unknown)
}

// What is asked for, by the first word, how many words are left behind it, and the next two of them.
#[tactic(auto, unfolding(model::specs::Commands::asked))]
fn asked_by(word: Word, left: usize, second: &[u8], third: &[u8]) -> Result<Request, Misuse>
    ensures { result ≡ asked word left second.now third.now }
{
    match word {
        Word::Report => with_file(Command::Report, 2, left),
        Word::Check => with_file(Command::Check, 2, left),
        Word::Impact => impact_asked(left, second),
        Word::Total => with_file(Command::Total, 2, left),
        Word::Search => with_file(Command::Search, 2, left),
        Word::Segments => with_file(Command::Segments, 2, left),
        Word::Ceiling => ceiling_asked(left, second, third),
        Word::Help => by_itself(Request::Help, left),
        Word::Version => by_itself(Request::Version, left),
        Word::Other => file_asked(left),
    }
}

// What `count` words ask for, of which the first three are given; those that are not there do not matter.
#[tactic(auto, unfolding(model::specs::Commands::requested))]
pub fn request(count: usize, first: &[u8], second: &[u8], third: &[u8]) -> Result<Request, Misuse>
    ensures { result ≡ requested count first.now second.now third.now }
{
    if count == 0 {
        return Ok(Request::Ask {
            command: Command::Report,
            file: None,
        });
    }
    if 3 < count {
        return Err(Misuse::TooMany);
    }
    asked_by(word_of(first), count - 1, second, third)
}

// The word that names the file: the first, the second or the third.
pub fn word_at<'a>(word: usize, first: &'a [u8], second: &'a [u8], third: &'a [u8]) -> &'a [u8]
    ensures { result.now ≡ word_at word first.now second.now third.now }
{
    match word {
        1 => first,
        2 => second,
        _ => third,
    }
}
