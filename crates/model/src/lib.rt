// The types that the definitions in specs/ share with the engine's code.
#![tactic(auto)]

ghost use Rattle.std.specs.Prelude.{◌≡◌};
ghost use Rattle.model.specs.Answer.{refusal_number, refusal_record};

// The largest value of a field: a number, the file's number of stations or of lines, or a number that is 0 at an HV station.
#[derive(Clone, Copy, Debug, PartialEq, Eq)]
pub enum Largest {
    Number(u64),
    Stations,
    Lines,
    NoneAtHv(u64),
}

// The least and the largest value of a field.
#[derive(Clone, Copy, Debug, PartialEq, Eq)]
pub struct Range {
    pub least: u64,
    pub largest: Largest,
}

// The head of a network file: how many stations and lines it has, the mean outage duration in minutes, the most breakers that a path may
// pass, how many may be added, for how much money and in how many hours, and the most visits of a search.
#[derive(Clone, Copy, Debug, Default, PartialEq, Eq)]
pub struct Head {
    pub stations: usize,
    pub lines: usize,
    pub minutes: u64,
    pub series: u64,
    pub adds: usize,
    pub money: u64,
    pub hours: u64,
    pub visits: u64,
}

// Why a file, a number or a lent buffer is refused, with the record that the refusal names. specs/Answer.antt gives each its number.
#[derive(Clone, Copy, Debug, PartialEq, Eq)]
pub enum Refusal {
    // 1: over 32,768 bytes
    TooLong,
    // 1: a record of the wrong kind or form, unclosed, absent or extra
    Malformed { record: u64 },
    // 2: a value out of its range
    OutOfRange { record: u64 },
    // 2: the line number of Impact, or a number of Ceiling, out of its range
    NoSuchNumber,
    // 3: a place out of order, on a breaker or an open end, or the 65th
    Misplaced { record: u64 },
    // 4: a line with both ends open
    OpenLine { record: u64 },
    // 5: a line with a plain end at an HV station
    PlainAtHv { record: u64 },
    // 6: a path returns to its start
    Ring,
    // 7: two HV stations are joined
    Joined,
    // 8: a station without supply
    Unsupplied { record: u64 },
    // 9: too many breakers in series
    OverSeries,
    // 10: a lent buffer is too short
    ShortBuffer,
}

impl Refusal {
    // The number of the refusal.
    pub fn number(self) -> u64
        ensures { result ≡ refusal_number self }
    {
        match self {
            Refusal::TooLong | Refusal::Malformed { .. } => 1,
            Refusal::OutOfRange { .. } | Refusal::NoSuchNumber => 2,
            Refusal::Misplaced { .. } => 3,
            Refusal::OpenLine { .. } => 4,
            Refusal::PlainAtHv { .. } => 5,
            Refusal::Ring => 6,
            Refusal::Joined => 7,
            Refusal::Unsupplied { .. } => 8,
            Refusal::OverSeries => 9,
            Refusal::ShortBuffer => 10,
        }
    }

    // The record that the refusal names, 0 if it names none: C and the rows that are printed have it as this number.
    pub fn record(self) -> u64
        ensures { result ≡ refusal_record self }
    {
        match self {
            Refusal::Malformed { record }
            | Refusal::OutOfRange { record }
            | Refusal::Misplaced { record }
            | Refusal::OpenLine { record }
            | Refusal::PlainAtHv { record }
            | Refusal::Unsupplied { record } => record,
            Refusal::TooLong
            | Refusal::NoSuchNumber
            | Refusal::Ring
            | Refusal::Joined
            | Refusal::OverSeries
            | Refusal::ShortBuffer => 0,
        }
    }
}

// What Total answers: the outage total of the file, and its SAIDI figure.
#[derive(Clone, Copy, Debug, PartialEq, Eq)]
pub struct Totals {
    pub total: u64,
    pub figure: u64,
}

// What Search answers: whether it finished or is spent, how many places the best set has, its total, and how many sets were visited.
#[derive(Clone, Copy, Debug, PartialEq, Eq)]
pub struct Outcome {
    pub finished: bool,
    pub members: usize,
    pub total: u64,
    pub visits: u64,
}

// What the program can be asked for: a call, with its numbers.
#[derive(Clone, Copy, Debug, PartialEq, Eq)]
pub enum Command {
    Report,
    Check,
    Impact(u64),
    Total,
    Search,
    Segments,
    Ceiling { places: u64, additions: u64 },
}

// The first word behind the program's name: the command that it names, or another word.
#[derive(Clone, Copy, Debug, PartialEq, Eq)]
pub enum Word {
    Report,
    Check,
    Impact,
    Total,
    Search,
    Segments,
    Ceiling,
    Help,
    Version,
    Other,
}

// What the words behind the program's name ask for: a command, with the word that names the file, if one does; the help or the version.
#[derive(Clone, Copy, Debug, PartialEq, Eq)]
pub enum Request {
    Ask {
        command: Command,
        file: Option<usize>,
    },
    Help,
    Version,
}

// How the words behind the program's name are wrong, with the word that is no number.
#[derive(Clone, Copy, Debug, PartialEq, Eq)]
pub enum Misuse {
    NoNumber,
    BadNumber { word: usize },
    TooMany,
    Unknown,
}
