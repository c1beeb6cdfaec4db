// A network in memory: its head, stations, lines and places. Stations, lines and places have the file's numbers, from 1.
#![tactic(auto)]

ghost use Rattle.std.specs.Prelude.{◌≡◌, ◌≤◌, ◌<◌, length, map, [], ◌-◌};
ghost use Rattle.model.specs.Lists.{numbered, renumbered};
ghost use Rattle.model.specs.Network.{state_at};
ghost use Rattle.model.specs.Paths.{no_station, state, station_at, is_hv, customers_of, is_plain, is_breaker, is_open};
ghost use Rattle.model.specs.Sets.{place_at};
ghost use Rattle.network.specs.View.{state_number, side_number, station_of_held, line_of_held, place_of_held, station_at_end};
ghost use Rattle.network.specs.There.{StationThere, LineThere, PlaceThere, line_in, other_end, place_end};
ghost use Rattle.network.specs.Changed.{line_with_state, line_with_weight, with_lines, with_state, with_weight, with_adds, with_place, with_first_places, with_one_more, with_one_more_station, with_one_more_line};

use arrayvec::ArrayVec;
use model::Head;
use std::marker::Model;

// The most stations, lines and places that a network has.
pub const STATIONS: usize = 512;

pub const LINES: usize = 768;

pub const PLACES: usize = 64;

// The role of a station.
#[derive(Clone, Copy, Debug, Default, PartialEq, Eq)]
pub enum Role {
    #[default]
    Mv,
    Hv,
}

// The state of a line's end.
#[derive(Clone, Copy, Debug, Default, PartialEq, Eq)]
pub enum State {
    #[default]
    Plain,
    Breaker,
    Open,
}

// An end of a line: end 1 is at its station `from`, end 2 at `to`.
#[derive(Clone, Copy, Debug, Default, PartialEq, Eq, PartialOrd, Ord)]
pub enum Side {
    #[default]
    One,
    Two,
}

impl Side {
    // The end with a number, 1 or 2. It asks for one of these, so it is no `From`; `number` is its inverse and named like it.
    pub fn of(number: usize) -> Side
        requires { (1 ≤ number) × (number ≤ 2) }
        ensures { side_number result ≡ number }
    {
        if number == 1 { Side::One } else { Side::Two }
    }

    // The number of the end, 1 or 2.
    pub fn number(self) -> usize
        ensures { result ≡ side_number self }
    {
        match self {
            Side::One => 1,
            Side::Two => 2,
        }
    }

    // The other end of the line.
    pub fn other(self) -> Side
        ensures { side_number result ≡ 3 - side_number self }
    {
        match self {
            Side::One => Side::Two,
            Side::Two => Side::One,
        }
    }
}

// An end of a line. A clause sees it as the definitions' record.
#[derive(Clone, Copy, Debug, Default, PartialEq, Eq)]
pub struct End {
    pub line: usize,
    pub side: Side,
}

impl Model for End {
    ghost use Rattle.model.specs.Paths.{End as EdgeEnd};

    ghost Value = { EdgeEnd };

    ghost use Rattle.network.specs.View.{side_number, side_of, side_again};

    ghost view = { λ e. record { line = e.line; side = side_number e.side } };

    ghost inverse = { λ e. record { line = e.line; side = side_of e.side } };

    ghost inverse_ok = { λ e h i. record { line = e.line; side = side_again e.side i } };
}

impl End {
    // The other end of the line.
    pub fn other(self) -> End
        ensures { result ≡ other_end self }
    {
        End {
            line: self.line,
            side: self.side.other(),
        }
    }
}

#[derive(Clone, Copy, Debug, Default, PartialEq, Eq)]
pub struct Station {
    pub role: Role,
    pub customers: u64,
}

// A line, with the state of each end.
#[derive(Clone, Copy, Debug, Default, PartialEq, Eq)]
pub struct Line {
    pub weight: u64,
    pub from: usize,
    pub to: usize,
    pub state1: State,
    pub state2: State,
}

impl Line {
    // The state of an end.
    pub fn state(&self, side: Side) -> State
        ensures { state_number result ≡ state_at (line_of_held self.now) (side_number side) }
    {
        match side {
            Side::One => self.state1,
            Side::Two => self.state2,
        }
    }

    // The station that an end is at.
    pub fn station(&self, side: Side) -> usize
        ensures { result ≡ station_at_end (line_of_held self.now) (side_number side) }
    {
        match side {
            Side::One => self.from,
            Side::Two => self.to,
        }
    }
}

impl Line {
    // The line with another state at an end.
    pub fn with_state(self, side: Side, state: State) -> Line
        ensures { line_of_held result ≡ line_with_state (side_number side) (state_number state) (line_of_held self) }
    {
        match side {
            Side::One => Line {
                state1: state,
                ..self
            },
            Side::Two => Line {
                state2: state,
                ..self
            },
        }
    }

    // The line with another weight.
    #[tactic(auto, unfolding(crate::specs::Changed::line_with_weight))]
    pub fn with_weight(self, weight: u64) -> Line
        ensures { line_of_held result ≡ line_with_weight weight (line_of_held self) }
    {
        Line { weight, ..self }
    }
}

// A place that may get a breaker, with what that takes.
#[derive(Clone, Copy, Debug, Default, PartialEq, Eq)]
pub struct Place {
    pub line: usize,
    pub side: Side,
    pub cost: u64,
    pub hours: u64,
}

// A network. A clause sees it as the definitions' record. It is filled and changed where it lies, since there is no heap: so that it
// was read from a file, keeps the rules or is accepted (`Read`, `Rules`, `Accepted`) is no invariant of the type, but stands in the
// clauses. So does that a number is one of a station, line or place (`StationThere`, `LineThere`, `PlaceThere`), which depends on the
// network: a type of such numbers would have to borrow it. A table by lines asks less, that it has the number (`LineHeld`): a type for
// this alone would be made anew at each call, and would be no plainer.
#[derive(Drop)]
pub struct Network {
    head: Head,
    stations: ArrayVec<Station, STATIONS>,
    lines: ArrayVec<Line, LINES>,
    places: ArrayVec<Place, PLACES>,
}

impl Model for Network {
    ghost use Rattle.std.specs.Prelude.{map};
    ghost use Rattle.model.specs.Network.{Network as Net};
    ghost use Rattle.network.specs.View.{station_of_held, line_of_held, place_of_held};

    ghost Value = { Net };

    ghost view = { λ n. record {
      head = n.head;
      stations = map station_of_held n.stations.items;
      lines = map line_of_held n.lines.items;
      places = map place_of_held n.places.items;
    } };
}

impl Network {
    // The network with a head, without stations, lines and places.
    pub fn new(head: Head) -> Network
        ensures { result ≡ record { head = head; stations = []; lines = []; places = [] } }
    {
        Network {
            head,
            stations: ArrayVec::new(),
            lines: ArrayVec::new(),
            places: ArrayVec::new(),
        }
    }

    pub fn head(&self) -> &Head
        ensures { result.now ≡ self.now.head }
    {
        &self.head
    }

    // The stations, and so the lines and places. The functions below that are alike for the three stay apart: each promises its own
    // field of the definitions' record, and one generic function would need a trait with that field, its record and its numbers.
    pub fn stations(&self) -> &[Station]
        ensures { map station_of_held result.now ≡ self.now.stations }
    {
        self.stations.as_slice()
    }

    pub fn lines(&self) -> &[Line]
        ensures { map line_of_held result.now ≡ self.now.lines }
    {
        self.lines.as_slice()
    }

    pub fn places(&self) -> &[Place]
        ensures { map place_of_held result.now ≡ self.now.places }
    {
        self.places.as_slice()
    }

    // How many stations, lines and places there are.
    pub fn station_count(&self) -> usize
        ensures count { result ≡ length self.now.stations }
        ensures few { result ≤ 512 }
    {
        self.stations.len()
    }

    pub fn line_count(&self) -> usize
        ensures count { result ≡ length self.now.lines }
        ensures few { result ≤ 768 }
    {
        self.lines.len()
    }

    pub fn place_count(&self) -> usize
        ensures count { result ≡ length self.now.places }
        ensures few { result ≤ 64 }
    {
        self.places.len()
    }

    pub fn station(&self, station: usize) -> Station
        requires { StationThere self.now station }
        ensures { station_of_held result ≡ numbered no_station self.now.stations station }
    {
        self.stations[station - 1]
    }

    pub fn line(&self, line: usize) -> Line
        requires { LineThere self.now line }
        ensures { line_of_held result ≡ line_in self.now line }
    {
        self.lines[line - 1]
    }

    pub fn place(&self, place: usize) -> Place
        requires { PlaceThere self.now place }
        ensures { place_of_held result ≡ place_at self.now place }
    {
        self.places[place - 1]
    }
}

impl Network {
    // Whether a station is an HV station.
    pub fn is_hv(&self, station: usize) -> bool
        requires { StationThere self.now station }
        ensures { result ≡ is_hv self.now station }
    {
        match self.station(station).role {
            Role::Hv => true,
            Role::Mv => false,
        }
    }

    // The customers of a station. This, `weight`, `place_cost` and `place_hours` read one field each: nothing plainer stands for them.
    pub fn customers(&self, station: usize) -> u64
        requires { StationThere self.now station }
        ensures { result ≡ customers_of self.now station }
    {
        self.station(station).customers
    }

    // The weight of a line.
    pub fn weight(&self, line: usize) -> u64
        requires { LineThere self.now line }
        ensures { result ≡ (line_in self.now line).weight }
    {
        self.line(line).weight
    }

    // The line of a place.
    pub fn place_line(&self, place: usize) -> usize
        requires { PlaceThere self.now place }
        ensures { result ≡ (place_at self.now place).line }
    {
        self.place(place).line
    }

    // The end that a place is on.
    pub fn place_end(&self, place: usize) -> End
        requires { PlaceThere self.now place }
        ensures { result ≡ place_end (place_at self.now place) }
    {
        let found = self.place(place);
        End {
            line: found.line,
            side: found.side,
        }
    }

    // The cost of a place.
    pub fn place_cost(&self, place: usize) -> u64
        requires { PlaceThere self.now place }
        ensures { result ≡ (place_at self.now place).cost }
    {
        self.place(place).cost
    }

    // The hours of a place.
    pub fn place_hours(&self, place: usize) -> u64
        requires { PlaceThere self.now place }
        ensures { result ≡ (place_at self.now place).hours }
    {
        self.place(place).hours
    }

    // The state of an end.
    fn state(&self, end: End) -> State
        requires { LineThere self.now end.line }
        ensures { state_number result ≡ state self.now end }
    {
        self.line(end.line).state(end.side)
    }

    // Whether an end is plain. This, `is_breaker` and `is_open` are each a word of the definitions, told by one `matches!`.
    pub fn is_plain(&self, end: End) -> bool
        requires { LineThere self.now end.line }
        ensures { result ≡ is_plain self.now end }
    {
        matches!(self.state(end), State::Plain)
    }

    // Whether an end is a breaker.
    pub fn is_breaker(&self, end: End) -> bool
        requires { LineThere self.now end.line }
        ensures { result ≡ is_breaker self.now end }
    {
        matches!(self.state(end), State::Breaker)
    }

    // Whether an end is open.
    pub fn is_open(&self, end: End) -> bool
        requires { LineThere self.now end.line }
        ensures { result ≡ is_open self.now end }
    {
        matches!(self.state(end), State::Open)
    }

    // The station that an end is at.
    pub fn end_station(&self, end: End) -> usize
        requires { LineThere self.now end.line }
        ensures { result ≡ station_at self.now end }
    {
        self.line(end.line).station(end.side)
    }

    // Adds a station behind the others.
    pub fn add_station(&mut self, station: Station)
        requires { length self.old.stations < 512 }
        ensures { self.new ≡ with_one_more_station self.old (station_of_held station) }
    {
        self.stations.push(station);
    }

    // Adds a line behind the others.
    pub fn add_line(&mut self, line: Line)
        requires { length self.old.lines < 768 }
        ensures { self.new ≡ with_one_more_line self.old (line_of_held line) }
    {
        self.lines.push(line);
    }

    // Adds a place behind the others.
    pub fn add_place(&mut self, place: Place)
        requires { length self.old.places < 64 }
        ensures { self.new ≡ with_one_more self.old (place_of_held place) }
    {
        self.places.push(place);
    }

    // Sets how many breakers may be added.
    pub fn set_adds(&mut self, adds: usize)
        ensures { self.new ≡ with_adds self.old adds }
    {
        self.head.adds = adds;
    }

    // Leaves the first places only.
    pub fn keep_places(&mut self, count: usize)
        requires { count ≤ length self.old.places }
        ensures { self.new ≡ with_first_places self.old count }
    {
        self.places.truncate(count);
    }

    // Sets a line.
    pub fn set_line(&mut self, line: usize, new: Line)
        requires { LineThere self.old line }
        ensures { self.new ≡ with_lines self.old (renumbered self.old.lines line (line_of_held new)) }
    {
        self.lines[line - 1] = new;
    }

    // Sets the state of an end.
    pub fn set_state(&mut self, end: End, state: State)
        requires { LineThere self.old end.line }
        ensures { self.new ≡ with_state self.old end.line end.side (state_number state) }
    {
        let new = self.line(end.line).with_state(end.side, state);
        self.set_line(end.line, new);
    }

    // Sets the weight of a line.
    pub fn set_weight(&mut self, line: usize, weight: u64)
        requires { LineThere self.old line }
        ensures { self.new ≡ with_weight self.old line weight }
    {
        let new = self.line(line).with_weight(weight);
        self.set_line(line, new);
    }

    // Sets a place.
    pub fn set_place(&mut self, place: usize, new: Place)
        requires { PlaceThere self.old place }
        ensures { self.new ≡ with_place self.old place (place_of_held new) }
    {
        self.places[place - 1] = new;
    }
}

impl Network {
    // Leaves only a head, without stations, lines and places. A network is large for a stack: it is filled where it lies.
    pub fn clear(&mut self, head: Head)
        ensures { self.new ≡ record { head = head; stations = []; lines = []; places = [] } }
    {
        self.head = head;
        self.stations.clear();
        self.lines.clear();
        self.places.clear();
    }

    // Makes the network the same as another.
    pub fn copy_from(&mut self, other: &Network)
        ensures { self.new ≡ other.now }
    {
        self.clear(other.head);
        let _ = self
            .stations
            .try_extend_from_slice(other.stations.as_slice());
        let _ = self.lines.try_extend_from_slice(other.lines.as_slice());
        let _ = self.places.try_extend_from_slice(other.places.as_slice());
    }
}
