// The reader of a network file: its bytes to a network, with the refusals 1 to 3.
#![tactic(auto)]

ghost use Rattle.std.specs.Prelude.{◌≡◌, true, false, ◌+◌, ◌≤◌, ◌<◌, [], length, map, IfOk, OnOk};
ghost use Rattle.model.specs.Answer.{says};
ghost use Rattle.model.specs.Format.{records_of};
ghost use Rattle.model.specs.Network.{value, head_of, station_of, line_of, place_of, comes_after, well_placed, network_of};
ghost use Rattle.network.specs.View.{role_number, state_number, station_of_held, line_of_held, place_of_held};
ghost use Rattle.network.specs.There.{LineThere};
ghost use Rattle.reader.specs.Reading.{head_says, left_says, says_of, first_head, more_stations, more_lines, more_places, last_place};

use model::{Head, Refusal};
use network::{End, Line, Network, PLACES, Place, Role, Side, State, Station};
use ranges::Kind;
use records::Records;

// The role with a number, 0 or 1. It asks for one of these, so it is no `From`; so does `state_of`.
fn role_of(number: u64) -> Role
    requires { number ≤ 1 }
    ensures { role_number result ≡ number }
{
    match number {
        0 => Role::Mv,
        _ => Role::Hv,
    }
}

// The state with a number.
fn state_of(number: u64) -> State
    requires { number ≤ 2 }
    ensures { state_number result ≡ number }
{
    match number {
        0 => State::Plain,
        1 => State::Breaker,
        _ => State::Open,
    }
}

// The head that the numbers of a record say.
#[tactic(auto, unfolding(model::specs::Network::head_of))]
fn head_of(row: &[u64]) -> Head
    requires { length row.now ≡ 8 }
    ensures { result ≡ head_of row.now }
{
    Head {
        stations: row[0] as usize,
        lines: row[1] as usize,
        minutes: row[2],
        series: row[3],
        adds: row[4] as usize,
        money: row[5],
        hours: row[6],
        visits: row[7],
    }
}

// The station that they say.
#[tactic(auto, unfolding(model::specs::Network::station_of))]
fn station_of(row: &[u64]) -> Station
    requires { (length row.now ≡ 2) × (value row.now 0 ≤ 1) }
    ensures { station_of_held result ≡ station_of row.now }
{
    Station {
        role: role_of(row[0]),
        customers: row[1],
    }
}

// The line that they say.
#[tactic(auto, unfolding(model::specs::Network::line_of))]
fn line_of(row: &[u64]) -> Line
    requires { (length row.now ≡ 5) × (value row.now 3 ≤ 2) × (value row.now 4 ≤ 2) }
    ensures { line_of_held result ≡ line_of row.now }
{
    Line {
        weight: row[0],
        from: row[1] as usize,
        to: row[2] as usize,
        state1: state_of(row[3]),
        state2: state_of(row[4]),
    }
}

// The place that they say.
#[tactic(auto, unfolding(model::specs::Network::place_of))]
fn place_of(row: &[u64]) -> Place
    requires { (length row.now ≡ 4) × (1 ≤ value row.now 1) × (value row.now 1 ≤ 2) }
    ensures { place_of_held result ≡ place_of row.now }
{
    Place {
        line: row[0] as usize,
        side: Side::of(row[1] as usize),
        cost: row[2],
        hours: row[3],
    }
}

// Whether a place comes after another by line, then end.
#[tactic(auto, unfolding(model::specs::Network::comes_after))]
fn comes_after(before: &Place, place: &Place) -> bool
    ensures { result ≡ comes_after (place_of_held before.now) (place_of_held place.now) }
{
    (before.line, before.side) < (place.line, place.side)
}

// Whether a place comes after all of a list, of which the last comes last.
fn comes_last(places: &[Place], place: &Place) -> bool
    ensures { result ≡ comes_after (last_place (map place_of_held places.now)) (place_of_held place.now) }
{
    match places.last() {
        Some(last) => comes_after(last, place),
        None => true,
    }
}

// Whether a place may follow those of a network: it is not the 65th, comes after them and is on a plain end.
fn well_placed(net: &Network, place: &Place) -> bool
    requires { LineThere net.now place.now.line }
    ensures { result ≡ well_placed net.now.lines (length net.now.places)
        (last_place net.now.places) (place_of_held place.now) }
{
    let room = net.place_count() < PLACES;
    room && comes_last(net.places(), place)
        && net.is_plain(End {
            line: place.line,
            side: place.side,
        })
}

// Reads the head, which is the first record.
fn read_head(records: &mut Records) -> Result<Head, Refusal>
    requires { records.old.number ≡ 1 }
    ensures answer { head_says result records.new.rest.now ≡ first_head (records_of records.old.rest.now) }
    ensures few { IfOk result (λ head. (head.stations ≤ 512) × (head.lines ≤ 768)) }
    ensures goes_on { OnOk result (records.new.number ≡ 2) }
{
    let row = records.next(Kind::Head, 0, 0)?;
    Ok(head_of(&row))
}

// Reads the stations, as many as the head says.
fn read_stations(records: &mut Records, net: &mut Network) -> Result<(), Refusal>
    requires { (net.old.stations ≡ []) × (net.old.head.stations ≤ 512) }
    ensures answer { left_says result net.new records.new.rest.now
        ≡ more_stations net.old records.old.number net.old.head.stations (records_of records.old.rest.now) }
    ensures others { (net.new.head ≡ net.old.head) × (net.new.lines ≡ net.old.lines) × (net.new.places ≡ net.old.places) }
    ensures goes_on { OnOk result (records.new.number ≡ records.old.number + net.old.head.stations) }
{
    let head = *net.head();
    for _ in 0..head.stations {
        let row = records.next(Kind::Station, head.stations as u64, head.lines as u64)?;
        net.add_station(station_of(&row));
    }
    Ok(())
}

// Reads the lines, as many as the head says. They have a loop of their own: a function of both would take a closure, and would have to say
// what it may be called on and what it adds.
fn read_lines(records: &mut Records, net: &mut Network) -> Result<(), Refusal>
    requires { (net.old.lines ≡ []) × (net.old.head.lines ≤ 768) }
    ensures answer { left_says result net.new records.new.rest.now
        ≡ more_lines net.old records.old.number net.old.head.lines (records_of records.old.rest.now) }
    ensures others { (net.new.head ≡ net.old.head) × (net.new.stations ≡ net.old.stations) × (net.new.places ≡ net.old.places) }
    ensures goes_on { OnOk result ((length net.new.lines ≡ net.old.head.lines)
        × (records.new.number ≡ records.old.number + net.old.head.lines)) }
{
    let head = *net.head();
    for _ in 0..head.lines {
        let row = records.next(Kind::Line, head.stations as u64, head.lines as u64)?;
        net.add_line(line_of(&row));
    }
    Ok(())
}

// Reads the places, which are all the records that are left.
fn read_places(records: &mut Records, net: &mut Network) -> Result<(), Refusal>
    requires { length net.old.lines ≡ net.old.head.lines }
    ensures { says_of result net.new ≡ more_places net.old records.old.number (records_of records.old.rest.now) }
{
    let head = *net.head();
    while !records.is_empty() {
        let record = records.number();
        let row = records.next(Kind::Place, head.stations as u64, head.lines as u64)?;
        let place = place_of(&row);
        if !well_placed(net, &place) {
            return Err(Refusal::Misplaced { record });
        }
        net.add_place(place);
    }
    Ok(())
}

// Whether a file has too many bytes. With `many_digits` of crate `fields` it shares only `<`: one function of both would be no plainer.
fn too_long(bytes: usize) -> bool
    ensures { (result ≡ true → 32768 < bytes) × (result ≡ false → bytes ≤ 32768) }
{
    32768 < bytes
}

// Reads the network of a file, or says why it is refused: for its length, then record by record.
pub fn read(file: &[u8], net: &mut Network) -> Result<(), Refusal>
    ensures { says_of result net.new ≡ network_of file.now }
{
    if too_long(file.len()) {
        return Err(Refusal::TooLong);
    }
    let mut records = Records::of(file);
    net.clear(read_head(&mut records)?);
    read_stations(&mut records, net)?;
    read_lines(&mut records, net)?;
    read_places(&mut records, net)
}
