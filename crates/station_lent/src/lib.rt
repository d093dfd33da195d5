// A station in eight lent bytes: made empty there, loaded, asked what it sends, and advanced by a half-cycle.

#![tactic(auto)]

ghost use Rattle.std.specs.Prelude.{◌≡◌, [], ◌∷◌, length};
ghost use Rattle.ground.specs.Refusals.{count_report, reports, refuses, judged};
ghost use Rattle.wire.specs.Messages.{listed};
ghost use Rattle.station.specs.Stations.{load_causes, send_causes, sends_of, turn_causes};
ghost use Rattle.station_lent.specs.StationBytes.{STATION_BYTES, no_station, station_with, station_in, held_bytes, station_bytes};
ghost use Rattle.station_lent.specs.StationBytes.{empty_causes, empty_answer, empty_after, loaded_answer, loaded_after};
ghost use Rattle.station_lent.specs.StationBytes.{sent_answer, done_count, turned_answer, turned_after};

use ground::Refusal;
use message::Message;
use station::{Station, Turned, advance};
use wire::{five_kept, kept_from};

// How many bytes a station has.
const STATION_BYTES: usize = 8;

// Handed on for bytes that hold no station: each routine refuses it by 6 in its own order.
fn no_station() -> Station
    ensures { result ≡ no_station }
{
    Station {
        held: None,
        wait: 0,
        count: 0,
        place: 0,
    }
}

// The station that eight bytes hold, by what the first five of them keep.
fn station_with(held: Option<Message>, state: &[u8]) -> Station
    requires { length state.now ≡ STATION_BYTES }
    ensures { result ≡ station_with held state.now }
{
    Station {
        held,
        wait: state[5],
        count: state[6],
        place: state[7],
    }
}

// The station that bytes hold.
fn station_in(state: &[u8]) -> Station
    ensures { result ≡ station_in state.now }
{
    if state.len() != STATION_BYTES {
        return no_station();
    }
    match kept_from(state[0], state[1], state[2], state[3], state[4]) {
        Ok(held) => station_with(held, state),
        Err(_) => no_station(),
    }
}

// Puts a station into its eight lent bytes.
fn put_bytes(state: &mut [u8], s: Station)
    requires { length state.old ≡ STATION_BYTES }
    ensures { state.new ≡ station_bytes s }
{
    let five = five_kept(s.held);
    state[0] = five.kind;
    state[1] = five.house;
    state[2] = five.third;
    state[3] = five.data;
    state[4] = five.command;
    state[5] = s.wait;
    state[6] = s.count;
    state[7] = s.place;
}

// Makes eight lent bytes an empty station, whatever they held. Refused, it changes nothing.
pub fn empty(state: &mut [u8]) -> Result<usize, Refusal>
    ensures answer { result ≡ empty_answer state.old }
    ensures report { count_report result ≡ judged (empty_causes state.old) (reports (0 ∷ [])) refuses }
    ensures state { state.new ≡ empty_after state.old }
{
    if state.len() != STATION_BYTES {
        return Err(Refusal::State);
    }
    put_bytes(state, station::empty());
    Ok(0)
}

// Gives the station in eight lent bytes a message and a wait. Refused, it changes nothing.
pub fn load(state: &mut [u8], m: Message, draw: u8) -> Result<usize, Refusal>
    ensures answer { result ≡ loaded_answer state.old m draw }
    ensures report { count_report result ≡ judged (load_causes (station_in state.old) m draw) (reports (0 ∷ [])) refuses }
    ensures state { state.new ≡ loaded_after state.old m draw }
{
    let loading = station::load(station_in(state), m, draw);
    // Here and below a `match` and no `?`: a must-fail edit can then change the answer alone.
    match loading.answer {
        Ok(()) => {
            put_bytes(state, loading.next);
            Ok(0)
        }
        Err(not_loaded) => Err(not_loaded),
    }
}

// What the station in eight lent bytes sends in this half-cycle: the count is 0 or 1.
pub fn sends(state: &[u8]) -> Result<usize, Refusal>
    ensures answer { result ≡ sent_answer state.now }
    ensures report { count_report result
        ≡ judged (send_causes (station_in state.now)) (reports (sends_of (station_in state.now) ∷ [])) refuses }
{
    match station::sends(station_in(state)) {
        Ok(half) => Ok(half as usize),
        Err(not_sent) => Err(not_sent),
    }
}

// One half-cycle of the station in eight lent bytes, with what it heard and a draw: the count is 1 where it says DONE. Refused, it changes
// nothing.
pub fn half_cycle(state: &mut [u8], heard: u8, draw: u8) -> Result<usize, Refusal>
    ensures answer { result ≡ turned_answer state.old heard draw }
    ensures report { count_report result
        ≡ judged (turn_causes (station_in state.old) heard draw) (reports (done_count state.old heard draw ∷ [])) refuses }
    ensures state { state.new ≡ turned_after state.old heard draw }
{
    let turn = advance(station_in(state), heard, draw);
    match turn.answer {
        Ok(turned) => {
            put_bytes(state, turn.next);
            match turned {
                Turned::Going => Ok(0),
                Turned::Done => Ok(1),
            }
        }
        Err(not_moved) => Err(not_moved),
    }
}
