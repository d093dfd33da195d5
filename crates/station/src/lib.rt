// A sending station: holds at most one message, waits for a clear line, and sends the message's burst half-cycle by half-cycle.

#![tactic(auto)]

ghost use Rattle.std.specs.Prelude.{◌≡◌, true, ◌∷◌, [], ◌+◌, ◌<◌, ◌≤◌, get_or, Some};
ghost use Rattle.ground.specs.Refusals.{judged, reports, refuses, refusal_number};
ghost use Rattle.message.specs.Messages.{message_ok};
ghost use Rattle.burst.specs.Frames.{bits_of, pairs_of, burst_of, burst_length};
ghost use Rattle.station.specs.Stations.{empty_station, draw_ok, station_ok, load_of, load_report, load_causes, sends_of, send_of, send_report, send_causes};
ghost use Rattle.station.specs.Stations.{idle_of, turn_by, held_moves, is_done, turn_of, turn_report, turn_causes};

use ground::Refusal;
use message::Message;
use message::word::word_of;

pub mod bench;

// A station, handed in and back by value.
#[derive(Clone, Copy)]
pub struct Station {
    pub held: Option<Message>,
    // The wait drawn, 8 to 10.
    pub wait: u8,
    // Clear half-cycles in a row, up to the wait.
    pub count: u8,
    // How many half-cycles of the burst it has sent.
    pub place: u8,
}

// What loading answers, and the station that it leaves: on a refusal too, as `load_of` says, and so below `turn_of` and `bench_of`.
#[derive(Clone, Copy)]
pub struct Loading {
    pub answer: Result<(), Refusal>,
    pub next: Station,
}

// Whether a station has sent the last half-cycle of its message, and says DONE.
#[derive(Clone, Copy)]
pub enum Turned {
    Going,
    Done,
}

// What one half-cycle of a station answers, and the station that it leaves.
#[derive(Clone, Copy)]
pub struct Turn {
    pub answer: Result<Turned, Refusal>,
    pub next: Station,
}

// The numbers of a station that still has its message after a half-cycle.
#[derive(Clone, Copy)]
pub(crate) struct Move {
    wait: u8,
    count: u8,
    place: u8,
}

// A station that has counted nothing and sent nothing.
fn at_start(held: Option<Message>, wait: u8) -> Station
    ensures { result ≡ record { held = held; wait = wait; count = 0; place = 0 } }
{
    Station {
        held,
        wait,
        count: 0,
        place: 0,
    }
}

// A station with no message.
pub fn empty() -> Station
    ensures { result ≡ empty_station }
{
    at_start(None, 8)
}

// Whether a draw is 8 to 10.
pub fn draw_ok(draw: u8) -> bool
    ensures { result ≡ draw_ok draw }
{
    (8 <= draw) & (draw <= 10)
}

// How many half-cycles a message's burst has.
fn burst_length(m: Message) -> u8
    ensures { result ≡ burst_length m }
{
    match m {
        Message::Address { .. } | Message::Function { .. } => 44,
        Message::Extended { .. } => 124,
    }
}

// The half-cycle at a place of the frame that carries these bits: the start 1 1 1 0, then each bit and its complement.
fn frame_half(word: u32, bits: u32, place: u32) -> u8
    requires { (bits ≤ 32) × (place < 4 + (bits + bits)) }
    ensures { result ≡ get_or (1 ∷ 1 ∷ 1 ∷ 0 ∷ pairs_of (bits_of bits word)) place 0 }
{
    if place < 3 {
        return 1;
    }
    if place < 4 {
        return 0;
    }
    let past = place - 4;
    let bit = (word >> (bits - 1 - past / 2)) % 2;
    if past % 2 == 0 {
        bit as u8
    } else {
        (1 - bit) as u8
    }
}

// The half-cycle at a place of a valid message's burst, from the message's bits: no burst is kept. A valid message has bits.
fn half_at(m: Message, place: u8) -> u8
    requires { (message_ok m ≡ true) × (place < burst_length m) }
    ensures { result ≡ get_or (burst_of m) place 0 }
{
    match word_of(m) {
        Err(_) => 0,
        Ok(word) => {
            let frame = 4 + (word.count + word.count);
            let mut at = place as u32;
            if frame <= at {
                at -= frame;
            }
            frame_half(word.bits, word.count, at)
        }
    }
}

// Whether a station is in a state that there is and sends nothing: it is empty, or it waits.
pub(crate) fn idle(s: Station) -> bool
    ensures { result ≡ idle_of s }
{
    match s.held {
        None => (s.wait == 8) & ((s.count == 0) & (s.place == 0)),
        Some(m) => draw_ok(s.wait) & ((s.count < s.wait) & ((s.place == 0) & message::valid(m))),
    }
}

// What a station sends in this half-cycle: 0 where it is idle, else it holds a message and its count has come to its wait.
pub fn sends(s: Station) -> Result<u8, Refusal>
    ensures answer { result ≡ send_of s }
    ensures report { send_report result ≡ judged (send_causes s) (reports (sends_of s ∷ [])) refuses }
{
    if idle(s) {
        return Ok(0);
    }
    match s.held {
        None => Err(Refusal::State),
        Some(m) => {
            let sane = draw_ok(s.wait) & message::valid(m);
            if sane & ((s.count == s.wait) & (s.place < burst_length(m))) {
                return Ok(half_at(m, s.place));
            }
            Err(Refusal::State)
        }
    }
}

// Gives an empty station a message and a wait.
pub fn load(s: Station, m: Message, draw: u8) -> Loading
    ensures answer { result ≡ load_of s m draw }
    ensures report { load_report result.answer ≡ judged (load_causes s m draw) (reports []) refuses }
{
    if !message::valid(m) {
        return Loading {
            answer: Err(Refusal::Message),
            next: s,
        };
    }
    if !station_ok(s) {
        return Loading {
            answer: Err(Refusal::State),
            next: s,
        };
    }
    if !draw_ok(draw) {
        return Loading {
            answer: Err(Refusal::Draw),
            next: s,
        };
    }
    match s.held {
        None => Loading {
            answer: Ok(()),
            next: at_start(Some(m), draw),
        },
        Some(_) => Loading {
            answer: Err(Refusal::Busy),
            next: s,
        },
    }
}

// Whether a station is in a state that there is: it then says what it sends.
fn station_ok(s: Station) -> bool
    ensures { result ≡ station_ok s }
{
    sends(s).is_ok()
}

// The numbers of a judged station with a message after a half-cycle in which it sent, and heard: a bench judges all of its stations
// before it moves one. None where it has sent its whole burst: it is then empty, and says DONE.
pub(crate) fn moves(m: Message, s: Station, sent: u8, heard: u8, draw: u8) -> Option<Move>
    requires held_value { s.held ≡ Some m }
    requires s_value { (station_ok s ≡ true) × (draw_ok draw ≡ true) }
    requires s_value_2 { sends_of s ≡ sent }
    requires sent_le_heard { (sent ≤ heard) × (heard ≤ 1) }
    ensures { turn_of s heard draw ≡ turn_by (Some m) result }
{
    if sent != heard {
        return Some(Move {
            wait: draw,
            count: 0,
            place: 0,
        });
    }
    if s.count < s.wait {
        return Some(Move {
            wait: s.wait,
            count: s.count + 1,
            place: s.place,
        });
    }
    if s.place < burst_length(m) - 1 {
        return Some(Move {
            wait: s.wait,
            count: s.count,
            place: s.place + 1,
        });
    }
    None
}

// One half-cycle of a station, with what it heard and a draw.
pub fn advance(s: Station, heard: u8, draw: u8) -> Turn
    ensures answer { result ≡ turn_of s heard draw }
    ensures report { turn_report result.answer
        ≡ judged (turn_causes s heard draw) (reports (is_done (held_moves s.held s heard draw).answer ∷ [])) refuses }
{
    if 1 < heard {
        return Turn {
            answer: Err(Refusal::Half),
            next: s,
        };
    }
    match sends(s) {
        Err(_) => Turn {
            answer: Err(Refusal::State),
            next: s,
        },
        Ok(sent) => {
            if !draw_ok(draw) {
                return Turn {
                    answer: Err(Refusal::Draw),
                    next: s,
                };
            }
            if heard < sent {
                return Turn {
                    answer: Err(Refusal::Fault),
                    next: s,
                };
            }
            moved(s, sent, heard, draw)
        }
    }
}

// A judged station after a half-cycle: an empty one stays as it is.
fn moved(s: Station, sent: u8, heard: u8, draw: u8) -> Turn
    requires s_value { (station_ok s ≡ true) × (draw_ok draw ≡ true) }
    requires s_value_2 { sends_of s ≡ sent }
    requires sent_le_heard { (sent ≤ heard) × (heard ≤ 1) }
    ensures { result ≡ turn_of s heard draw }
{
    match s.held {
        None => Turn {
            answer: Ok(Turned::Going),
            next: s,
        },
        Some(m) => match moves(m, s, sent, heard, draw) {
            None => Turn {
                answer: Ok(Turned::Done),
                next: empty(),
            },
            Some(v) => Turn {
                answer: Ok(Turned::Going),
                next: Station {
                    held: s.held,
                    wait: v.wait,
                    count: v.count,
                    place: v.place,
                },
            },
        },
    }
}
