// A receiver in thirteen lent bytes: made fresh there, and run over half-cycles that are lent.
ghost use Rattle.std.specs.Prelude.{◌≡◌, true, ◌+◌, ◌*◌, ◌≤◌, length, drop};
ghost use mathlib.Core.List.{[], ◌∷◌, flat_map};
ghost use Rattle.std.proofs.lemmas.List.Edits.{sets};
ghost use Rattle.ground.specs.Refusals.{count_report, reports, refuses, judged, number_given};
ghost use Rattle.wire.specs.Messages.{message_bytes, none_bytes, listed};
ghost use Rattle.receiver.specs.Receivers.{fresh_receiver, receiver_ok};
ghost use Rattle.receiver.specs.Hearing.{events_of, receiver_after, given_by, first_given, to_given};
ghost use Rattle.receiver.specs.Bytes.{frame_byte, since_byte, target_byte, place_from, from_four, taken_receiver, receiver_in};
ghost use Rattle.receiver.specs.Bytes.{receiver_report, held_causes, given_bytes, receiver_bytes, event_bytes};
ghost use Rattle.receiver.specs.Bytes.{put_causes, put_answer, put_after, fresh_answer, fresh_after, receive_causes, receive_answer, state_after, events_after};
ghost use Rattle.receiver.specs.Bytes.{stretch_causes, stretch_of, stretch_events};

use crate::{Event, Receiver, step_valid, valid};
use ground::{Refusal, refusal_number};
use message::Message;
use wire::{Five, five_kept, five_none, five_of, kept_from};

// A run over half-cycles up to the first that gives MESSAGE: the place of the half-cycle after the last that it took, or why it took none;
// the receiver for that place; and the message given, if any. The answer stands beside what is left on a refusal too, as `stretch_of` says.
#[derive(Clone, Copy)]
pub struct Stretch {
    pub answer: Result<usize, Refusal>,
    pub next: Receiver,
    pub given: Option<Message>,
}

// The same where nothing is refused.
#[derive(Clone, Copy)]
struct Ran {
    at: usize,
    next: Receiver,
    given: Option<Message>,
}

// A number from its four bytes, highest first.
fn number_of(a: u8, b: u8, c: u8, d: u8) -> u32
    ensures { result ≡ from_four a b c d }
{
    ((a as u32 * 256 + b as u32) * 256 + c as u32) * 256 + d as u32
}

// A receiver, refused where it is in a state that there is not.
fn taken(r: Receiver) -> Result<Receiver, Refusal>
    ensures { result ≡ taken_receiver r }
{
    if !valid(r) {
        return Err(Refusal::State);
    }
    Ok(r)
}

// The place that three of a receiver's bytes say: that in its frame, or that of a waiting while it hunts. 255, which is refused, where they say none: no
// `Option`, since the definition `place_from` says so.
fn place_from(at: u8, since: u8, target: u8) -> u8
    ensures { result ≡ place_from at since target }
{
    if target == 0 {
        return if (since == 0) & (at <= 62) { at } else { 255 };
    }
    if target == 22 {
        return if (at == 0) & (since <= 25) {
            64 + since
        } else {
            255
        };
    }
    if target == 62 {
        return if (at == 0) & (since <= 65) {
            128 + since
        } else {
            255
        };
    }
    255
}

// The receiver that bytes hold. Refused where they are not thirteen, where the five of the message given before are neither 0 nor a message's, and
// where the receiver is in a state that there is not.
pub fn receiver_in(state: &[u8]) -> Result<Receiver, Refusal>
    ensures answer { result ≡ receiver_in state.now }
    ensures number { (receiver_report result).number ≡ number_given (held_causes state.now) }
{
    if state.len() != 13 {
        return Err(Refusal::State);
    }
    let at = place_from(state[1], state[11], state[12]);
    let bits = number_of(state[2], state[3], state[4], state[5]);
    let given = kept_from(state[6], state[7], state[8], state[9], state[10])?;
    taken(Receiver {
        past: state[0],
        at,
        bits,
        given,
    })
}

// The three bytes of a place: that in its frame, and of a waiting where the half-cycle that comes next stands, and the place awaited.
fn frame_byte(at: u8) -> u8
    ensures { result ≡ frame_byte at }
{
    if at <= 62 { at } else { 0 }
}

fn since_byte(at: u8) -> u8
    ensures { result ≡ since_byte at }
{
    if at <= 62 {
        return 0;
    }
    if at <= 127 { at % 64 } else { at % 128 }
}

fn target_byte(at: u8) -> u8
    ensures { result ≡ target_byte at }
{
    if at <= 62 {
        return 0;
    }
    if at <= 127 { 22 } else { 62 }
}

// Puts a receiver into its thirteen lent bytes.
fn put_bytes(state: &mut [u8], r: Receiver)
    requires { length state.old ≡ 13 }
    ensures { state.new ≡ receiver_bytes r }
{
    let five = five_kept(r.given);
    state[0] = r.past;
    state[1] = frame_byte(r.at);
    state[2] = (r.bits / 16777216) as u8;
    state[3] = (r.bits / 65536 % 256) as u8;
    state[4] = (r.bits / 256 % 256) as u8;
    state[5] = (r.bits % 256) as u8;
    state[6] = five.kind;
    state[7] = five.house;
    state[8] = five.third;
    state[9] = five.data;
    state[10] = five.command;
    state[11] = since_byte(r.at);
    state[12] = target_byte(r.at);
}

// Puts a receiver into its thirteen lent bytes. Refused where they are not thirteen, or where it is in a state that there is not.
pub fn put_receiver(state: &mut [u8], r: Receiver) -> Result<usize, Refusal>
    ensures answer { result ≡ put_answer r state.old }
    ensures report { count_report result ≡ judged (put_causes r state.old) (reports (0 ∷ [])) refuses }
    ensures state { state.new ≡ put_after r state.old }
{
    if state.len() != 13 {
        return Err(Refusal::State);
    }
    if !valid(r) {
        return Err(Refusal::State);
    }
    put_bytes(state, r);
    Ok(0)
}

// Makes thirteen lent bytes a receiver that hunts and has received no half-cycle. Refused, it changes nothing.
pub fn fresh(state: &mut [u8]) -> Result<usize, Refusal>
    ensures answer { result ≡ fresh_answer state.old }
    ensures report { count_report result ≡ judged (put_causes fresh_receiver state.old) (reports (0 ∷ [])) refuses }
    ensures state { state.new ≡ fresh_after state.old }
{
    if state.len() != 13 {
        return Err(Refusal::State);
    }
    put_bytes(state, crate::fresh());
    Ok(0)
}

// Puts five numbers from `at` on. It has a twin in packet_lent: a routine that both call would be open, and have to test again whether there is room.
fn put_five(out: &mut [u8], at: usize, five: Five)
    requires { at + 5 ≤ length out.old }
    ensures { out.new ≡ sets out.old at (listed five) }
{
    out[at] = five.kind;
    out[at + 1] = five.house;
    out[at + 2] = five.third;
    out[at + 3] = five.data;
    out[at + 4] = five.command;
}

// Puts the six bytes of an event that has no message.
fn put_plain(events: &mut [u8], at: usize, code: u8)
    requires { at + 6 ≤ length events.old }
    ensures { events.new ≡ sets events.old at (code ∷ none_bytes) }
{
    events[at] = code;
    put_five(events, at + 1, five_none());
}

// Puts the six bytes of MESSAGE.
fn put_message(events: &mut [u8], at: usize, m: Message)
    requires { at + 6 ≤ length events.old }
    ensures { events.new ≡ sets events.old at (1 ∷ message_bytes m) }
{
    events[at] = 1;
    put_five(events, at + 1, five_of(m));
}

// Puts the six bytes of an event from `at` on. Each case has stores of its own: one set of stores for all of them is slower.
fn put_event(events: &mut [u8], at: usize, e: Event)
    requires { at + 6 ≤ length events.old }
    ensures { events.new ≡ sets events.old at (event_bytes e) }
{
    match e {
        Event::Nothing => put_plain(events, at, 0),
        Event::Message(m) => put_message(events, at, m),
        Event::Repeat => put_plain(events, at, 2),
        Event::BrokenPair => put_plain(events, at, 10),
        Event::BrokenUnsupported => put_plain(events, at, 11),
        Event::Refused(why) => put_plain(events, at, refusal_number(why)),
    }
}

// The message that an event gives, if any.
fn given_by(e: Event) -> Option<Message>
    ensures { result ≡ given_by e }
{
    match e {
        Event::Message(m) => Some(m),
        _ => None,
    }
}

// One step for each half-cycle from a place on, up to the first that gives MESSAGE, each event put at its place. The receiver is judged
// before, kept in a local, and stepped at this one place: that is what makes a run fast.
fn to_message(r: Receiver, halves: &[u8], from: usize, events: &mut [u8]) -> Ran
    requires { (receiver_ok r ≡ true) × (6 * length halves.now ≤ length events.old) }
    ensures at_value { (result.at ≡ from + length (to_given r (drop from halves.now)))
        × (result.next ≡ receiver_after r (to_given r (drop from halves.now)))
        × (result.given ≡ first_given r (drop from halves.now)) }
    ensures events_after { events.new ≡ sets events.old (6 * from) (flat_map event_bytes (events_of r (to_given r (drop from halves.now)))) }
{
    let mut current = r;
    for i in from..halves.len() {
        let heard = step_valid(current, halves[i]);
        put_event(events, 6 * i, heard.event);
        current = heard.next;
        if let Some(m) = given_by(heard.event) {
            return Ran {
                at: i + 1,
                next: current,
                given: Some(m),
            };
        }
    }
    Ran {
        at: from.max(halves.len()),
        next: current,
        given: None,
    }
}

// One step for each half-cycle from a place on, up to the first that gives MESSAGE or the last, and six bytes for each event at its place in
// the lent buffer, which has room for the events of all half-cycles. From a place beyond the last none is taken. Refused, it changes nothing.
pub fn run_to_message(r: Receiver, halves: &[u8], from: usize, events: &mut [u8]) -> Stretch
    ensures answer { result ≡ stretch_of r halves.now from (length events.old) }
    ensures report { count_report result.answer
        ≡ judged (stretch_causes r halves.now (length events.old))
        (reports ((from + length (to_given r (drop from halves.now))) ∷ [])) refuses }
    ensures events { events.new ≡ stretch_events r halves.now from events.old }
{
    if !valid(r) {
        return Stretch {
            answer: Err(Refusal::State),
            next: r,
            given: None,
        };
    }
    if events.len() / 6 < halves.len() {
        return Stretch {
            answer: Err(Refusal::Short),
            next: r,
            given: None,
        };
    }
    let ran = to_message(r, halves, from, events);
    Stretch {
        answer: Ok(ran.at),
        next: ran.next,
        given: ran.given,
    }
}

// One step for each half-cycle, stretch after stretch, its event put behind those before it.
fn run_all(r: Receiver, halves: &[u8], events: &mut [u8]) -> Receiver
    requires { (receiver_ok r ≡ true) × (6 * length halves.now ≤ length events.old) }
    ensures value { result ≡ receiver_after r halves.now }
    ensures events_after { events.new ≡ sets events.old 0 (flat_map event_bytes (events_of r halves.now)) }
{
    let mut current = r;
    let mut i: usize = 0;
    // No counted loop: the place goes on by what a stretch took.
    while i < halves.len() {
        let ran = to_message(current, halves, i, events);
        current = ran.next;
        i = ran.at;
    }
    current
}

// One step for each half-cycle by the receiver in the lent bytes, which then hold the receiver after the last, and six bytes for each
// event at the front of the lent buffer; the count is of the half-cycles. Refused, it changes nothing. A half-cycle that is not 0 or
// 1 is no refusal: its event says so, and the next one follows.
pub fn receive(state: &mut [u8], halves: &[u8], events: &mut [u8]) -> Result<usize, Refusal>
    ensures answer { result ≡ receive_answer state.old halves.now (length events.old) }
    ensures report { count_report result ≡ judged (receive_causes state.old halves.now (length events.old))
        (reports (length halves.now ∷ [])) refuses }
    ensures state { state.new ≡ state_after state.old halves.now (length events.old) }
    ensures events { events.new ≡ events_after state.old halves.now events.old }
{
    // A `match` and no `?`: a must-fail edit can then change the answer alone.
    match receiver_in(state) {
        Ok(r) => {
            if events.len() / 6 < halves.len() {
                return Err(Refusal::Short);
            }
            let next = run_all(r, halves, events);
            put_bytes(state, next);
            Ok(halves.len())
        }
        Err(_) => Err(Refusal::State),
    }
}
