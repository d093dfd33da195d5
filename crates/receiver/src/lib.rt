// The receiver: reads the mains back, one call per half-cycle.

#![tactic(auto)]

ghost use Rattle.std.specs.Prelude.{◌≡◌, true, ◌||◌, ◌≤◌, ◌/◌, ◌%◌, ◌^◌, leb};
ghost use Rattle.ground.specs.Choice.{pick};
ghost use Rattle.ground.specs.Refusals.{refusal_number, judged};
ghost use Rattle.receiver.specs.Receivers.{event_number, fresh_receiver, pairs_ok, given_ok, waiting_ok, receiver_ok, step_causes, step_of, broken_number};
ghost use Rattle.receiver.specs.Receivers.{shifted, bare_at, waiting, hunting, started, says, hunt_of, await_of, is_repeat, complete_of};
ghost use Rattle.receiver.specs.Receivers.{reading_of, pair_of, broken, read_of, takes_of};

use ground::Refusal;
use message::word::{Reading, read_extended, read_standard};
use message::{Message, same};

pub mod lent;

// A receiver, handed in and back by value. docs/receiver.md lists what each field may hold.
#[derive(Clone, Copy)]
pub struct Receiver {
    // The last six half-cycles as one number, the latest lowest; all ones before any has come.
    pub past: u8,
    // The place in its frame of the half-cycle that comes next, counted from 1; 0 while hunting with no start waited for. After a pair of equal
    // half-cycles in a frame whose start began at half-cycle s the receiver hunts and waits for another start: then it is 64 + k while it waits at s+22
    // and 128 + k while at s+62, the half-cycle that comes next being s+k.
    pub at: u8,
    // The bits of the pairs that have come, the latest lowest.
    pub bits: u32,
    pub given: Option<Message>,
}

// What a half-cycle says. A refusal is one of six cases here and no `Err`: the receiver stands beside it as it was (`step_of`), and six bytes tell it
// (`event_bytes`).
#[derive(Clone, Copy)]
pub enum Event {
    Nothing,
    Message(Message),
    Repeat,
    // A pair of equal half-cycles.
    BrokenPair,
    // A code that is no function and no extended code 1.
    BrokenUnsupported,
    // Half: the half-cycle is not 0 or 1. State: a kept half-cycle is not 0 or 1, there are more pairs than the frame has, a house or
    // unit is above 15, or no pair of equal half-cycles leads to what is waited for.
    Refused(Refusal),
}

#[derive(Clone, Copy)]
pub struct Heard {
    pub event: Event,
    pub next: Receiver,
}

// A receiver that hunts and has received no half-cycle.
pub fn fresh() -> Receiver
    ensures { result ≡ fresh_receiver }
{
    hunts(63)
}

// One half-cycle: what it says, and the receiver for the next. A half-cycle that is not 0 or 1 and a receiver in a state that is
// refused leave the receiver as it was.
pub fn step(r: Receiver, half: u8) -> Heard
    ensures answer { result ≡ step_of r half }
    ensures number { event_number result.event ≡ judged (step_causes r half) (broken_number r half) refusal_number }
{
    if half > 1 {
        return saying(Event::Refused(Refusal::Half), r);
    }
    if !valid(r) {
        return saying(Event::Refused(Refusal::State), r);
    }
    takes(r, half)
}

// The same for a receiver that the caller has judged, so that a run over many half-cycles judges it once.
pub(crate) fn step_valid(r: Receiver, half: u8) -> Heard
    requires { receiver_ok r ≡ true }
    ensures { result ≡ step_of r half }
{
    if half > 1 {
        return saying(Event::Refused(Refusal::Half), r);
    }
    takes(r, half)
}

// One half-cycle for the caller's own receiver, which is updated in place: the event that `step` gives.
pub fn receive(r: &mut Receiver, half: u8) -> Event
    ensures { (result ≡ (step_of r.old half).event)
        × (event_number result ≡ judged (step_causes r.old half) (broken_number r.old half) refusal_number)
        × (r.new ≡ (step_of r.old half).next) }
{
    let heard = step(*r, half);
    *r = heard.next;
    heard.event
}

fn saying(event: Event, next: Receiver) -> Heard
    ensures { result ≡ says event next }
{
    Heard { event, next }
}

// A receiver at a place, with no bits and no message given directly before.
fn bare(past: u8, at: u8) -> Receiver
    ensures { result ≡ bare_at past at }
{
    Receiver {
        past,
        at,
        bits: 0,
        given: None,
    }
}

// A receiver that hunts, and waits for a start if `at` is not 0.
fn waits(past: u8, at: u8) -> Receiver
    ensures { result ≡ waiting past at }
{
    bare(past, at)
}

fn hunts(past: u8) -> Receiver
    ensures { result ≡ hunting past }
{
    bare(past, 0)
}

// A receiver that reads from the first pair of a frame on.
fn starts(past: u8) -> Receiver
    ensures { result ≡ started past }
{
    bare(past, 5)
}

// Whether some pair of equal half-cycles, with calls after it, leads to this waiting: 64 + k with k from 6 to 25, or 128 + k with k from 24 to 65.
fn waiting_fits(at: u8) -> bool
    ensures { result ≡ waiting_ok at }
{
    ((70 <= at) & (at <= 89)) | ((152 <= at) & (at <= 193))
}

// Whether there are no more pairs than the frame has: past the ninth, only those of an extended frame. A place beyond every frame is that of a waiting.
fn place_fits(at: u8, bits: u32) -> bool
    ensures { result ≡ (pairs_ok at bits || waiting_ok at) }
{
    if at <= 22 {
        return true;
    }
    if at > 62 {
        return waiting_fits(at);
    }
    let further = (at - 23) / 2;
    (bits >> further) % 32 == 15
}

fn given_valid(given: Option<Message>) -> bool
    ensures { result ≡ given_ok given }
{
    match given {
        None => true,
        Some(m) => message::valid(m),
    }
}

// Whether a receiver is in none of the states that are refused. The place is looked at last: it is what a step looks at next.
pub fn valid(r: Receiver) -> bool
    ensures { result ≡ receiver_ok r }
{
    if r.past > 63 {
        return false;
    }
    if !given_valid(r.given) {
        return false;
    }
    place_fits(r.at, r.bits)
}

// The last six half-cycles with one more.
fn shift(past: u8, half: u8) -> u8
    requires { half ≤ 1 }
    ensures { result ≡ shifted past half }
{
    past % 32 * 2 + half
}

// Hunting with no start waited for: a frame begins after 0 0 0 1 1 1 0, of which the last is this half-cycle.
fn hunt(past: u8, half: u8) -> Heard
    requires { half ≤ 1 }
    ensures { result ≡ hunt_of past 0 half }
{
    let now = shift(past, half);
    if (past == 7) & (half == 0) {
        return saying(Event::Nothing, starts(now));
    }
    saying(Event::Nothing, hunts(now))
}

// Hunting while a start is waited for: a frame begins with that too. Its fourth half-cycle comes at 89, which is 64 + 25, or at 193, 128 + 65. Where no
// start stood at s+22, one is waited for at s+62, from 128 + 26 on; where none stood there, no longer.
fn wait(past: u8, at: u8, half: u8) -> Heard
    requires { (half ≤ 1) × (waiting_ok at ≡ true) }
    ensures { result ≡ hunt_of past at half }
{
    let now = shift(past, half);
    let hunted = (past == 7) & (half == 0);
    if hunted {
        return saying(Event::Nothing, starts(now));
    }
    if (at != 89) & (at != 193) {
        return saying(Event::Nothing, waits(now, at + 1));
    }
    if (past % 8 == 7) & (half == 0) {
        return saying(Event::Nothing, starts(now));
    }
    if at == 89 {
        return saying(Event::Nothing, waits(now, 154));
    }
    saying(Event::Nothing, hunts(now))
}

// What is awaited after a frame: 1 1 1 0.
fn awaited(at: u8) -> u8
    ensures { result ≡ pick (leb at 3) 1 0 }
{
    if at <= 3 { 1 } else { 0 }
}

// Awaiting the start of a second frame: the first half-cycle that differs is hunted with.
fn awaits(r: Receiver, half: u8) -> Heard
    requires { (half ≤ 1) × (r.at ≤ 4) }
    ensures { result ≡ await_of r half }
{
    if half != awaited(r.at) {
        return hunt(r.past, half);
    }
    saying(
        Event::Nothing,
        Receiver {
            past: shift(r.past, half),
            at: r.at + 1,
            bits: 0,
            ..r
        },
    )
}

// Whether a message is the one just given.
fn is_repeat(given: Option<Message>, m: Message) -> bool
    ensures { result ≡ is_repeat given m }
{
    match given {
        None => false,
        Some(g) => same(g, m),
    }
}

// A frame is complete.
fn complete(given: Option<Message>, m: Message, past: u8) -> Heard
    ensures { result ≡ complete_of given m past }
{
    if is_repeat(given, m) {
        return saying(Event::Repeat, hunts(past));
    }
    saying(
        Event::Message(m),
        Receiver {
            past,
            at: 1,
            bits: 0,
            given: Some(m),
        },
    )
}

// What the bits say after the pair that this half-cycle completes. Neither reading refuses: no more bits are handed on than it takes,
// and a frame of twenty-nine pairs began as an extended one.
fn reading(at: u8, bits: u32) -> Reading
    requires { at ≡ 62 → bits / 2 ^ 20 % 32 ≡ 15 }
    ensures { result ≡ reading_of at bits }
{
    if at == 22 {
        return read_standard(bits % 512).unwrap();
    }
    if at == 62 {
        return read_extended(bits % 536870912).unwrap();
    }
    Reading::Longer
}

// A pair of different half-cycles is complete.
fn pair(r: Receiver, bits: u32, past: u8) -> Heard
    requires { (r.at ≤ 62) × (r.at ≡ 62 → bits / 2 ^ 20 % 32 ≡ 15) }
    ensures { result ≡ pair_of r bits past }
{
    match reading(r.at, bits) {
        Reading::Message(m) => complete(r.given, m, past),
        Reading::Longer => saying(
            Event::Nothing,
            Receiver {
                past,
                at: r.at + 1,
                bits,
                ..r
            },
        ),
        Reading::Unsupported => saying(Event::BrokenUnsupported, waits(past, 0)),
    }
}

// After a pair of equal half-cycles at a place: the receiver hunts, and waits for the start of the second copy, of a standard frame where the pair is
// one of the first nine.
fn breaks(past: u8, at: u8) -> Receiver
    requires { at ≤ 62 }
    ensures { result ≡ broken past at }
{
    if at <= 22 {
        return waits(past, 64 + at);
    }
    waits(past, 128 + at)
}

// Reading pairs: the first half-cycle of a pair is kept, the second is compared with it.
fn reads(r: Receiver, half: u8) -> Heard
    requires { (half ≤ 1) × (pairs_ok r.at r.bits ≡ true) }
    ensures { result ≡ read_of r half }
{
    let past = shift(r.past, half);
    if r.at % 2 == 1 {
        return saying(
            Event::Nothing,
            Receiver {
                past,
                at: r.at + 1,
                ..r
            },
        );
    }
    let first = r.past % 2;
    if first == half {
        return saying(Event::BrokenPair, breaks(past, r.at));
    }
    pair(r, r.bits % 268435456 * 2 + first as u32, past)
}

// A half-cycle of 0 or 1, in a state that is not refused.
fn takes(r: Receiver, half: u8) -> Heard
    requires { (half ≤ 1) × ((pairs_ok r.at r.bits || waiting_ok r.at) ≡ true) }
    ensures { result ≡ takes_of r half }
{
    if r.at == 0 {
        return hunt(r.past, half);
    }
    if r.at <= 4 {
        return awaits(r, half);
    }
    if r.at <= 62 {
        return reads(r, half);
    }
    wait(r.past, r.at, half)
}
