// The mains route: half-cycles through the receiver in lent bytes, and each message that it gives applied to the room.
ghost use Rattle.std.specs.Prelude.{◌≡◌, true, List, ℕ, ◌+◌, ◌-◌, ◌*◌, ◌≤◌, ◌<◌, length, get_or, replicate};
ghost use Rattle.std.proofs.lemmas.List.Edits.{sets};
ghost use Rattle.ground.specs.Records.{differing};
ghost use Rattle.record.specs.Layout.{RECORDS};
ghost use Rattle.room.specs.Rooms.{room_of, room_ok, changes, room_report};
ghost use Rattle.room.specs.Lent.{second_byte, stretch_answers, Prepared, remains, remains_by};
ghost use Rattle.room.specs.Mains.{room_given, answer_given, answer_bytes, lent_to, mains_answer, mains_report, mains_after, lent_after};

use crate::{Changes, apply_valid, judge, tally};
use ground::{Refusal, count_of};
use message::Message;
use receiver::Receiver;
use receiver::lent::{put_receiver, receiver_in, run_to_message};
use record::{RECORD_BYTES, RECORDS};
use shutter_table::SHUTTER_BYTES;
use wire::pack;

// The receiver after a slice, and what has changed in the room.
#[derive(Clone, Copy)]
struct Heeded {
    next: Receiver,
    changes: Changes,
}

// The second byte of each of 256 records of so many bytes: of a module its level, of a shutter its opening.
fn second_bytes(t: &[u8], size: usize) -> [u8; 256]
    requires { (RECORDS * size ≤ length t.now) × (2 ≤ size) × (size ≤ 20) }
    ensures { (k : ℕ) → k < RECORDS → get_or result k 0 ≡ second_byte size t.now k }
{
    let mut kept = [0; 256];
    for i in 0..RECORDS {
        kept[i] = t[i * size + 1];
    }
    kept
}

// How many of 256 records have another second byte than that of a table before.
fn changed_from(kept: [u8; 256], t: &[u8], size: usize) -> usize
    requires { (RECORDS * size ≤ length t.now) × (2 ≤ size) × (size ≤ 20) }
    ensures { (before : List ℕ) → ((k : ℕ) → k < RECORDS → get_or kept k 0 ≡ second_byte size before k)
        → result ≡ differing (second_byte size) RECORDS before t.now }
{
    let mut count: usize = 0;
    for i in 0..RECORDS {
        count += count_of(kept[i] == t[i * size + 1]);
    }
    count
}

// Puts the eight bytes of an answer from `at` on, the lowest first.
fn put_answer(answers: &mut [u8], at: usize, answer: u64)
    requires { at + 8 ≤ length answers.old }
    ensures { answers.new ≡ sets answers.old at (answer_bytes answer) }
{
    answers[at..at + 8].copy_from_slice(&answer.to_le_bytes());
}

// Applies the message given, if any, and answers as one number what the tables answered.
fn answer_to(table: &mut [u8], shutters: &mut [u8], given: Option<Message>) -> u64
    requires { room_ok (room_of table.old shutters.old) ≡ true }
    ensures answer { result ≡ answer_given given (room_of table.old shutters.old) }
    ensures room { room_of table.new shutters.new ≡ room_given given (room_of table.old shutters.old) }
{
    match given {
        None => 0,
        Some(m) => pack(tally(apply_valid(table, shutters, m))),
    }
}

// Puts the answer 0 to the half-cycles from a place on up to another.
fn no_answers(answers: &mut [u8], from: usize, to: usize)
    requires { (from ≤ to) × (8 * to ≤ length answers.old) }
    ensures { answers.new ≡ sets answers.old (8 * from) (replicate (8 * (to - from)) 0) }
{
    answers[8 * from..8 * to].fill(0);
}

// Puts the answers to a stretch of half-cycles, of which the last may have given a message, which is applied.
fn answer_stretch(
    table: &mut [u8],
    shutters: &mut [u8],
    answers: &mut [u8],
    from: usize,
    to: usize,
    given: Option<Message>,
)
    requires { (room_ok (room_of table.old shutters.old) ≡ true) × (from < to) × (8 * to ≤ length answers.old) }
    ensures room { room_of table.new shutters.new ≡ room_given given (room_of table.old shutters.old) }
    ensures written { answers.new ≡ sets answers.old (8 * from)
        (stretch_answers (to - from) given (room_of table.old shutters.old)) }
{
    no_answers(answers, from, to - 1);
    let answer = answer_to(table, shutters, given);
    put_answer(answers, 8 * (to - 1), answer);
}

// Half-cycles from a place on, stretch after stretch, each message applied before the next stretch. Tables and buffers are handed on one by one:
// of a struct of references every contract would have to say besides that each of them still leads to the same slice.
fn heed(
    r: Receiver,
    halves: &[u8],
    from: usize,
    table: &mut [u8],
    shutters: &mut [u8],
    events: &mut [u8],
    answers: &mut [u8],
) -> Receiver
    requires { Prepared r halves.now from (room_of table.old shutters.old) events.old answers.old }
    ensures { remains result (room_of table.new shutters.new) events.new answers.new
        ≡ remains_by halves.now r from (room_of table.old shutters.old) events.old answers.old }
{
    let mut current = r;
    let mut i = from;
    // No counted loop: the place goes on by what a stretch took.
    while i < halves.len() {
        let stretch = run_to_message(current, halves, i, events);
        let to = stretch.answer.unwrap_or(halves.len());
        answer_stretch(table, shutters, answers, i, to, stretch.given);
        current = stretch.next;
        i = to;
    }
    current
}

// All half-cycles. The levels and openings before them are kept only where there is a message.
fn heed_all(
    r: Receiver,
    halves: &[u8],
    table: &mut [u8],
    shutters: &mut [u8],
    events: &mut [u8],
    answers: &mut [u8],
) -> Heeded
    requires { Prepared r halves.now 0 (room_of table.old shutters.old) events.old answers.old }
    ensures left { remains result.next (room_of table.new shutters.new) events.new answers.new
        ≡ remains_by halves.now r 0 (room_of table.old shutters.old) events.old answers.old }
    ensures counts { result.changes ≡ changes (room_of table.old shutters.old) (room_of table.new shutters.new) }
{
    let stretch = run_to_message(r, halves, 0, events);
    let to = stretch.answer.unwrap_or(halves.len());
    let given = stretch.given;
    if given.is_none() {
        no_answers(answers, 0, to);
        return Heeded {
            next: stretch.next,
            changes: Changes {
                levels: 0,
                openings: 0,
            },
        };
    }
    let levels = second_bytes(table, RECORD_BYTES);
    let openings = second_bytes(shutters, SHUTTER_BYTES);
    answer_stretch(table, shutters, answers, 0, to, given);
    let last = heed(stretch.next, halves, to, table, shutters, events, answers);
    Heeded {
        next: last,
        changes: Changes {
            levels: changed_from(levels, table, RECORD_BYTES),
            openings: changed_from(openings, shutters, SHUTTER_BYTES),
        },
    }
}

// Hands half-cycles to the receiver in thirteen lent bytes, one after the other, and applies each message that it gives to a room's tables
// before the next. Each half-cycle leaves the six bytes of its event and the eight of what the tables answered. Answers how many modules have
// another level and how many shutters another opening than before. Refused, it changes nothing.
// Refused, in this order: 1, 16, 3, 17, 6, 9.
pub fn mains_route(
    state: &mut [u8],
    halves: &[u8],
    table: &mut [u8],
    shutters: &mut [u8],
    events: &mut [u8],
    answers: &mut [u8],
) -> Result<Changes, Refusal>
    ensures answer { result ≡ mains_answer (lent_to state.old halves.now events.old answers.old)
        (room_of table.old shutters.old) }
    ensures report { room_report result ≡ mains_report (lent_to state.old halves.now events.old answers.old)
        (room_of table.old shutters.old) }
    ensures room { room_of table.new shutters.new
        ≡ mains_after (lent_to state.old halves.now events.old answers.old)
        (room_of table.old shutters.old) }
    ensures lent { lent_to state.new halves.now events.new answers.new
        ≡ lent_after (lent_to state.old halves.now events.old answers.old)
        (room_of table.old shutters.old) }
{
    judge(table, shutters)?;
    let r = receiver_in(state)?;
    if answers.len() / 8 < halves.len() {
        return Err(Refusal::Short);
    }
    if events.len() / 6 < halves.len() {
        return Err(Refusal::Short);
    }
    let heeded = heed_all(r, halves, table, shutters, events, answers);
    let _ = put_receiver(state, heeded.next);
    Ok(heeded.changes)
}
