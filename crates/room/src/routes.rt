// The radio route: four bytes through the reader, and the messages that they mean applied to the room. The mains route is in mains.rt.
ghost use Rattle.std.specs.Prelude.{◌≡◌, true};
ghost use Rattle.radio.specs.Codes.{command_ok};
ghost use Rattle.radio.specs.Answers.{messages_of};
ghost use Rattle.room.specs.Rooms.{room_of, room_ok, changes, room_report, changes_of};
ghost use Rattle.room.specs.Routes.{room_after_all, radio_after, radio_answer, radio_report};

use crate::{Changes, apply_valid, judge};
use ground::Refusal;
use radio::{RadioCommand, RadioMessages, messages, read};

// What has changed, by the answer; nothing where it is a refusal.
fn changes_of(answer: Result<Changes, Refusal>) -> Changes
    ensures { result ≡ changes_of answer }
{
    answer.unwrap_or(Changes {
        levels: 0,
        openings: 0,
    })
}

// Applies the messages of a radio command. An address changes no level and no opening, so the last message's counts are those of both.
fn obey(table: &mut [u8], shutters: &mut [u8], k: RadioCommand) -> Changes
    requires { (room_ok (room_of table.old shutters.old) ≡ true) × (command_ok k ≡ true) }
    ensures counts { result ≡ changes (room_of table.old shutters.old) (room_of table.new shutters.new) }
    ensures room { room_of table.new shutters.new ≡ room_after_all (messages_of k) (room_of table.old shutters.old) }
{
    match messages(k).unwrap() {
        RadioMessages::Two(first, second) => {
            let _ = apply_valid(table, shutters, first);
            changes_of(apply_valid(table, shutters, second))
        }
        RadioMessages::One(only) => changes_of(apply_valid(table, shutters, only)),
    }
}

// Applies what a radio code means to a room's tables, both messages or none, and answers how many modules have another level and how many
// shutters another opening than before. Refused, it leaves them as they are.
// Refused, in this order: 1, 16, 3, 17, 12, 13, 14.
pub fn radio_route(table: &mut [u8], shutters: &mut [u8], code: &[u8]) -> Result<Changes, Refusal>
    ensures answer { result ≡ radio_answer code.now (room_of table.old shutters.old) }
    ensures report { room_report result ≡ radio_report code.now (room_of table.old shutters.old) }
    ensures room { room_of table.new shutters.new ≡ radio_after code.now (room_of table.old shutters.old) }
{
    judge(table, shutters)?;
    let k = read(code)?;
    Ok(obey(table, shutters, k))
}
