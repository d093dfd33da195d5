// Messages and answers as numbers: what a caller in another language hands in and gets back.

#![tactic(auto)]

ghost use Rattle.std.specs.Prelude.{◌≡◌, ◌+◌, ◌≤◌, length};
ghost use Rattle.std.proofs.lemmas.List.Edits.{sets};
ghost use Rattle.ground.specs.Refusals.{number_given};
ghost use Rattle.wire.specs.Messages.{taken_message, message_from, message_causes, message_report, message_bytes, listed};
ghost use Rattle.wire.specs.Messages.{none_bytes, kept_bytes, kept_from, kept_causes, kept_report};
ghost use Rattle.wire.specs.Packed.{packed};

use ground::{Refusal, refusal_number};
use message::Message;
use message::codes::{function_at, function_code};

// The five numbers of a message: its kind (1 address, 2 function, 3 extended), its house, its unit or its function's code, and the
// data and the command of an extended one. Numbers, as C hands them in.
#[derive(Clone, Copy)]
pub struct Five {
    pub kind: u8,
    pub house: u8,
    pub third: u8,
    pub data: u8,
    pub command: u8,
}

// A message, refused where its house or unit is above 15.
fn taken(m: Message) -> Result<Message, Refusal>
    ensures { result ≡ taken_message m }
{
    if !message::valid(m) {
        return Err(Refusal::Message);
    }
    Ok(m)
}

// The message that five numbers say. Data and command count for an extended message only. Refused where they make no message, or
// one with a house or unit above 15.
pub fn message_from(
    kind: u8,
    house: u8,
    third: u8,
    data: u8,
    command: u8,
) -> Result<Message, Refusal>
    ensures answer { result ≡ message_from kind house third «data» command }
    ensures number { (message_report result).number ≡ number_given (message_causes kind house third «data» command) }
{
    if kind == 1 {
        return taken(Message::Address { house, unit: third });
    }
    if kind == 3 {
        return taken(Message::Extended {
            house,
            unit: third,
            data,
            command,
        });
    }
    if kind != 2 {
        return Err(Refusal::Message);
    }
    // A `match` and no `?`: a must-fail edit can then change the answer alone.
    match function_at(third) {
        Ok(function) => taken(Message::Function { house, function }),
        Err(_) => Err(Refusal::Message),
    }
}

// The five numbers of a message, 0 for data and command where it has none.
pub fn five_of(m: Message) -> Five
    ensures { listed result ≡ message_bytes m }
{
    match m {
        Message::Address { house, unit } => Five {
            kind: 1,
            house,
            third: unit,
            data: 0,
            command: 0,
        },
        Message::Function { house, function } => Five {
            kind: 2,
            house,
            third: function_code(function),
            data: 0,
            command: 0,
        },
        Message::Extended {
            house,
            unit,
            data,
            command,
        } => Five {
            kind: 3,
            house,
            third: unit,
            data,
            command,
        },
    }
}

// The five numbers that stand for no message.
pub fn five_none() -> Five
    ensures { listed result ≡ none_bytes }
{
    Five {
        kind: 0,
        house: 0,
        third: 0,
        data: 0,
        command: 0,
    }
}

// The five numbers of a message, or those that stand for none.
pub fn five_kept(kept: Option<Message>) -> Five
    ensures { listed result ≡ kept_bytes kept }
{
    match kept {
        None => five_none(),
        Some(m) => five_of(m),
    }
}

// The message that five bytes keep, or none. Refused where they are neither five 0 nor as a message's are written.
pub fn kept_from(
    kind: u8,
    house: u8,
    third: u8,
    data: u8,
    command: u8,
) -> Result<Option<Message>, Refusal>
    ensures answer { result ≡ kept_from kind house third «data» command }
    ensures number { (kept_report result).number ≡ number_given (kept_causes kind house third «data» command) }
{
    let ends = (data == 0) & (command == 0);
    if (kind == 0) & (house == 0) & (third == 0) & ends {
        return Ok(None);
    }
    if !((kind == 3) | ends) {
        return Err(Refusal::State);
    }
    match message_from(kind, house, third, data, command) {
        Ok(m) => Ok(Some(m)),
        Err(_) => Err(Refusal::State),
    }
}

// An answer as one number: its count, and in the lowest eight bits the number given back.
pub fn pack(a: Result<usize, Refusal>) -> u64
    ensures { result ≡ packed a }
{
    match a {
        Ok(n) => n as u64 % 72057594037927936 * 256,
        Err(why) => refusal_number(why) as u64,
    }
}
