// Radio bytes: the four bytes of a radio command, the command that four bytes name, and the messages that it means.

#![tactic(auto)]

ghost use Rattle.std.specs.Prelude.{◌≡◌, true, [], ◌∷◌, ◌+◌, ◌/◌, ◌<◌};
ghost use Rattle.ground.specs.Refusals.{judged, reports, refuses};
ghost use Rattle.radio.specs.Codes.{nibble_of, house_of_nibble, command_ok, house_in_b, bit_at, unit_in_b, unit_in_c, unit_from, byte_b, byte_c};
ghost use Rattle.radio.specs.Codes.{code_from, four_bytes, command_of, switch_code, step_code};
ghost use Rattle.radio.specs.Answers.{write_causes, write_answer, write_report, named_answer, read_causes, read_answer, read_report};
ghost use Rattle.radio.specs.Answers.{address_then, messages_meant, messages_of, messages_causes, messages_answer, messages_report};

use ground::Refusal;
use message::{Function, Message};

// What a transmitter sends. Houses A to P and units 1 to 16 are the numbers 0 to 15; a command with a house or a unit above
// 15 is a value that routines refuse.
#[derive(Clone, Copy)]
pub enum RadioCommand {
    On { house: u8, unit: u8 },
    Off { house: u8, unit: u8 },
    Bright { house: u8 },
    Dim { house: u8 },
}

// The messages that a command means, in order.
#[derive(Clone, Copy)]
pub enum RadioMessages {
    Two(Message, Message),
    One(Message),
}

// The high four bits of b for each house.
const HOUSE_NIBBLES: [u8; 16] = [6, 7, 4, 5, 8, 9, 10, 11, 14, 15, 12, 13, 0, 1, 2, 3];

// The high four bits of b for a house, and 0 for a number above 15: no `Option`, since the definition `nibble_of` says so.
fn nibble_of(house: u8) -> u8
    ensures { result ≡ nibble_of house }
{
    let n = house as usize;
    if n < 16 { HOUSE_NIBBLES[n] } else { 0 }
}

// The house that has these high four bits of b: computed, since a second table would be rebuilt on the stack at each use.
fn house_of_nibble(nibble: u8) -> u8
    requires { nibble < 16 }
    ensures { result ≡ house_of_nibble nibble }
{
    (nibble ^ (nibble / 4 % 2 * 10)) ^ 12
}

// Whether the house and the unit are 0 to 15.
fn valid(command: RadioCommand) -> bool
    ensures { result ≡ command_ok command }
{
    match command {
        RadioCommand::On { house, unit } | RadioCommand::Off { house, unit } => (house <= 15)
            & (unit <= 15),
        RadioCommand::Bright { house } | RadioCommand::Dim { house } => house <= 15,
    }
}

// The house in b's high four bits, and the unit's 8 in bit 2.
fn house_and_eight(house: u8, unit: u8) -> u8
    ensures { result ≡ house_in_b house + unit_in_b unit }
{
    nibble_of(house) * 16 + unit / 8 % 2 * 4
}

// The unit's 4, 2 and 1 in bits 6, 3 and 4 of c.
fn four_two_one(unit: u8) -> u8
    ensures { result ≡ unit_in_c unit }
{
    unit / 4 % 2 * 64 + unit / 2 % 2 * 8 + unit % 2 * 16
}

fn byte_b(command: RadioCommand) -> u8
    ensures { result ≡ byte_b command }
{
    match command {
        RadioCommand::On { house, unit } | RadioCommand::Off { house, unit } => house_and_eight(
            house, unit,
        ),
        RadioCommand::Bright { house } | RadioCommand::Dim { house } => house_and_eight(house, 0),
    }
}

fn byte_c(command: RadioCommand) -> u8
    ensures { result ≡ byte_c command }
{
    match command {
        RadioCommand::On { unit, .. } => four_two_one(unit),
        RadioCommand::Off { unit, .. } => four_two_one(unit) + 32,
        RadioCommand::Bright { .. } => 136,
        RadioCommand::Dim { .. } => 152,
    }
}

// The four bytes of a command: b, its complement, c, its complement. Refuses a house or unit above 15.
pub fn write(command: RadioCommand) -> Result<[u8; 4], Refusal>
    ensures answer { result ≡ write_answer command }
    ensures report { write_report result ≡ judged (write_causes command) (reports (four_bytes command)) refuses }
{
    if !valid(command) {
        return Err(Refusal::Message);
    }
    let b = byte_b(command);
    let c = byte_c(command);
    Ok([b, 255 - b, c, 255 - c])
}

// Whether b and c are those of an on or off: bits 3, 1 and 0 of b, whose mask is 11, and bits 7, 2, 1 and 0 of c are 0.
fn is_switch(b: u8, c: u8) -> bool
    ensures { result ≡ switch_code (code_from b c) }
{
    (c < 128) & (b & 11 == 0) & (c % 8 == 0)
}

// Whether b and c are those of a bright or dim.
fn is_step(b: u8, c: u8) -> bool
    ensures { result ≡ step_code (code_from b c) }
{
    (b % 16 == 0) & ((c == 136) | (c == 152))
}

// A byte's bit i, 0 or 1.
fn bit_at(byte: u8, i: u8) -> u8
    requires { i < 8 }
    ensures { result ≡ bit_at byte i }
{
    (byte >> i) % 2
}

// The unit in b and c: its 8 is b's bit 2; its 4, 2, 1 are c's bits 6, 3, 4.
fn unit_from(b: u8, c: u8) -> u8
    ensures { result ≡ unit_from b c }
{
    let its_8 = bit_at(b, 2) * 8;
    let its_4 = bit_at(c, 6) * 4;
    let its_2 = bit_at(c, 3) * 2;
    let its_1 = bit_at(c, 4) * 1;
    // Lowest first: highest first `read` is too large to be inlined (docs/DECISIONS.md).
    its_1 + its_2 + its_4 + its_8
}

// The on or off that b and c name.
fn switch_of(house: u8, b: u8, c: u8) -> RadioCommand
    requires { (house ≡ house_of_nibble (b / 16)) × (switch_code (code_from b c) ≡ true) }
    ensures { result ≡ command_of (code_from b c) }
{
    let unit = unit_from(b, c);
    if bit_at(c, 5) == 0 {
        RadioCommand::On { house, unit }
    } else {
        RadioCommand::Off { house, unit }
    }
}

// The command that b and c name. Refuses b and c that no command has. One call of house_of_nibble for all of them keeps read small
// enough to be inlined.
fn command_of(b: u8, c: u8) -> Result<RadioCommand, Refusal>
    ensures { result ≡ named_answer (code_from b c) }
{
    let house = house_of_nibble(b / 16);
    if is_switch(b, c) {
        return Ok(switch_of(house, b, c));
    }
    if !is_step(b, c) {
        return Err(Refusal::Code);
    }
    // Here c is 136 or 152.
    if c == 136 {
        return Ok(RadioCommand::Bright { house });
    }
    Ok(RadioCommand::Dim { house })
}

// The command that four bytes name. Refuses what are not four bytes, then pairs that are not complementary, then bytes that no
// command has.
pub fn read(code: &[u8]) -> Result<RadioCommand, Refusal>
    ensures answer { result ≡ read_answer code.now }
    ensures report { read_report result ≡ judged (read_causes code.now) (reports (command_of code.now ∷ [])) refuses }
{
    if code.len() != 4 {
        return Err(Refusal::RfLength);
    }
    let b = code[0];
    let c = code[2];
    if (code[1] != 255 - b) | (code[3] != 255 - c) {
        return Err(Refusal::Complement);
    }
    command_of(b, c)
}

// An address, then a function.
fn addressed(house: u8, unit: u8, function: Function) -> RadioMessages
    ensures { result ≡ address_then house unit function }
{
    RadioMessages::Two(
        Message::Address { house, unit },
        Message::Function { house, function },
    )
}

// The messages of a command.
fn messages_meant(command: RadioCommand) -> RadioMessages
    ensures { result ≡ messages_meant command }
{
    match command {
        RadioCommand::On { house, unit } => addressed(house, unit, Function::On),
        RadioCommand::Off { house, unit } => addressed(house, unit, Function::Off),
        RadioCommand::Bright { house } => RadioMessages::One(Message::Function {
            house,
            function: Function::Bright,
        }),
        RadioCommand::Dim { house } => RadioMessages::One(Message::Function {
            house,
            function: Function::Dim,
        }),
    }
}

// What a command means, as messages on the mains. Refuses a house or unit above 15.
pub fn messages(command: RadioCommand) -> Result<RadioMessages, Refusal>
    ensures answer { result ≡ messages_answer command }
    ensures report { messages_report result ≡ judged (messages_causes command) (reports (messages_of command)) refuses }
{
    if !valid(command) {
        return Err(Refusal::Message);
    }
    Ok(messages_meant(command))
}
