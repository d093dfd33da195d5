// The payload of a packet on the X-10 network: the messages that it stands for, and the payload that a message makes.
ghost use Rattle.std.specs.Prelude.{◌≡◌, ◌<◌, ◌≤◌, true, [], ◌∷◌, length};
ghost use Rattle.ground.specs.Refusals.{judged, reports, refuses, count_report};
ghost use Rattle.lynx_net.specs.Payloads.{form_of, units_in, units_fit, closed_units, closed_extended, closed_alone, fits_form, payload_ok, messages_of};
ghost use Rattle.lynx_net.specs.Payloads.{payload_of, function_sent, has_payload};
ghost use Rattle.lynx_net.specs.Lists.{number_of, unit_count, listed, nth, with_units, ending_only, held_by, payload_causes, payload_answer, payload_report};
ghost use Rattle.lynx_net.specs.Packets.{front_answer, front_after, alone_causes, alone_answer, alone_after};

use ground::Refusal;
use message::codes::function_code;
use message::{Function, Message};

// The byte that closes a list of units.
pub const CLOSE: u8 = 0xFF;

// What a payload's first byte asks for.
#[derive(Clone, Copy)]
pub enum Form {
    // A house, 1 to 16 units and FF.
    Addresses,
    // A house, at most so many units and FF; after the units' addresses the function.
    Units(Function, u8),
    // A house, a unit, FF and a data byte: an extended message with this command.
    ExtendedCode(u8),
    // FF: the function for each house.
    EveryHouse(Function),
    // No payload begins with this byte. A case and no `None`: the definitions speak of `form_of` and its forms.
    Unknown,
}

// What comes after the addresses of a payload. Nothing is a case and no `None`: the definition `ending_list` speaks of the three.
#[derive(Clone, Copy)]
pub enum Ending {
    Nothing,
    Message(Message),
    // The function for each house, A to P.
    EveryHouse(Function),
}

// The messages of a payload: an address for each of its units, then the ending. The units are the hexadecimal digits of one number, the first
// the lowest.
#[derive(Clone, Copy)]
pub struct Messages {
    pub house: u8,
    pub count: u8,
    pub units: u64,
    pub ending: Ending,
}

// The form that a first byte asks for.
pub fn form_of(code: u8) -> Form
    ensures { result ≡ form_of code }
{
    match code {
        0x08 => Form::Addresses,
        0x12 => Form::Units(Function::On, 16),
        0x13 => Form::Units(Function::Off, 16),
        0x1F => Form::Units(Function::StatusRequest, 1),
        0x10 => Form::Units(Function::AllUnitsOff, 0),
        0x11 => Form::Units(Function::AllLightsOn, 0),
        0x16 => Form::Units(Function::AllLightsOff, 0),
        0x1D => Form::Units(Function::StatusOn, 0),
        0x1E => Form::Units(Function::StatusOff, 0),
        0xB0 => Form::ExtendedCode(0x30),
        0xB1 => Form::ExtendedCode(0x31),
        0x20 => Form::EveryHouse(Function::AllUnitsOff),
        0x21 => Form::EveryHouse(Function::AllLightsOff),
        0x22 => Form::EveryHouse(Function::AllLightsOn),
        _ => Form::Unknown,
    }
}

// Whether each unit is 0 to 15. Every one is tested: with no early way out all are tested at once.
fn units_fit(units: &[u8]) -> bool
    ensures { result ≡ units_fit units.now }
{
    let mut fit = true;
    for &unit in units {
        fit = fit & (unit <= 15);
    }
    fit
}

// The units as the digits of one number. The last is the highest, so it comes first.
fn number_of(units: &[u8]) -> u64
    requires { (length units.now ≤ 16) × (units_fit units.now ≡ true) }
    ensures { result ≡ number_of units.now }
{
    let mut number = 0;
    for k in (0..units.len()).rev() {
        number = number * 16 + units[k] as u64;
    }
    number
}

// Whether bytes are a house and units, so many at least and at most, closed by FF.
fn closed_units(payload: &[u8], least: usize, most: usize) -> bool
    ensures { result ≡ closed_units least most payload.now }
{
    let n = payload.len();
    if n < 3 {
        return false;
    }
    let count = n - 3;
    if !((least <= count) & (count <= most)) {
        return false;
    }
    let last = n - 1;
    if !((payload[1] <= 15) & (payload[last] == CLOSE)) {
        return false;
    }
    units_fit(&payload[2..last])
}

// Whether bytes are a house, a unit, FF and a data byte.
fn closed_extended(payload: &[u8]) -> bool
    ensures { result ≡ closed_extended payload.now }
{
    if payload.len() != 5 {
        return false;
    }
    (payload[1] <= 15) & (payload[2] <= 15) & (payload[3] == CLOSE)
}

// Whether FF alone follows the first byte.
fn closed_alone(payload: &[u8]) -> bool
    ensures { result ≡ closed_alone payload.now }
{
    if payload.len() != 2 {
        return false;
    }
    payload[1] == CLOSE
}

// Whether bytes are a payload of this form.
fn fits_form(form: Form, payload: &[u8]) -> bool
    ensures { result ≡ fits_form form payload.now }
{
    match form {
        Form::Addresses => closed_units(payload, 1, 16),
        Form::Units(_, most) => closed_units(payload, 0, most as usize),
        Form::ExtendedCode(_) => closed_extended(payload),
        Form::EveryHouse(_) => closed_alone(payload),
        Form::Unknown => false,
    }
}

// Whether bytes are a payload.
pub fn payload_ok(payload: &[u8]) -> bool
    ensures { result ≡ payload_ok payload.now }
{
    if payload.len() < 2 {
        return false;
    }
    fits_form(form_of(payload[0]), payload)
}

// The addresses of a house and units, and what ends them.
fn with_units(payload: &[u8], ending: Ending) -> Messages
    requires { (3 ≤ length payload.now) × (length payload.now ≤ 19) × (units_fit (units_in payload.now) ≡ true) }
    ensures { result ≡ with_units payload.now ending }
{
    let n = payload.len();
    let last = n - 1;
    Messages {
        house: payload[1],
        count: (n - 3) as u8,
        units: number_of(&payload[2..last]),
        ending,
    }
}

fn ended_by(ending: Ending) -> Messages
    ensures { result ≡ ending_only ending }
{
    Messages {
        house: 0,
        count: 0,
        units: 0,
        ending,
    }
}

// The messages of a payload of this form.
fn held_by(form: Form, payload: &[u8]) -> Messages
    requires { (length payload.now ≤ 19) × (fits_form form payload.now ≡ true) }
    ensures { result ≡ held_by form payload.now }
{
    match form {
        Form::Addresses => with_units(payload, Ending::Nothing),
        Form::Units(function, _) => {
            let house = payload[1];
            with_units(
                payload,
                Ending::Message(Message::Function { house, function }),
            )
        }
        Form::ExtendedCode(command) => ended_by(Ending::Message(Message::Extended {
            house: payload[1],
            unit: payload[2],
            data: payload[4],
            command,
        })),
        Form::EveryHouse(function) => ended_by(Ending::EveryHouse(function)),
        Form::Unknown => ended_by(Ending::Nothing),
    }
}

// The messages that a payload stands for. Refuses bytes of none of the forms.
pub fn messages_in(payload: &[u8]) -> Result<Messages, Refusal>
    ensures answer { result ≡ payload_answer payload.now }
    ensures report { payload_report result ≡ judged (payload_causes payload.now) (reports (messages_of payload.now)) refuses }
{
    if payload.len() < 2 {
        return Err(Refusal::Payload);
    }
    let form = form_of(payload[0]);
    if !fits_form(form, payload) {
        return Err(Refusal::Payload);
    }
    Ok(held_by(form, payload))
}

// How many units are addressed: of a value with more than sixteen, sixteen.
pub fn unit_count(ms: Messages) -> usize
    ensures { (result ≡ unit_count ms) × (result ≤ 16) }
{
    if ms.count < 16 { ms.count as usize } else { 16 }
}

// How many messages there are.
pub fn message_count(ms: Messages) -> usize
    ensures { result ≡ length (listed ms) }
{
    let n = unit_count(ms);
    match ms.ending {
        Ending::Nothing => n,
        Ending::Message(_) => n + 1,
        Ending::EveryHouse(_) => n + 16,
    }
}

// The i-th message, from 0 on.
pub fn message_at(ms: Messages, i: usize) -> Option<Message>
    ensures { result ≡ nth (listed ms) i }
{
    let n = unit_count(ms);
    if i < n {
        return Some(Message::Address {
            house: ms.house,
            unit: ((ms.units >> (4 * i)) % 16) as u8,
        });
    }
    match ms.ending {
        Ending::Nothing => None,
        Ending::Message(m) => if i == n { Some(m) } else { None },
        Ending::EveryHouse(function) => if i < n + 16 {
            Some(Message::Function {
                house: (i - n) as u8,
                function,
            })
        } else {
            None
        },
    }
}

// Whether a function has a payload: dim, bright and both hails have none.
fn function_sent(function: Function) -> bool
    ensures { result ≡ function_sent function }
{
    !matches!(
        function,
        Function::Dim | Function::Bright | Function::HailRequest | Function::HailAcknowledge,
    )
}

// Whether a payload means the message alone.
fn has_payload(m: Message) -> bool
    ensures { result ≡ has_payload m }
{
    match m {
        Message::Address { .. } => true,
        Message::Function { function, .. } => function_sent(function),
        Message::Extended { command, .. } => (command == 0x30) | (command == 0x31),
    }
}

// Puts bytes to the buffer's front, if it has room, and answers how many.
fn put_front(bytes: &[u8], buf: &mut [u8]) -> Result<usize, Refusal>
    ensures value { result ≡ front_answer bytes.now (length buf.old) }
    ensures buf_after { buf.new ≡ front_after bytes.now buf.old }
{
    let n = bytes.len();
    if buf.len() < n {
        return Err(Refusal::Short);
    }
    buf[..n].copy_from_slice(bytes);
    Ok(n)
}

// Writes the payload that means a message alone to the front of a lent buffer, and answers how many bytes; bytes beyond it stay.
// Refused, in this order: 2, 22 for a message that has none, 9.
pub fn write_payload(m: Message, buf: &mut [u8]) -> Result<usize, Refusal>
    ensures answer { result ≡ alone_answer m (length buf.old) }
    ensures report { count_report result ≡ judged (alone_causes m (length buf.old)) (reports (length (payload_of m) ∷ [])) refuses }
    ensures buffer { buf.new ≡ alone_after m buf.old }
{
    if !message::valid(m) {
        return Err(Refusal::Message);
    }
    if !has_payload(m) {
        return Err(Refusal::Payload);
    }
    // 08, the house and the unit, FF; 10 and the function's code, the house, FF; 80 and the command, the house and the unit, FF, the data byte.
    match m {
        Message::Address { house, unit } => put_front(&[0x08, house, unit, CLOSE], buf),
        Message::Function { house, function } => {
            put_front(&[0x10 + function_code(function), house, CLOSE], buf)
        }
        Message::Extended {
            house,
            unit,
            data,
            command,
        } => put_front(&[0x80 + command, house, unit, CLOSE, data], buf),
    }
}
