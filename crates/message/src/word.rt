// The bits that a frame carries, as one number of 9 or 29 bits, and the message that such a number says.
ghost use Rattle.std.specs.Prelude.{◌≡◌, ◌∷◌, []};
ghost use Rattle.ground.specs.Refusals.{judged, reports, refuses, refusal_number};
ghost use Rattle.message.specs.Words.{word_of, word_in, nine, standard_of, extended_of, said, word_causes, word_answer};
ghost use Rattle.message.specs.Words.{word_report, standard_causes, standard_answer, extended_causes, extended_answer, reading_report};

use crate::codes::{Meaning, function_code, line_code, line_number, meaning_at};
use crate::{Message, valid};
use ground::Refusal;

// A frame's bits, highest first, as one number, and how many there are: 9 or 29.
#[derive(Clone, Copy)]
pub struct Word {
    pub bits: u32,
    pub count: u32,
}

// What a frame's bits say: a message; that more are to come; an unsupported code.
#[derive(Clone, Copy)]
pub enum Reading {
    Message(Message),
    Longer,
    Unsupported,
}

// House code, code and function bit as one number.
fn nine_bits(house: u8, code: u8, function_bit: u8) -> u32
    ensures { result ≡ nine house code function_bit }
{
    (house as u32 * 16 + code as u32) * 2 + function_bit as u32
}

// The bits of a message whose house and unit are 0 to 15.
fn bits_of(m: Message) -> Word
    ensures { result ≡ word_in m }
{
    match m {
        Message::Address { house, unit } => Word {
            bits: nine_bits(line_code(house), line_code(unit), 0),
            count: 9,
        },
        Message::Function { house, function } => Word {
            bits: nine_bits(line_code(house), function_code(function), 1),
            count: 9,
        },
        Message::Extended {
            house,
            unit,
            data,
            command,
        } => {
            let head = nine_bits(line_code(house), 7, 1);
            let u = line_code(unit);
            Word {
                bits: ((head * 16 + u as u32) * 256 + data as u32) * 256 + command as u32,
                count: 29,
            }
        }
    }
}

// The bits that a message's frame carries. Refused where its house or unit is above 15.
pub fn word_of(m: Message) -> Result<Word, Refusal>
    ensures answer { result ≡ word_answer m }
    ensures report { word_report result ≡ judged (word_causes m) (reports (word_in m ∷ [])) refuses }
{
    if !valid(m) {
        return Err(Refusal::Message);
    }
    Ok(bits_of(m))
}

// What nine bits of an address or a function say.
fn nine_read(bits: u32) -> Reading
    ensures { result ≡ standard_of bits }
{
    let house = line_number((bits / 32 % 16) as u8);
    let code = (bits / 2 % 16) as u8;
    if bits % 2 == 0 {
        let unit = line_number(code);
        return Reading::Message(Message::Address { house, unit });
    }
    match meaning_at(code) {
        Meaning::Function(f) => Reading::Message(Message::Function { house, function: f }),
        Meaning::Extended => Reading::Longer,
        Meaning::Unsupported => Reading::Unsupported,
    }
}

// What a frame's first nine bits say. Refused where the number has more.
pub fn read_standard(bits: u32) -> Result<Reading, Refusal>
    ensures answer { result ≡ standard_answer bits }
    ensures report { reading_report result ≡ judged (standard_causes bits) (said (standard_of bits)) refuses }
{
    if 512 <= bits {
        return Err(Refusal::State);
    }
    Ok(nine_read(bits))
}

// The extended message that 29 bits say. Refused where the number has more, or where its first nine are no head of an extended frame.
pub fn read_extended(bits: u32) -> Result<Reading, Refusal>
    ensures answer { result ≡ extended_answer bits }
    ensures report { reading_report result ≡ judged (extended_causes bits) (reports (extended_of bits ∷ [])) refuses }
{
    if 536870912 <= bits {
        return Err(Refusal::State);
    }
    if bits / 1048576 % 32 != 15 {
        return Err(Refusal::State);
    }
    Ok(Reading::Message(Message::Extended {
        house: line_number((bits / 33554432 % 16) as u8),
        unit: line_number((bits / 65536 % 16) as u8),
        data: (bits / 256 % 256) as u8,
        command: (bits % 256) as u8,
    }))
}
