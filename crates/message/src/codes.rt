// The code numbers of houses, units and functions, and the functions' names.
ghost use Rattle.std.specs.Prelude.{◌≡◌};
ghost use Rattle.ground.specs.Refusals.{number_given};
ghost use Rattle.message.specs.Codes.{code_of, number_of, function_code, meaning_of, padded, name_at, function_causes, function_answer, function_report};

use crate::Function;
use ground::Refusal;

// What a four-bit code stands for where the function bit is 1.
#[derive(Clone, Copy)]
pub(crate) enum Meaning {
    Function(Function),
    Extended,
    Unsupported,
}

// The four-bit code of each house or unit number.
const LINE_CODES: [u8; 16] = [6, 14, 2, 10, 1, 9, 5, 13, 7, 15, 3, 11, 0, 8, 4, 12];

// The house or unit number of each four-bit code.
const LINE_NUMBERS: [u8; 16] = [12, 4, 2, 10, 14, 6, 0, 8, 13, 5, 3, 11, 15, 7, 1, 9];

// What each four-bit code stands for where the function bit is 1.
const MEANINGS: [Meaning; 16] = [
    Meaning::Function(Function::AllUnitsOff),
    Meaning::Function(Function::AllLightsOn),
    Meaning::Function(Function::On),
    Meaning::Function(Function::Off),
    Meaning::Function(Function::Dim),
    Meaning::Function(Function::Bright),
    Meaning::Function(Function::AllLightsOff),
    Meaning::Extended,
    Meaning::Function(Function::HailRequest),
    Meaning::Function(Function::HailAcknowledge),
    Meaning::Unsupported,
    Meaning::Unsupported,
    Meaning::Unsupported,
    Meaning::Function(Function::StatusOn),
    Meaning::Function(Function::StatusOff),
    Meaning::Function(Function::StatusRequest),
];

// The name of each function, at its code; XTC798's names stand at the codes that are no function of ours. A name shorter than
// sixteen bytes is filled up with 0.
const FUNCTION_NAMES: [[u8; 16]; 16] = [
    *b"ALL UNITS OFF\0\0\0",
    *b"ALL LIGHTS ON\0\0\0",
    *b"ON\0\0\0\0\0\0\0\0\0\0\0\0\0\0",
    *b"OFF\0\0\0\0\0\0\0\0\0\0\0\0\0",
    *b"DIM\0\0\0\0\0\0\0\0\0\0\0\0\0",
    *b"BRIGHT\0\0\0\0\0\0\0\0\0\0",
    *b"ALL LIGHTS OFF\0\0",
    *b"EXTENDED CODE 1\0",
    *b"HAIL REQUEST\0\0\0\0",
    *b"HAIL ACKNOWLEDGE",
    *b"EXTENDED CODE 3\0",
    *b"UNUSED\0\0\0\0\0\0\0\0\0\0",
    *b"EXTENDED CODE 2\0",
    *b"STATUS ON\0\0\0\0\0\0\0",
    *b"STATUS OFF\0\0\0\0\0\0",
    *b"STATUS REQUEST\0\0",
];

// The code of a house or unit number, and 0 for a number above 15: no `Option` here and below, since `code_of` and `number_of` say so.
pub(crate) fn line_code(number: u8) -> u8
    ensures { result ≡ code_of number }
{
    let n = number as usize;
    if n < 16 { LINE_CODES[n] } else { 0 }
}

// The house or unit number whose code this is, and 16 for a code above 15.
pub(crate) fn line_number(code: u8) -> u8
    ensures { result ≡ number_of code }
{
    let n = code as usize;
    if n < 16 { LINE_NUMBERS[n] } else { 16 }
}

pub fn function_code(f: Function) -> u8
    ensures { result ≡ function_code f }
{
    f as u8
}

// What a code stands for where the function bit is 1. A number above 15 is no code, and unsupported.
pub(crate) fn meaning_at(code: u8) -> Meaning
    ensures { result ≡ meaning_of code }
{
    let n = code as usize;
    if n < 16 {
        MEANINGS[n]
    } else {
        Meaning::Unsupported
    }
}

// The function that has a code. Refused where none of the twelve has it.
pub fn function_at(code: u8) -> Result<Function, Refusal>
    ensures answer { result ≡ function_answer code }
    ensures number { (function_report result).number ≡ number_given (function_causes code) }
{
    match meaning_at(code) {
        Meaning::Function(f) => Ok(f),
        Meaning::Extended => Err(Refusal::Message),
        Meaning::Unsupported => Err(Refusal::Message),
    }
}

// The name of a function, filled up with 0.
pub fn name_of(f: Function) -> [u8; 16]
    ensures { result ≡ padded (name_at (function_code f)) }
{
    let n = function_code(f) as usize;
    FUNCTION_NAMES[n]
}
