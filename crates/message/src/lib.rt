// X-10 messages: what a press becomes, before it is half-cycles on the mains or bytes by radio.

#![tactic(auto)]

ghost use Rattle.std.specs.Prelude.{◌≡◌};
ghost use Rattle.message.specs.Messages.{message_ok, same_message};

pub mod codes;
pub mod word;

// The twelve functions, each with its four-bit code.
#[derive(Clone, Copy, Debug, PartialEq, Eq)]
pub enum Function {
    AllUnitsOff = 0,
    AllLightsOn = 1,
    On = 2,
    Off = 3,
    Dim = 4,
    Bright = 5,
    AllLightsOff = 6,
    HailRequest = 8,
    HailAcknowledge = 9,
    StatusOn = 13,
    StatusOff = 14,
    StatusRequest = 15,
}

// The three kinds of message. Houses A to P and units 1 to 16 are the numbers 0 to 15; a message with a house or a unit
// above 15 is a value that routines refuse.
#[derive(Clone, Copy, Debug, PartialEq, Eq)]
pub enum Message {
    Address {
        house: u8,
        unit: u8,
    },
    Function {
        house: u8,
        function: Function,
    },
    Extended {
        house: u8,
        unit: u8,
        data: u8,
        command: u8,
    },
}

// Whether the house and the unit are 0 to 15. Tested by branches, so that the compiler can use both bounds in the caller.
pub fn valid(m: Message) -> bool
    ensures { result ≡ message_ok m }
{
    match m {
        Message::Address { house, unit } => if house <= 15 { unit <= 15 } else { false },
        Message::Function { house, .. } => house <= 15,
        Message::Extended { house, unit, .. } => if house <= 15 { unit <= 15 } else { false },
    }
}

// Whether two messages are one and the same.
pub fn same(a: Message, b: Message) -> bool
    ensures { result ≡ same_message a b }
{
    a == b
}
