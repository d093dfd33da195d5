// What a turned bit does: of each bit of b and of c, all that the 512 codes for on and off are read as when this bit and the same bit of the
// complement are turned; then the same of a bit that is turned alone. docs/RADIO.md shows the table.

#![tactic(auto)]

ghost use Rattle.std.specs.Prelude.{◌<◌, ◌≤◌};

use ground::Refusal;
use radio::{RadioCommand, read, write};

// Outcomes, each a bit of a set. A unit that has moved by a single weight is that weight: 1, 2, 4 or 8.
const HOUSE: u16 = 16;

const SWITCHED: u16 = 32;

const BRIGHT: u16 = 64;

const DIM: u16 = 128;

const COMPLEMENT: u16 = 256;

const CODE: u16 = 512;

const OTHER: u16 = 1024;

// An on or an off.
#[derive(Clone, Copy)]
struct Switch {
    house: u8,
    unit: u8,
    off: bool,
}

// The on or off of a row: unit after unit, house after house.
fn switch_at(row: usize) -> Switch
    requires { row < 512 }
{
    Switch {
        house: (row / 32) as u8,
        unit: (row / 2 % 16) as u8,
        off: row % 2 == 1,
    }
}

fn command_of(s: Switch) -> RadioCommand {
    if s.off {
        RadioCommand::Off {
            house: s.house,
            unit: s.unit,
        }
    } else {
        RadioCommand::On {
            house: s.house,
            unit: s.unit,
        }
    }
}

// Four bytes with bits of one of them turned.
fn turned(code: [u8; 4], at: usize, mask: u8) -> [u8; 4]
    requires { at < 4 }
{
    let mut t = code;
    t[at] ^= mask;
    t
}

// By which single weight a unit has moved.
fn moved(was: u8, is: u8) -> u16 {
    match was ^ is {
        1 => 1,
        2 => 2,
        4 => 4,
        8 => 8,
        _ => OTHER,
    }
}

// What an on or off has become that is read as another: it differs in one thing.
fn became(was: Switch, house: u8, unit: u8, off: bool) -> u16 {
    let same_house = house == was.house;
    let same_unit = unit == was.unit;
    if off != was.off {
        return if same_house & same_unit {
            SWITCHED
        } else {
            OTHER
        };
    }
    if same_house {
        return moved(was.unit, unit);
    }
    if same_unit { HOUSE } else { OTHER }
}

// Bright or dim of the same house, which only the on of one unit becomes.
fn stepped(was: Switch, house: u8, unit: u8, step: u16) -> u16 {
    if (house == was.house) & (was.unit == unit) & !was.off {
        step
    } else {
        OTHER
    }
}

fn named(was: Switch, command: RadioCommand) -> u16 {
    match command {
        RadioCommand::On { house, unit } => became(was, house, unit, false),
        RadioCommand::Off { house, unit } => became(was, house, unit, true),
        RadioCommand::Bright { house } => stepped(was, house, 2, BRIGHT),
        RadioCommand::Dim { house } => stepped(was, house, 3, DIM),
    }
}

fn outcome(was: Switch, code: [u8; 4]) -> u16 {
    match read(&code) {
        Ok(command) => named(was, command),
        Err(Refusal::Complement) => COMPLEMENT,
        Err(Refusal::Code) => CODE,
        Err(_) => OTHER,
    }
}

// The outcome of the on or off of a row, with bits of two of its four bytes turned.
fn outcome_at(row: usize, first: usize, mask: u8, second: usize, second_mask: u8) -> u16
    requires { (row < 512) × (first < 4) × (second < 4) }
{
    let was = switch_at(row);
    match write(command_of(was)) {
        Ok(code) => outcome(was, turned(turned(code, first, mask), second, second_mask)),
        Err(_) => OTHER,
    }
}

// All outcomes of the 512 codes.
fn outcomes(first: usize, mask: u8, second: usize, second_mask: u8) -> u16
    requires { (first < 4) × (second < 4) }
{
    let mut set = 0;
    for row in 0..512 {
        set |= outcome_at(row, first, mask, second, second_mask);
    }
    set
}

// What is printed of each outcome, in this order.
const WORDS: [(u16, &str); 11] = [
    (8, "unit moved by 8"),
    (4, "unit moved by 4"),
    (2, "unit moved by 2"),
    (1, "unit moved by 1"),
    (HOUSE, "another house"),
    (SWITCHED, "off for on, on for off"),
    (BRIGHT, "unit 3 on: bright"),
    (DIM, "unit 4 on: dim"),
    (COMPLEMENT, "refused 13"),
    (CODE, "refused 14"),
    (OTHER, "something else"),
];

fn print_set(rt: &impl Print, set: u16) {
    for (outcome, words) in WORDS {
        if set & outcome != 0 {
            let _ = print!(rt; "\t");
            let _ = print!(rt; "{words}");
        }
    }
    let _ = println!(rt);
}

// The line of a bit of b or c: b is byte 0 and c byte 2, each followed by its complement.
fn print_bit(rt: &impl Print, name: &str, at: usize, bit: u8)
    requires { (at ≤ 2) × (bit < 8) }
{
    let _ = print!(rt; "{name}");
    let _ = print!(rt; "'s bit ");
    let _ = print!(rt; "{bit}");
    let mask = 1 << bit;
    print_set(rt, outcomes(at, mask, at + 1, mask));
}

// The lines of a byte, the highest bit first.
fn print_byte(rt: &impl Print, name: &str, at: usize)
    requires { at ≤ 2 }
{
    for bit in (0..8).rev() {
        print_bit(rt, name, at, bit);
    }
}

// All outcomes where one bit of the 32 is turned alone, no second bit with it.
fn print_alone(rt: &impl Print) {
    let mut set = 0;
    for place in 0..32 {
        set |= outcomes(place / 8, 1 << (place % 8), 0, 0);
    }
    let _ = print!(rt; "any bit alone");
    print_set(rt, set);
}

// Each part is a write of its own: one that fails is passed over, and the others are tried.
fn main(rt: HostRuntime) {
    print_byte(&rt, "b", 0);
    print_byte(&rt, "c", 2);
    print_alone(&rt);
}
