// Shows bursts on standard output: for each message and each length of buffer the number and count that the writer gives, then the
// whole buffer, in which every byte was a dot before.

#![tactic(auto)]

use ground::{Refusal, refusal_number};
use message::{Function, Message};
use std::io;
use std::io::Write;

// The longest buffer shown.
const ROOM: usize = 126;

// One line: the name, the number given back, the half-cycles written, and the buffer. Each part is a write of its own: one that fails is passed over, and
// the others are tried.
fn show(rt: &impl Print, name: &str, m: Message, length: usize) {
    let mut space = [b'.'; ROOM];
    if ROOM < length {
        return;
    }
    let _ = print!(rt; "{name}");
    let _ = print!(rt; "\t");
    report(rt, burst::write_burst(m, &mut space[..length]));
    for b in &mut space {
        *b = digit(*b);
    }
    let _ = io::writer(rt).write_all(&space[..length]);
    let _ = println!(rt);
}

// The number given back and the count.
fn report(rt: &impl Print, answer: Result<usize, Refusal>) {
    match answer {
        Ok(n) => print_two(rt, 0, n),
        Err(why) => print_two(rt, refusal_number(why), 0),
    }
}

fn print_two(rt: &impl Print, number: u8, count: usize) {
    let _ = print!(rt; "{number}");
    let _ = print!(rt; "\t");
    let _ = print!(rt; "{count}");
    let _ = print!(rt; "\t");
}

// A half-cycle as a digit; a byte that was not written stays a dot.
fn digit(b: u8) -> u8 {
    if b < 2 { b + b'0' } else { b }
}

// An extended message: B2 to level 5.
fn extended() -> Message {
    Message::Extended {
        house: 1,
        unit: 1,
        data: 197,
        command: 49,
    }
}

fn address(house: u8, unit: u8) -> Message {
    Message::Address { house, unit }
}

// House A, on.
fn a_on() -> Message {
    Message::Function {
        house: 0,
        function: Function::On,
    }
}

// House P, status request: the highest house and the highest code.
fn p_status_request() -> Message {
    Message::Function {
        house: 15,
        function: Function::StatusRequest,
    }
}

fn main(rt: HostRuntime) {
    show(&rt, "A1", address(0, 0), 44);
    show(&rt, "A1", address(0, 0), 46);
    show(&rt, "A1", address(0, 0), 43);
    show(&rt, "A1", address(0, 0), 0);
    show(&rt, "A ON", a_on(), 44);
    show(&rt, "M13", address(12, 12), 44);
    show(&rt, "P STATUS REQUEST", p_status_request(), 44);
    show(&rt, "B2 C5 31", extended(), 124);
    show(&rt, "B2 C5 31", extended(), 126);
    show(&rt, "B2 C5 31", extended(), 123);
    show(&rt, "house 16", address(16, 0), 44);
    show(&rt, "unit 16", address(0, 16), 43);
}
