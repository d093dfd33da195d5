// The lines of the trace program, and the trace of a piece of its input.

#![tactic(auto)]

ghost use Rattle.std.specs.Prelude.{◌≡◌, false, ◌+◌, ◌≤◌, length, take};
ghost use Rattle.receiver.specs.Receivers.{step_of};
ghost use Rattle.text.specs.Texts.{digits_of, message_text, Put};
ghost use Rattle.trace_lines.specs.Lines.{field, fields_of, line_text, event_text, room_for};
ghost use Rattle.trace_lines.specs.Trace.{trace_start, printed, half_after, byte_after, traced_of, traced_buffer};

use message::Message;
use receiver::{Event, Receiver, fresh, step};
use text::{Text, decimal, front};

pub mod run;

// The bytes of the buffer that lines are put into, and the last place at which one may begin: no line is longer than 64.
pub const SIZE: usize = 65536;

pub const LAST: usize = 65472;

// The greatest number that a half-cycle has, and that reads are counted to.
pub const GREATEST: u64 = 18446744073709551615;

// What a line says.
#[derive(Clone, Copy)]
pub enum Line {
    Message(Message),
    Repeat,
    BrokenPair,
    BrokenUnsupported,
    BadByte,
}

// Where a trace stands.
#[derive(Clone, Copy)]
pub struct Progress {
    pub receiver: Receiver,
    // The number that the next half-cycle has.
    pub number: u64,
    // A byte that is none of 0, 1, 10 and 13 has come, or the last number was given. No Option or Result: the definition progress_after speaks of it.
    pub stopped: bool,
}

// Where a trace stands after a byte, and the place in the buffer after its line.
#[derive(Clone, Copy)]
pub struct Printed {
    pub progress: Progress,
    pub at: usize,
}

// What became of a piece of the input: where the trace stands, how many of the bytes were taken, and how many are in the buffer, which is lent:
// memory is fixed.
#[derive(Clone, Copy)]
pub struct Traced {
    pub progress: Progress,
    pub taken: usize,
    pub length: usize,
}

// Bytes put at a place, and the place after them. packet_lines has the same for its own buffer: a routine that both call would be open, and have to test again
// whether there is room.
fn put_bytes(out: &mut [u8; SIZE], at: usize, bytes: &[u8]) -> usize
    requires { at + length bytes.now ≤ 65536 }
    ensures { Put out.old at bytes.now out.new result }
{
    let end = at + bytes.len();
    out[at..end].copy_from_slice(bytes);
    end
}

// A text as far as its length.
fn put_text(out: &mut [u8; SIZE], at: usize, text: Text) -> usize
    requires { at + length (take text.length text.bytes) ≤ 65536 }
    ensures { Put out.old at (take text.length text.bytes) out.new result }
{
    put_bytes(out, at, front(&text.bytes, text.length))
}

fn put_number(out: &mut [u8; SIZE], at: usize, number: u64) -> usize
    requires { at + 20 ≤ 65536 }
    ensures { Put out.old at (digits_of number) out.new result }
{
    put_text(out, at, decimal(number))
}

fn put_message(out: &mut [u8; SIZE], at: usize, m: Message) -> usize
    requires { at + 28 ≤ 65536 }
    ensures { Put out.old at (field (message_text 9 m)) out.new result }
{
    let a = put_bytes(out, at, b"\t");
    put_text(out, a, text::message(m, b'\t'))
}

// What follows the number in a line.
fn put_fields(out: &mut [u8; SIZE], at: usize, line: Line) -> usize
    requires { at + 28 ≤ 65536 }
    ensures { Put out.old at (fields_of line) out.new result }
{
    match line {
        Line::Message(m) => put_message(out, at, m),
        Line::Repeat => put_bytes(out, at, b"\tREPEAT"),
        Line::BrokenPair => put_bytes(out, at, b"\tBROKEN\t10"),
        Line::BrokenUnsupported => put_bytes(out, at, b"\tBROKEN\t11"),
        Line::BadByte => put_bytes(out, at, b"\tBADBYTE"),
    }
}

// A whole line, for which there is room.
fn put_line(out: &mut [u8; SIZE], at: usize, number: u64, line: Line) -> usize
    requires { at ≤ 65472 }
    ensures { Put out.old at (line_text number line) out.new result }
{
    let a = put_number(out, at, number);
    let b = put_fields(out, a, line);
    put_bytes(out, b, b"\n")
}

// Puts an event's line, if it has one, into the buffer at a place where a line may begin, and answers the place after it. At any
// other place nothing is put.
pub(crate) fn put_event(out: &mut [u8; SIZE], at: usize, number: u64, event: Event) -> usize
    ensures { Put out.old at (room_for at (event_text number event)) out.new result }
{
    if at > LAST {
        return at;
    }
    match event {
        Event::Nothing => at,
        Event::Message(m) => put_line(out, at, number, Line::Message(m)),
        Event::Repeat => put_line(out, at, number, Line::Repeat),
        Event::BrokenPair => put_line(out, at, number, Line::BrokenPair),
        Event::BrokenUnsupported => put_line(out, at, number, Line::BrokenUnsupported),
        Event::Refused(_) => at,
    }
}

// Where a trace stands before any byte.
pub(crate) fn begin() -> Progress
    ensures { result ≡ trace_start }
{
    Progress {
        receiver: fresh(),
        number: 1,
        stopped: false,
    }
}

// One half-cycle, with its line.
fn print_half(p: Progress, half: u8, out: &mut [u8; SIZE], at: usize) -> Printed
    requires { at ≤ 65472 }
    ensures { (result.progress ≡ half_after p half)
        × Put out.old at (event_text p.number (step_of p.receiver half).event) out.new result.at }
{
    let heard = step(p.receiver, half);
    let place = put_event(out, at, p.number, heard.event);
    if p.number == GREATEST {
        return Printed {
            progress: Progress {
                receiver: heard.next,
                stopped: true,
                ..p
            },
            at: place,
        };
    }
    Printed {
        progress: Progress {
            receiver: heard.next,
            number: p.number + 1,
            stopped: false,
        },
        at: place,
    }
}

// One byte of the input, with the line that it prints.
fn print_byte(p: Progress, b: u8, out: &mut [u8; SIZE], at: usize) -> Printed
    requires { (p.stopped ≡ false) × (at ≤ 65472) }
    ensures { (result.progress ≡ byte_after p b) × Put out.old at (printed p b) out.new result.at }
{
    if (b == 48) | (b == 49) {
        return print_half(p, b - 48, out, at);
    }
    if (b == 10) | (b == 13) {
        return Printed { progress: p, at };
    }
    let place = put_line(out, at, p.number, Line::BadByte);
    Printed {
        progress: Progress { stopped: true, ..p },
        at: place,
    }
}

fn ended(p: Progress, taken: usize, length: usize) -> Traced
    ensures { result ≡ record { progress = p; taken = taken; length = length } }
{
    Traced {
        progress: p,
        taken,
        length,
    }
}

// The trace of a piece of the input, into the buffer from its front on. It ends early where the trace stops, or where the buffer has
// no room for a further line; the rest of the piece is then to be handed in again.
pub(crate) fn trace(p: Progress, input: &[u8], out: &mut [u8; SIZE]) -> Traced
    ensures value { result ≡ traced_of p input.now }
    ensures out_after { out.new ≡ traced_buffer p input.now out.old }
{
    if p.stopped {
        return ended(p, 0, 0);
    }
    let mut q = p;
    let mut at: usize = 0;
    // How many bytes were taken is answered. It is counted: with the place of a `for` in its stead the receiver was kept in memory from turn to turn.
    let mut taken: usize = 0;
    for &b in input {
        if at > LAST {
            return ended(q, taken, at);
        }
        let done = print_byte(q, b, out, at);
        q = done.progress;
        at = done.at;
        taken += 1;
        if q.stopped {
            return ended(q, taken, at);
        }
    }
    ended(q, taken, at)
}
