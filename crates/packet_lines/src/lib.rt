// The lines of the packet program: the bytes that a line of hexadecimal digits names, and what is printed for it.

#![tactic(auto)]

ghost use Rattle.std.specs.Prelude.{◌≡◌, ◌+◌, ◌≤◌, ◌<◌, length, take};
ghost use Rattle.ground.specs.Refusals.{refusal_number};
ghost use Rattle.lynx_net.specs.Lists.{listed, nth};
ghost use Rattle.lynx_net.specs.Packets.{read_answer};
ghost use Rattle.text.specs.Texts.{digits_of, hex_of, message_text, Put};
ghost use Rattle.packet_lines.specs.Lines.{digit_of, place_after, count_after, stored, line_start, first_of, second_of, kept_by_second};
ghost use Rattle.packet_lines.specs.Lines.{line_after, kept_after, bad_place};
ghost use Rattle.packet_lines.specs.Answers.{field, field_at, fields_of, packet_text, answer_text, line_text};

use ground::{Refusal, refusal_number};
use lynx_net::Packet;
use lynx_net::payload::{Messages, message_at, message_count};
use message::Message;
use text::{Text, decimal, front, hex};

// The bytes that are kept of a line: one more than the longest packet has, so that a longer line is refused by its length too.
pub const KEPT: usize = 261;

// The bytes that a line's text has room for. It has seventeen messages at most.
pub const ROOM: usize = 512;

// The greatest number that a place has.
pub const GREATEST: u64 = 18446744073709551615;

// Where the reading of a line stands. Its bytes are kept beside it, in a lent buffer with their count here: memory is fixed.
#[derive(Clone, Copy)]
pub struct Line {
    // How many bytes are kept.
    pub count: usize,
    // The first digit of a byte whose second is awaited; 16 for none. No Option: the definitions line_start and line_after speak of 16.
    pub high: u8,
    // How many characters have come.
    pub place: u64,
    // The place of the first character that does not fit; 0 for none. No Option: line_start and line_after speak of 0.
    pub bad: u64,
}

// The number of a hexadecimal digit; 16 for any other character.
fn digit_of(b: u8) -> u8
    ensures { result ≡ digit_of b }
{
    if (48 <= b) & (b <= 57) {
        return b - 48;
    }
    if (65 <= b) & (b <= 70) {
        return b - 55;
    }
    if (97 <= b) & (b <= 102) {
        return b - 87;
    }
    16
}

// The place after a place. The greatest stays, which no line comes to.
fn place_after(place: u64) -> u64
    ensures { result ≡ place_after place }
{
    if place < GREATEST { place + 1 } else { place }
}

// A line before any character.
pub fn begin() -> Line
    ensures { result ≡ line_start }
{
    Line {
        count: 0,
        high: 16,
        place: 0,
        bad: 0,
    }
}

// The line with its next character, where no first digit waits: a digit, a blank, or what does not fit.
fn first(line: Line, b: u8) -> Line
    ensures { result ≡ first_of line b }
{
    let place = place_after(line.place);
    let digit = digit_of(b);
    if digit < 16 {
        return Line {
            high: digit,
            place,
            bad: 0,
            ..line
        };
    }
    if (b == 32) | (b == 9) {
        return Line {
            high: 16,
            place,
            bad: 0,
            ..line
        };
    }
    Line {
        high: 16,
        place,
        bad: place,
        ..line
    }
}

// Keeps a byte, if there is room, and answers how many are kept then.
fn keep(count: usize, byte: u8, kept: &mut [u8; KEPT]) -> usize
    ensures value { result ≡ count_after count }
    ensures kept_after { kept.new ≡ stored count byte kept.old }
{
    if count < KEPT {
        kept[count] = byte;
        return count + 1;
    }
    count
}

// The same where one waits: its second digit makes a byte, and anything else does not fit.
fn second(line: Line, b: u8, kept: &mut [u8; KEPT]) -> Line
    requires { line.high < 16 }
    ensures value { result ≡ second_of line b }
    ensures kept_after { kept.new ≡ kept_by_second line b kept.old }
{
    let place = place_after(line.place);
    let digit = digit_of(b);
    if digit < 16 {
        let count = keep(line.count, line.high * 16 + digit, kept);
        return Line {
            count,
            high: 16,
            place,
            bad: 0,
        };
    }
    Line {
        high: 16,
        place,
        bad: place,
        ..line
    }
}

// The line with its next character. A carriage return is passed over, and so is, but for its place, what follows a character that does not fit.
pub fn step(line: Line, b: u8, kept: &mut [u8; KEPT]) -> Line
    ensures line { result ≡ line_after line b }
    ensures kept { kept.new ≡ kept_after line b kept.old }
{
    if b == 13 {
        return line;
    }
    if line.bad != 0 {
        return Line {
            place: place_after(line.place),
            ..line
        };
    }
    if line.high < 16 {
        return second(line, b, kept);
    }
    first(line, b)
}

// The place of the first character that does not fit, once the line is over; 0 for none. A digit without its second is found by what would follow it.
fn bad_place(line: Line) -> u64
    ensures { result ≡ bad_place line }
{
    if line.bad != 0 {
        return line.bad;
    }
    if line.high < 16 {
        return place_after(line.place);
    }
    0
}

// Bytes put at a place, and the place after them. trace_lines has the same for its own buffer: a routine that both call would be open, and have to test again
// whether there is room.
fn put_bytes(out: &mut [u8; ROOM], at: usize, bytes: &[u8]) -> usize
    requires { at + length bytes.now ≤ 512 }
    ensures { Put out.old at bytes.now out.new result }
{
    let end = at + bytes.len();
    out[at..end].copy_from_slice(bytes);
    end
}

// A text as far as its length.
fn put_text(out: &mut [u8; ROOM], at: usize, text: Text) -> usize
    requires { at + length (take text.length text.bytes) ≤ 512 }
    ensures { Put out.old at (take text.length text.bytes) out.new result }
{
    put_bytes(out, at, front(&text.bytes, text.length))
}

fn put_number(out: &mut [u8; ROOM], number: u64) -> usize
    ensures { Put out.old 0 (digits_of number) out.new result }
{
    put_text(out, 0, decimal(number))
}

fn put_hex(out: &mut [u8; ROOM], at: usize, b: u8) -> usize
    requires { at + 2 ≤ 512 }
    ensures { Put out.old at (hex_of b) out.new result }
{
    put_text(out, at, hex(b))
}

fn put_message(out: &mut [u8; ROOM], at: usize, m: Message) -> usize
    requires { at + 28 ≤ 512 }
    ensures put { Put out.old at (field (message_text 9 m)) out.new result }
    ensures upper_bound { result ≤ at + 28 }
{
    let a = put_bytes(out, at, b"\t");
    put_text(out, a, text::message(m, b'\t'))
}

// The field of the i-th message, if there is one.
fn put_nth(out: &mut [u8; ROOM], at: usize, ms: Messages, i: usize) -> usize
    requires { at + 28 ≤ 512 }
    ensures put { Put out.old at (field_at (nth (listed ms) i)) out.new result }
    ensures upper_bound { result ≤ at + 28 }
{
    match message_at(ms, i) {
        Some(m) => put_message(out, at, m),
        None => at,
    }
}

// The fields of all messages, of which there are few enough.
fn put_messages(out: &mut [u8; ROOM], from: usize, ms: Messages) -> usize
    requires { (from ≤ 5) × (length (listed ms) ≤ 17) }
    ensures put { Put out.old from (fields_of (listed ms)) out.new result }
    ensures upper_bound { result ≤ 481 }
{
    let mut at = from;
    for i in 0..message_count(ms) {
        at = put_nth(out, at, ms, i);
    }
    at
}

// A packet that was read: its node, its sequence, its messages.
fn put_packet(out: &mut [u8; ROOM], p: Packet) -> usize
    requires { length (listed p.messages) ≤ 17 }
    ensures put { Put out.old 0 (packet_text p) out.new result }
    ensures upper_bound { result ≤ 481 }
{
    let a = put_hex(out, 0, p.node);
    let b = put_bytes(out, a, b"\t");
    let c = put_hex(out, b, p.sequence);
    put_messages(out, c, p.messages)
}

fn put_refusal(out: &mut [u8; ROOM], why: Refusal) -> usize
    ensures { Put out.old 0 (digits_of (refusal_number why)) out.new result }
{
    put_number(out, refusal_number(why) as u64)
}

// Puts what a packet is read as to the front of a lent buffer, and answers how many bytes.
pub fn put_answer(packet: &[u8], out: &mut [u8; ROOM]) -> usize
    ensures text { Put out.old 0 (answer_text (read_answer packet.now)) out.new result }
    ensures room { result ≤ 481 }
{
    match lynx_net::read(packet) {
        Ok(p) => put_packet(out, p),
        Err(why) => put_refusal(out, why),
    }
}

// Puts the text of a line, once it is over, with its line feed to the front of a lent buffer, and answers how many bytes.
pub fn put_line(line: Line, kept: &[u8; KEPT], out: &mut [u8; ROOM]) -> usize
    ensures text { Put out.old 0 (line_text line kept.now) out.new result }
    ensures room { result ≤ 482 }
{
    let place = bad_place(line);
    if place != 0 {
        let a = put_number(out, place);
        return put_bytes(out, a, b"\tBADBYTE\n");
    }
    let a = put_answer(front(kept, line.count), out);
    put_bytes(out, a, b"\n")
}
