// The routines that programs in C and Rust link: over numbers and lent bytes, each with one number as its answer (wire's `pack`). Every
// number and every slice is taken; a refusal changes nothing that was lent.

#![tactic(auto)]

ghost use Rattle.std.specs.Prelude.{◌≡◌, ◌≤◌, length};
ghost use Rattle.std.proofs.lemmas.List.Edits.{sets};
ghost use Rattle.burst.specs.Writer.{burst_answer, buffer_after};
ghost use Rattle.wire.specs.Messages.{message_from};
ghost use Rattle.wire.specs.Packed.{packed};
ghost use Rattle.receiver.specs.Bytes.{fresh_answer, fresh_after, receive_answer, state_after, events_after};
ghost use Rattle.lit.specs.Lit.{lit_answer};
ghost use Rattle.room.specs.Rooms.{room_of, room_after, apply_answer, tallied};
ghost use Rattle.room.specs.Mains.{lent_to, mains_answer, mains_after, lent_after};
ghost use Rattle.room.specs.Routes.{radio_answer, radio_after};
ghost use Rattle.bench_run.specs.BenchRuns.{lent, run_answer, lines_after, marks_after};
ghost use Rattle.station_lent.specs.StationBytes.{empty_answer, empty_after, loaded_answer, loaded_after, sent_answer, turned_answer, turned_after};
ghost use Rattle.x10.specs.Commands.{command_from, command_bytes};
ghost use Rattle.x10.specs.Messages.{no_message, handed_on};
ghost use Rattle.x10.specs.Radio.{code_answer, code_after, command_answer, command_after};

use crate::commands::{command_from, three_of};
use burst::write_burst;
use ground::Refusal;
use lit::lit;
use message::Message;
use radio::{RadioCommand, read, write};
use receiver::lent::{fresh, receive};
use room::mains::mains_route;
use room::routes::radio_route;
use room::{apply, tally};
use wire::{message_from, pack};

mod commands;

// What is handed on for five numbers that make no message: one of house 16, which every routine refuses by 2 in its own order.
fn no_message() -> Message
    ensures { result ≡ no_message }
{
    Message::Address { house: 16, unit: 0 }
}

// The message that five numbers hand on.
fn handed_on(kind: u8, house: u8, third: u8, data: u8, command: u8) -> Message
    ensures { result ≡ handed_on (message_from kind house third «data» command) }
{
    message_from(kind, house, third, data, command).unwrap_or(no_message())
}

// Writes the burst of a message to the front of a lent buffer; the count is that of its half-cycles. Refused 2, 9.
#[unsafe(no_mangle)]
pub extern "C" fn x10_burst(
    kind: u8,
    house: u8,
    third: u8,
    data: u8,
    command: u8,
    buf: &mut [u8],
) -> u64
    ensures answer { result ≡ packed (burst_answer (handed_on (message_from kind house third «data» command)) (length buf.old)) }
    ensures buffer { buf.new ≡ buffer_after (handed_on (message_from kind house third «data» command)) buf.old }
{
    // In each arm a call of its own: a message chosen first is copied, eight instructions of two hundred.
    match message_from(kind, house, third, data, command) {
        Ok(m) => pack(write_burst(m, buf)),
        Err(_) => pack(write_burst(no_message(), buf)),
    }
}

// Makes thirteen lent bytes a receiver that hunts and has received nothing. Refused 6.
#[unsafe(no_mangle)]
pub extern "C" fn x10_receiver_fresh(state: &mut [u8]) -> u64
    ensures answer { result ≡ packed (fresh_answer state.old) }
    ensures state { state.new ≡ fresh_after state.old }
{
    pack(fresh(state))
}

// Hands half-cycles to the receiver in thirteen lent bytes, and puts six bytes for each event to the front of a lent buffer; the count is
// that of the half-cycles. Refused 6, 9.
#[unsafe(no_mangle)]
pub extern "C" fn x10_receive(state: &mut [u8], halves: &[u8], events: &mut [u8]) -> u64
    ensures answer { result ≡ packed (receive_answer state.old halves.now (length events.old)) }
    ensures state { state.new ≡ state_after state.old halves.now (length events.old) }
    ensures events { events.new ≡ events_after state.old halves.now events.old }
{
    pack(receive(state, halves, events))
}

// Puts the four bytes of a code at the front of a buffer, one by one: by `copy_from_slice` a call takes eight instructions more.
fn put_code(out: &mut [u8], code: &[u8; 4])
    requires { 4 ≤ length out.old }
    ensures { (out.new ≡ sets out.old 0 code.now) × (length code.now ≡ 4) }
{
    out[0] = code[0];
    out[1] = code[1];
    out[2] = code[2];
    out[3] = code[3];
}

// Writes a command's four bytes to the front of a buffer.
fn write_code(k: RadioCommand, out: &mut [u8]) -> Result<usize, Refusal>
    ensures value { result ≡ code_answer k (length out.old) }
    ensures out_after { out.new ≡ code_after k out.old }
{
    // A `match` and no `?`: with it LLVM makes one number of the four bytes again.
    match write(k) {
        Ok(code) => {
            if out.len() < 4 {
                return Err(Refusal::Short);
            }
            put_code(out, &code);
            Ok(4)
        }
        Err(why) => Err(why),
    }
}

// Writes the four bytes of a radio command to the front of a lent buffer; the count is 4. Refused 2, 9.
#[unsafe(no_mangle)]
pub extern "C" fn x10_radio_write(command: u8, house: u8, unit: u8, out: &mut [u8]) -> u64
    ensures answer { result ≡ packed (code_answer (command_from command house unit) (length out.old)) }
    ensures buffer { out.new ≡ code_after (command_from command house unit) out.old }
{
    pack(write_code(command_from(command, house, unit), out))
}

// Puts the three numbers of a radio command at the front of a buffer.
fn put_command(out: &mut [u8], k: RadioCommand)
    requires { 3 ≤ length out.old }
    ensures { out.new ≡ sets out.old 0 (command_bytes k) }
{
    let three = three_of(k);
    out[0] = three.command;
    out[1] = three.house;
    out[2] = three.unit;
}

// Writes the three numbers of the radio command that four bytes name to the front of a buffer.
fn read_code(code: &[u8], out: &mut [u8]) -> Result<usize, Refusal>
    ensures value { result ≡ command_answer code.now (length out.old) }
    ensures out_after { out.new ≡ command_after code.now out.old }
{
    if out.len() < 3 {
        return Err(Refusal::Short);
    }
    let k = read(code)?;
    put_command(out, k);
    Ok(3)
}

// Writes the three numbers of the radio command that four bytes name to the front of a lent buffer; the count is 3. Refused 9, 12,
// 13, 14.
#[unsafe(no_mangle)]
pub extern "C" fn x10_radio_read(code: &[u8], out: &mut [u8]) -> u64
    ensures answer { result ≡ packed (command_answer code.now (length out.old)) }
    ensures buffer { out.new ≡ command_after code.now out.old }
{
    pack(read_code(code, out))
}

// Applies a message to a lent module table and a lent shutter table; the counts are of the modules whose level differs and of the shutters whose opening
// differs. Refused 1, 16, 2, 3, 17, 4, 18, in this order.
#[unsafe(no_mangle)]
pub extern "C" fn x10_apply(
    table: &mut [u8],
    shutters: &mut [u8],
    kind: u8,
    house: u8,
    third: u8,
    data: u8,
    command: u8,
) -> u64
    ensures answer { result ≡ packed (tallied (apply_answer (handed_on (message_from kind house third «data» command))
        (room_of table.old shutters.old))) }
    ensures room { room_of table.new shutters.new ≡ room_after (handed_on (message_from kind house third «data» command))
        (room_of table.old shutters.old) }
{
    let m = handed_on(kind, house, third, data, command);
    pack(tally(apply(table, shutters, m)))
}

// How many modules of a house are above level 0, by the byte of a lent module table that says so: the count is that byte. Refused 1, 2, 3.
#[unsafe(no_mangle)]
pub extern "C" fn x10_lit(table: &[u8], house: u8) -> u64
    ensures answer { result ≡ packed (lit_answer house table.now) }
{
    pack(lit(table, house))
}

// Applies what a radio code means to both lent tables, both messages or none; the counts are those of `x10_apply`. Refused 1, 16, 3, 17, 12, 13, 14, in this
// order.
#[unsafe(no_mangle)]
pub extern "C" fn x10_radio_route(table: &mut [u8], shutters: &mut [u8], code: &[u8]) -> u64
    ensures answer { result ≡ packed (tallied (radio_answer code.now (room_of table.old shutters.old))) }
    ensures room { room_of table.new shutters.new ≡ radio_after code.now (room_of table.old shutters.old) }
{
    pack(tally(radio_route(table, shutters, code)))
}

// Hands half-cycles to the receiver in thirteen lent bytes and applies each message that it gives to both lent tables; each half-cycle leaves the six bytes of
// its event and the eight of the tables' answer. The counts are those of `x10_apply`, over the whole call. Refused 1, 16, 3, 17, 6, 9, in this order.
#[unsafe(no_mangle)]
pub extern "C" fn x10_mains_route(
    state: &mut [u8],
    halves: &[u8],
    table: &mut [u8],
    shutters: &mut [u8],
    events: &mut [u8],
    answers: &mut [u8],
) -> u64
    ensures answer { result ≡ packed (tallied (mains_answer (lent_to state.old halves.now events.old answers.old)
        (room_of table.old shutters.old))) }
    ensures room { room_of table.new shutters.new
        ≡ mains_after (lent_to state.old halves.now events.old answers.old)
        (room_of table.old shutters.old) }
    ensures lent { lent_to state.new halves.now events.new answers.new
        ≡ lent_after (lent_to state.old halves.now events.old answers.old)
        (room_of table.old shutters.old) }
{
    pack(tally(mains_route(state, halves, table, shutters, events, answers)))
}

// Makes eight lent bytes an empty station. Refused 6.
#[unsafe(no_mangle)]
pub extern "C" fn x10_station_empty(state: &mut [u8]) -> u64
    ensures answer { result ≡ packed (empty_answer state.old) }
    ensures state { state.new ≡ empty_after state.old }
{
    pack(station_lent::empty(state))
}

// Gives the station in eight lent bytes a message and a wait. Refused 2, 6, 7, 8.
#[unsafe(no_mangle)]
pub extern "C" fn x10_station_load(
    state: &mut [u8],
    kind: u8,
    house: u8,
    third: u8,
    data: u8,
    command: u8,
    draw: u8,
) -> u64
    ensures answer { result ≡ packed (loaded_answer state.old (handed_on (message_from kind house third «data» command)) draw) }
    ensures state { state.new ≡ loaded_after state.old (handed_on (message_from kind house third «data» command)) draw }
{
    let m = handed_on(kind, house, third, data, command);
    pack(station_lent::load(state, m, draw))
}

// What the station in eight lent bytes sends in this half-cycle: the count is 0 or 1. Refused 6.
#[unsafe(no_mangle)]
pub extern "C" fn x10_station_sends(state: &[u8]) -> u64
    ensures answer { result ≡ packed (sent_answer state.now) }
{
    pack(station_lent::sends(state))
}

// One half-cycle of the station in eight lent bytes, with what it heard and a draw: the count is 1 where it says DONE. Refused 5, 6, 7, 15.
#[unsafe(no_mangle)]
pub extern "C" fn x10_station_half_cycle(state: &mut [u8], heard: u8, draw: u8) -> u64
    ensures answer { result ≡ packed (turned_answer state.old heard draw) }
    ensures state { state.new ≡ turned_after state.old heard draw }
{
    pack(station_lent::half_cycle(state, heard, draw))
}

// Loads a station for each draw of loads, and calls the bench once for each byte of lines; the count is of the calls that were not
// refused. Refused 2, 6, 7, 9.
#[unsafe(no_mangle)]
pub extern "C" fn x10_bench_run(
    messages: &[u8],
    loads: &[u8],
    draws: &[u8],
    lines: &mut [u8],
    marks: &mut [u8],
) -> u64
    ensures answer { result
        ≡ packed (run_answer (lent messages.now loads.now draws.now lines.old marks.old)) }
    ensures lines { lines.new
        ≡ lines_after (lent messages.now loads.now draws.now lines.old marks.old) }
    ensures marks { marks.new
        ≡ marks_after (lent messages.now loads.now draws.now lines.old marks.old) }
{
    pack(bench_run::run(messages, loads, draws, lines, marks))
}
