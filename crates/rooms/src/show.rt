// Lines for a reader: a message with what applying it answered, and what it changed in the two tables.
ghost use Rattle.std.specs.Prelude.{◌+◌, ◌≤◌, ◌<◌, length};

use crate::line::ANSWERS;
use crate::tables::Room;
use ground::{Refusal, refusal_number};
use lit::lit;
use message::Message;
use record::{HEARD_AT, HOUSES, LIT_AT, RECORD_BYTES, RECORDS, TABLE_BYTES, UNITS};
use room::Changes;
use shutter_table::{SHUTTER_BYTES, SHUTTER_TABLE_BYTES, SHUTTERS};
use text::{Text, front, hex, letter, place};

// The descriptor of standard output. The runtime's `print!` is no plainer: each function here and each step of a scene would take the runtime.
const STDOUT: i32 = 1;

pub(crate) fn print(s: &[u8]) {
    io::write_all(STDOUT, s);
}

fn print_text(t: Text) {
    print(front(&t.bytes, t.length));
}

fn number(n: u64) {
    io::print_decimal(STDOUT, n);
}

fn shutters_moved(n: usize) {
    number(n as u64);
    if n == 1 {
        print(b" shutter moved");
    } else {
        print(b" shutters moved");
    }
}

// The modules and the shutters that count, each where there are any; where there is neither, 0 changed.
fn counts(c: Changes) {
    if c.levels != 0 || c.openings == 0 {
        number(c.levels as u64);
        print(b" changed");
    }
    if c.levels != 0 && c.openings != 0 {
        print(b", ");
    }
    if c.openings != 0 {
        shutters_moved(c.openings);
    }
    print(b"\n");
}

fn refused(why: Refusal) {
    print(b"refused ");
    number(refusal_number(why) as u64);
}

fn answer(a: Result<Changes, Refusal>) {
    match a {
        Ok(c) => counts(c),
        Err(why) => {
            refused(why);
            print(b"\n");
        }
    }
}

// What is answered to the question how many modules are lit.
pub(crate) fn lit_answer(a: Result<usize, Refusal>) {
    match a {
        Ok(n) => number(n as u64),
        Err(why) => refused(why),
    }
}

pub(crate) fn applied(m: Message, a: Result<Changes, Refusal>) {
    print_text(text::message(m, b' '));
    print(b": ");
    answer(a);
}

// A radio code, and what came of it.
pub(crate) fn coded(code: &[u8; 4], a: Result<Changes, Refusal>) {
    let mut before: &[u8] = b"radio ";
    for &b in code {
        print(before);
        print_text(hex(b));
        before = b" ";
    }
    print(b": ");
    answer(a);
}

// Whether n bytes from a place on differ between two tables.
fn differ(before: &[u8], after: &[u8], at: usize, n: usize) -> bool
    requires { (at + n ≤ length before.now) × (at + n ≤ length after.now) }
{
    before[at..at + n] != after[at..at + n]
}

fn kind(k: u8) {
    match k {
        0 => print(b" none"),
        1 => print(b" lamp"),
        2 => print(b" appliance"),
        _ => print(b" no kind"),
    }
}

pub(crate) fn field(name: &[u8], value: u8) {
    print(name);
    number(value as u64);
}

// Some bytes under a name, which is printed in one with the space after it.
fn fields(name: &[u8], values: &[u8]) {
    let mut before = name;
    for &value in values {
        field(before, value);
        before = b" ";
    }
}

// Record i of a table on a line.
fn record(t: &[u8; TABLE_BYTES], i: usize)
    requires { i < 256 }
{
    let at = i * RECORD_BYTES;
    print(b"  ");
    print_text(place((i / 16) as u8, (i % 16) as u8));
    kind(t[at]);
    field(b" level ", t[at + 1]);
    field(b" addressed ", t[at + 2]);
    field(b" mask ", t[at + 3]);
    fields(b" presets ", &t[at + 4..at + 8]);
    fields(b" references ", &t[at + 8..at + 12]);
    print(b"\n");
}

// The letter of house h, where a line begins.
fn house(h: usize)
    requires { h < 16 }
{
    print(b"  ");
    print(&[letter(h as u8)]);
}

// The "command heard" byte of house h, if it differs, as it is after.
fn house_change(before: &[u8; TABLE_BYTES], after: &[u8; TABLE_BYTES], h: usize)
    requires { h < 16 }
{
    let x = after[HEARD_AT + h];
    if before[HEARD_AT + h] != x {
        house(h);
        field(b" command heard ", x);
        print(b"\n");
    }
}

// The records that differ, as they are after.
fn changed_records(before: &[u8; TABLE_BYTES], after: &[u8; TABLE_BYTES]) {
    for i in 0..RECORDS {
        if differ(before, after, i * RECORD_BYTES, RECORD_BYTES) {
            record(after, i);
        }
    }
}

// How many modules of house h are lit, if the house has changed, as it is after.
fn lit_change(before: &[u8; TABLE_BYTES], after: &[u8; TABLE_BYTES], h: usize)
    requires { h < 16 }
{
    let at = h * UNITS * RECORD_BYTES;
    if differ(before, after, at, UNITS * RECORD_BYTES)
        || before[HEARD_AT + h] != after[HEARD_AT + h]
        || before[LIT_AT + h] != after[LIT_AT + h]
    {
        house(h);
        print(b" lit ");
        lit_answer(lit(after, h as u8));
        print(b"\n");
    }
}

// The house bytes that differ, as they are after, and how many modules are lit in each house that has changed.
fn changed_houses(before: &[u8; TABLE_BYTES], after: &[u8; TABLE_BYTES]) {
    for h in 0..HOUSES {
        house_change(before, after, h);
        lit_change(before, after, h);
    }
}

// What differs in a module table: records, then houses.
pub(crate) fn changed_modules(before: &[u8; TABLE_BYTES], after: &[u8; TABLE_BYTES]) {
    changed_records(before, after);
    changed_houses(before, after);
}

// A lifestyle and the opening in it, where the shutter is included.
fn lifestyle(name: &[u8], mark: u8, opening: u8) {
    if mark != 0 {
        field(name, opening);
    }
}

// The lifestyles that shutter i is included in.
fn lifestyles(t: &[u8; SHUTTER_TABLE_BYTES], i: usize)
    requires { i < 256 }
{
    let at = i * SHUTTER_BYTES;
    lifestyle(b" wake ", t[at + 4], t[at + 12]);
    lifestyle(b" leave ", t[at + 5], t[at + 13]);
    lifestyle(b" return ", t[at + 6], t[at + 14]);
    lifestyle(b" sleep ", t[at + 7], t[at + 15]);
    lifestyle(b" evening ", t[at + 8], t[at + 16]);
    lifestyle(b" vacation ", t[at + 9], t[at + 17]);
    lifestyle(b" special1 ", t[at + 10], t[at + 18]);
    lifestyle(b" special2 ", t[at + 11], t[at + 19]);
}

// Shutter i of a table on a line.
fn shutter(t: &[u8; SHUTTER_TABLE_BYTES], i: usize)
    requires { i < 256 }
{
    let at = i * SHUTTER_BYTES;
    print(b"  ");
    print_text(place((i / 16) as u8, (i % 16) as u8));
    field(b" opening ", t[at + 1]);
    field(b" limit ", t[at + 2]);
    field(b" protection ", t[at + 3]);
    lifestyles(t, i);
    print(b"\n");
}

// The shutters that differ, as they are after.
fn changed_shutters(before: &[u8; SHUTTER_TABLE_BYTES], after: &[u8; SHUTTER_TABLE_BYTES]) {
    for i in 0..SHUTTERS {
        if differ(before, after, i * SHUTTER_BYTES, SHUTTER_BYTES) {
            shutter(after, i);
        }
    }
}

// What differs in a room's two tables.
pub(crate) fn changed(before: &Room, after: &Room) {
    changed_modules(&before.table, &after.table);
    changed_shutters(&before.shutters, &after.shutters);
}

// The eight bytes that the tables answered to half-cycle n of a line, 1 to 127, the lowest first.
pub(crate) fn answered(answers: &[u8; ANSWERS], n: u8)
    requires { (1 ≤ n) × (n ≤ 127) }
{
    let at = (n as usize - 1) * 8;
    field(b"  half-cycle ", n);
    fields(b" answered ", &answers[at..at + 8]);
    print(b"\n");
}
