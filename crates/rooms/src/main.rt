// Sequences of messages that a user would try, each on a few modules, and in `shutters` on a few shutters. What the file `stdout` says was
// worked out from the papers by hand.

#![tactic(auto)]

use line::Listening;
use lit::lit;
use message::{Function, Message};
use room::apply;
use show::print;
use tables::Room;

mod line;
mod references;
mod show;
mod shutters;
mod tables;

// Lamp A1 is called and switched on, and then lamp A3: by bursts, a receiver and the mains route, and by radio bytes and the radio route.
fn both_buttons() {
    print(b"Reading, by the wall\n");
    let mut wall = Listening::new(Room::new());
    wall.wall_on(0);
    wall.wall_on(2);
    print(b"Reading, by radio\n");
    let mut radio = Room::new();
    radio.radio_on(0);
    radio.radio_on(2);
    print(b"what the two tables differ in\n");
    show::changed_modules(&wall.room.table, &radio.table);
}

fn called_together() {
    print(b"Two lamps called before one command\n");
    let mut room = Room::new();
    room.address(0);
    room.address(2);
    room.function(Function::On);
    room.function(Function::Dim);
    room.function(Function::Off);
}

fn floor_and_ceiling() {
    print(b"Dim to the floor, bright to the ceiling\n");
    let mut room = Room::new();
    room.extended(0, 0x31, 0x0A);
    room.address(0);
    room.function(Function::Dim);
    room.function(Function::Dim);
    room.function(Function::Dim);
    room.function(Function::Dim);
    room.function(Function::Bright);
    room.extended(0, 0x31, 0x3D);
    room.function(Function::Bright);
    room.function(Function::Bright);
    room.function(Function::Off);
    room.function(Function::Dim);
    room.function(Function::Off);
    room.function(Function::Bright);
    room.address(3);
    room.function(Function::On);
    room.function(Function::Dim);
}

fn groups() {
    print(b"Groups joined, executed, left\n");
    let mut room = Room::new();
    room.extended(0, 0x31, 0x14);
    room.extended(0, 0x30, 0x40);
    room.extended(1, 0x32, 0x68);
    room.extended(3, 0x32, 0x45);
    room.extended(0, 0x36, 0x40);
    room.extended(0, 0x3C, 0x40);
    room.extended(0, 0x3C, 0x50);
    room.extended(0, 0x36, 0x50);
    room.extended(1, 0x35, 0x02);
    room.extended(0, 0x36, 0x40);
    room.extended(0, 0x32, 0xC3);
    room.extended(0, 0x35, 0xF2);
    room.extended(0, 0x36, 0xC0);
    room.extended(0, 0x30, 0x60);
    room.extended(0, 0x31, 0x05);
    room.extended(0, 0x36, 0x40);
    room.extended(0, 0x36, 0x60);
}

fn all_off() {
    print(b"All lights and all units\n");
    let mut room = Room::new();
    room.address(0);
    room.address(3);
    room.function(Function::AllLightsOn);
    room.function(Function::AllLightsOff);
    room.function(Function::On);
    room.function(Function::AllUnitsOff);
    room.function(Function::On);
    room.extended(0, 0x33, 0x00);
    room.extended(0, 0x34, 0x00);
}

fn absent_units() {
    print(b"Absent units\n");
    let mut room = Room::new();
    room.address(0);
    room.function(Function::On);
    room.address(8);
    room.function(Function::On);
    room.extended(8, 0x31, 0x20);
    room.extended(8, 0x30, 0x00);
    room.extended(8, 0x32, 0x60);
    room.extended(8, 0x35, 0x0F);
    room.extended(8, 0x33, 0x00);
}

fn appliance() {
    print(b"An appliance with presets\n");
    let mut room = Room::new();
    room.extended(3, 0x31, 0x05);
    room.extended(3, 0x30, 0x80);
    room.extended(3, 0x31, 0xC0);
    room.extended(3, 0x32, 0x01);
    room.extended(0, 0x36, 0x00);
    room.extended(0, 0x36, 0x10);
    room.extended(0, 0x36, 0x80);
}

fn heard_only() {
    print(b"Heard only, and not carried\n");
    let mut room = Room::new();
    room.function(Function::HailRequest);
    room.function(Function::StatusOn);
    room.extended(0, 0x37, 0x00);
    room.extended(0, 0x37, 0x10);
    room.extended(0, 0x37, 0x60);
    room.extended(0, 0x37, 0x61);
    room.extended(0, 0x37, 0x30);
    room.extended(0, 0x38, 0xFF);
    room.extended(0, 0x3B, 0xFF);
    room.extended(0, 0x3D, 0x00);
    room.extended(0, 0x35, 0x11);
}

// Asks how many modules of a house are lit, and prints the answer. The house is a number, 16 too.
fn ask(t: &[u8], house: u8) {
    show::field(b"lit in house ", house);
    print(b": ");
    show::lit_answer(lit(t, house));
    print(b"\n");
}

// What is asked of tables as messages leave them, of one that is short, of a house above 15, and of bytes that disagree with the records.
fn how_many_lit() {
    print(b"How many are lit\n");
    let mut room = Room::new();
    room.extended(0, 0x33, 0x00);
    room.function(Function::AllLightsOff);
    room.function(Function::AllUnitsOff);
    ask(&room.table, 0);
    ask(&room.table, 1);
    ask(&room.table, 16);
    let short = [0u8; 3088];
    ask(&short, 16);
    let mut five = room;
    five.count(5);
    five.function(Function::On);
    ask(&five.table, 0);
    room.count(16);
    ask(&room.table, 0);
    room.count(17);
    ask(&room.table, 0);
    ask(&room.table, 1);
}

// A short table, a house or a unit above 15, a lamp at 64, a command that is not carried: the first that applies.
fn refusals() {
    print(b"Refused\n");
    let far = Message::Address { house: 16, unit: 0 };
    let mut short = [0u8; 3103];
    let mut room = Room::new();
    let a = apply(&mut short, &mut room.shutters, far);
    print(b"3103 bytes, ");
    show::applied(far, a);
    room.send(far);
    room.extended(16, 0x33, 0x00);
    room.damage();
    room.send(far);
    room.function(Function::On);
    room.extended(0, 0x3D, 0x00);
}

fn main() {
    both_buttons();
    called_together();
    floor_and_ceiling();
    groups();
    all_off();
    absent_units();
    appliance();
    heard_only();
    how_many_lit();
    refusals();
    references::two_keypads();
    shutters::scenes();
}
