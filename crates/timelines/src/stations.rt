// The stations of the runs, with their messages, and the draws that each call gets.
use crate::page::Page;
use message::{Function, Message};
use station::Station;

// The list of draws: each call takes sixteen of them.
const DRAWS: [u8; 31] = [
    9, 8, 10, 8, 9, 10, 10, 8, 8, 9, 10, 9, 8, 10, 9, 9, 8, 10, 8, 8, 10, 9, 10, 8, 9, 9, 10, 10,
    8, 9, 8,
];

// The draws of a call: from the list, or all the same where one is fixed.
pub(crate) fn draws_at(call: usize, fixed: Option<u8>) -> [u8; 16] {
    if let Some(draw) = fixed {
        return [draw; 16];
    }
    let mut draws = [0; 16];
    let from = call % 31;
    for (k, draw) in draws.iter_mut().enumerate() {
        *draw = DRAWS[(from * 5 + k * 3) % 31];
    }
    draws
}

// An empty station that has been given a message.
fn loaded(m: Message, draw: u8) -> Station {
    station::load(station::empty(), m, draw).next
}

fn address(house: u8, unit: u8) -> Message {
    Message::Address { house, unit }
}

fn function(house: u8, function: Function) -> Message {
    Message::Function { house, function }
}

fn extended(house: u8, unit: u8, data: u8, command: u8) -> Message {
    Message::Extended {
        house,
        unit,
        data,
        command,
    }
}

// Two stations with a message and a wait each.
fn two(first: Message, wait: u8, second: Message, other: u8) -> [Station; 16] {
    let mut slots = [station::empty(); 16];
    slots[0] = loaded(first, wait);
    slots[1] = loaded(second, other);
    slots
}

// A1 and B2, with waits 8 and 9.
pub(crate) fn waits_8_and_9() -> [Station; 16] {
    two(address(0, 0), 8, address(1, 1), 9)
}

// A1 against B1, with equal waits.
pub(crate) fn a_against_b() -> [Station; 16] {
    two(address(0, 0), 8, address(1, 0), 8)
}

// A1 twice, with equal waits.
pub(crate) fn a_and_a() -> [Station; 16] {
    two(address(0, 0), 8, address(0, 0), 8)
}

// Sixteen messages: addresses, functions and extended ones, some of them equal.
fn message_at(k: usize) -> Message {
    match k {
        0 => address(0, 0),
        1 => address(1, 0),
        2 => function(0, Function::On),
        3 => extended(2, 2, 0x3f, 0x31),
        4 => address(0, 0),
        5 => function(15, Function::StatusRequest),
        6 => address(12, 12),
        7 => extended(2, 2, 0x3f, 0x31),
        8 => function(6, Function::Dim),
        9 => address(15, 15),
        10 => extended(0, 0, 0x00, 0x33),
        11 => function(12, Function::AllUnitsOff),
        12 => address(9, 9),
        13 => function(0, Function::On),
        14 => extended(14, 14, 0xc0, 0x30),
        _ => address(4, 4),
    }
}

pub(crate) fn sixteen() -> [Station; 16] {
    let draws = draws_at(0, None);
    let mut slots = [station::empty(); 16];
    for k in 0..16 {
        slots[k] = loaded(message_at(k), draws[k]);
    }
    slots
}

// A message, its fields parted by spaces.
pub(crate) fn put_message(page: &mut Page, m: Message) {
    page.short(text::message(m, b' '));
}

// One station of the list that stands before a run: its number, its message and its wait.
fn put_station(page: &mut Page, number: usize, m: Message, wait: u8) {
    page.station(number);
    page.text(b": ");
    put_message(page, m);
    page.text(b", wait ");
    page.number(wait as usize);
    page.text(b"\n");
}

// The stations that hold a message.
pub(crate) fn put_stations(page: &mut Page, slots: [Station; 16]) {
    for (k, s) in slots.iter().enumerate() {
        if let Some(m) = s.held {
            put_station(page, k + 1, m, s.wait);
        }
    }
}

// Whether no station has a message left.
pub(crate) fn all_empty(slots: [Station; 16]) -> bool {
    slots.iter().all(|s| s.held.is_none())
}
