// Sequences of messages for shutters, on A1 to A3 and B1 beside the modules of the other scenes.
use crate::line::Listening;
use crate::show;
use crate::show::print;
use crate::tables::Room;
use message::{Function, Message};
use room::apply;
use shutter_table::SHUTTER_BYTES;

// The modules of the other scenes, and shutters at A1 to A3 and B1: closed, the limit 25, not protected, in no lifestyle.
fn shuttered() -> Room {
    let mut room = Room::new();
    for place in [0, 1, 2, 16] {
        let at = place * SHUTTER_BYTES;
        room.shutters[at] = 1;
        room.shutters[at + 2] = 25;
    }
    room
}

// 04 and 0B reach a house, whatever unit and data they name; 05 and 0C every house.
fn whole_houses() {
    print(b"Shutters: a morning, and houses opened and closed\n");
    let mut room = shuttered();
    room.extended(0, 0x04, 0x00);
    room.extended_at(15, 15, 0x05, 0x00);
    room.extended(0, 0x0B, 0x00);
    room.extended_at(15, 15, 0x0C, 0x00);
    room.extended_at(1, 8, 0x04, 0x1A);
    room.extended_at(1, 8, 0x0B, 0x1A);
    room.extended_at(15, 15, 0x0C, 0xFF);
    room.extended_at(15, 15, 0x05, 0xFF);
}

// With protection on, and only then, no opening stands above the limit.
fn protection() {
    print(b"Shutters: sun protection\n");
    let mut room = shuttered();
    room.extended(0, 0x03, 0x19);
    room.extended(0, 0x02, 0x0A);
    room.extended(0, 0x01, 0x14);
    room.extended(0, 0x03, 0x14);
    room.extended(0, 0x01, 0x12);
    room.extended(0, 0x04, 0x00);
    room.extended(0, 0x02, 0x14);
    room.extended(0, 0x02, 0x19);
    room.extended(0, 0x02, 0xEA);
    room.extended(0, 0x01, 0xE5);
    room.extended(0, 0x0B, 0x00);
    room.extended(0, 0x01, 0x19);
}

// A1 is included in all eight lifestyles, A2 in Wake and Special 2, B1 in Wake, A3 in none.
fn include_all(room: &mut Room) {
    room.extended(0, 0x07, 0x05);
    room.extended(0, 0x07, 0x2A);
    room.extended(0, 0x07, 0x4F);
    room.extended(0, 0x07, 0x60);
    room.extended(0, 0x07, 0x94);
    room.extended(0, 0x07, 0xA1);
    room.extended(0, 0x07, 0xD9);
    room.extended(0, 0x07, 0xEC);
    room.extended(1, 0x07, 0x08);
    room.extended(1, 0x07, 0xE3);
    room.extended_at(1, 0, 0x07, 0x19);
}

// A1's protected limit cuts what a lifestyle opens, and not what is kept for it: once it is released, each gives its own.
fn begin(room: &mut Room) {
    room.extended(0, 0x02, 0x0A);
    room.extended(0, 0x07, 0x36);
    room.extended_at(15, 15, 0x08, 0x00);
    room.extended_at(15, 15, 0x08, 0x5F);
    room.extended(0, 0x08, 0xC0);
    room.extended(0, 0x03, 0x00);
    room.extended(0, 0x08, 0x00);
    room.extended(0, 0x08, 0x20);
    room.extended(0, 0x08, 0x40);
    room.extended(0, 0x08, 0x60);
    room.extended(0, 0x08, 0x80);
    room.extended(0, 0x08, 0xA0);
    room.extended(0, 0x08, 0xC0);
    room.extended(0, 0x08, 0xE0);
}

// One erased stays as it is when its lifestyle begins; after 0A all do.
fn lifestyles() {
    print(b"Shutters: lifestyles\n");
    let mut room = shuttered();
    include_all(&mut room);
    begin(&mut room);
    room.extended(0, 0x09, 0x1F);
    room.extended(2, 0x09, 0xE0);
    room.extended(0, 0x08, 0x00);
    room.extended(0, 0x0A, 0x00);
    room.extended(0, 0x08, 0x00);
    room.extended(0, 0x08, 0xE0);
}

fn absent() {
    print(b"Shutters: absent ones\n");
    let mut room = shuttered();
    room.extended(8, 0x01, 0x05);
    room.extended(8, 0x02, 0x05);
    room.extended(8, 0x03, 0x05);
    room.extended(8, 0x07, 0x05);
    room.extended(8, 0x08, 0x00);
    room.extended(8, 0x09, 0x05);
}

// Functions and commands of type 3 leave shutters, those of type 0 leave modules; 0E and 0F are heard only.
fn beside_modules() {
    print(b"Shutters: beside modules\n");
    let mut room = shuttered();
    room.address(0);
    room.function(Function::On);
    room.extended(0, 0x01, 0x0A);
    room.function(Function::Dim);
    room.extended(0, 0x33, 0x00);
    room.extended(0, 0x31, 0x05);
    room.extended(0, 0x04, 0x00);
    room.function(Function::AllUnitsOff);
    room.extended(0, 0x0B, 0x00);
    room.radio_on(0);
    room.extended(0, 0x0E, 0x1F);
    room.extended(0, 0x0F, 0x1F);
}

// Sends an extended command for unit A1 on the mains, and prints the answer at the end of its first frame: half-cycle 3 + 62.
fn hear(wall: &mut Listening, command: u8, data: u8) {
    wall.burst(Message::Extended {
        house: 0,
        unit: 0,
        data,
        command,
    });
    show::answered(&wall.answers, 65);
}

fn by_the_wall() {
    print(b"Shutters: by the wall\n");
    let mut wall = Listening::new(shuttered());
    hear(&mut wall, 0x04, 0x00);
    hear(&mut wall, 0x01, 0x1A);
    hear(&mut wall, 0x0D, 0x1A);
    hear(&mut wall, 0x01, 0x0A);
}

// 26 to 31 are no openings where a command has one, for an absent shutter too; other commands do not look there.
fn refused_openings() {
    print(b"Shutters: refused openings and commands\n");
    let mut room = shuttered();
    room.extended(0, 0x01, 0x1A);
    room.extended(0, 0x02, 0x1A);
    room.extended(0, 0x03, 0xFF);
    room.extended(0, 0x07, 0xFA);
    room.extended(8, 0x01, 0x1A);
    room.extended(0, 0x08, 0x1A);
    room.extended(0, 0x09, 0x1A);
    room.extended(0, 0x04, 0x1A);
    room.extended(0, 0x00, 0x1A);
    room.extended(0, 0x06, 0x1A);
    room.extended(0, 0x0D, 0x1A);
    room.extended(16, 0x05, 0x00);
    room.extended_at(16, 0, 0x01, 0x1A);
}

// A shutter table that is a byte short, under a module table that is short too, or has a lamp at 64, or is as it should be.
fn short_tables() {
    print(b"Shutters: refused lengths\n");
    let far = Message::Address { house: 16, unit: 0 };
    let on = Message::Function {
        house: 0,
        function: Function::On,
    };
    let mut short_modules = [0u8; 3103];
    let mut short = [0u8; 5119];
    let a = apply(&mut short_modules, &mut short, far);
    print(b"3103 and 5119 bytes, ");
    show::applied(far, a);
    let mut room = Room::new();
    room.damage();
    let a = apply(&mut room.table, &mut short, far);
    print(b"3104 and 5119 bytes, ");
    show::applied(far, a);
    let mut sound = Room::new();
    let a = apply(&mut sound.table, &mut short, on);
    print(b"3104 and 5119 bytes, ");
    show::applied(on, a);
}

// A1 is open to 11 with a protected limit of 10; at first lamp A2 is at 64 too.
fn broken_tables() {
    print(b"Shutters: refused tables\n");
    let mut room = shuttered();
    room.replace(1, 11);
    room.replace(2, 10);
    room.replace(3, 1);
    let mut broken = room;
    broken.damage();
    broken.send(Message::Address { house: 16, unit: 0 });
    broken.extended(0, 0x0D, 0x00);
    room.extended(0, 0x0D, 0x00);
    room.extended(0, 0x01, 0x1A);
    room.extended(0, 0x0B, 0x00);
    room.function(Function::On);
    room.replace(1, 10);
    room.function(Function::On);
}

// On, where one byte of the shutter table is another.
fn with_byte(at: u8, value: u8) {
    show::field(b"byte ", at);
    show::field(b" is ", value);
    print(b", ");
    let mut room = shuttered();
    room.replace(at, value);
    room.function(Function::On);
}

// Bytes 0 to 19 are A1, which is closed, has the limit 25 and is in no lifestyle; byte 62 is the limit of A4, which is absent.
fn broken_rules() {
    print(b"Shutters: one byte changed\n");
    with_byte(0, 0);
    with_byte(0, 2);
    with_byte(1, 25);
    with_byte(1, 26);
    with_byte(2, 26);
    with_byte(3, 1);
    with_byte(3, 2);
    with_byte(4, 1);
    with_byte(4, 2);
    with_byte(11, 2);
    with_byte(12, 1);
    with_byte(19, 26);
    with_byte(62, 1);
}

pub(crate) fn scenes() {
    whole_houses();
    protection();
    lifestyles();
    absent();
    beside_modules();
    by_the_wall();
    refused_openings();
    short_tables();
    broken_tables();
    broken_rules();
}
