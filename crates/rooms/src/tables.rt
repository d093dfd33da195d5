// A room's two tables, and messages applied to them. A message is printed with what came of it, and under it each record, house byte and
// shutter that it changed, as they are then, and how many modules are lit in each house that it changed.
use crate::show;
use message::{Function, Message};
use radio::RadioCommand;
use record::{LIT_AT, RECORD_BYTES, TABLE_BYTES};
use room::apply;
use room::routes::radio_route;
use shutter_table::SHUTTER_TABLE_BYTES;

// A module table and a shutter table.
#[derive(Clone, Copy)]
pub(crate) struct Room {
    pub(crate) table: [u8; TABLE_BYTES],
    pub(crate) shutters: [u8; SHUTTER_TABLE_BYTES],
}

impl Room {
    // Lamps A1 to A3 and appliance A4, all dark, and lamp B1 at 40, which no message for house A reaches; no shutter.
    pub(crate) fn new() -> Room {
        let mut room = Room {
            table: [0; TABLE_BYTES],
            shutters: [0; SHUTTER_TABLE_BYTES],
        };
        room.put(0, 1, 0);
        room.put(1, 1, 0);
        room.put(2, 1, 0);
        room.put(3, 2, 0);
        room.put(16, 1, 40);
        room.table[LIT_AT + 1] = 1;
        room
    }

    // A module of a kind and a level at a place, 0 to 255; it stays in its groups.
    fn put(&mut self, place: u8, kind: u8, level: u8) {
        let at = place as usize * RECORD_BYTES;
        self.table[at] = kind;
        self.table[at + 1] = level;
    }

    // Another number as that of the modules lit in house A.
    pub(crate) fn count(&mut self, lit: u8) {
        self.table[LIT_AT] = lit;
    }

    // Lamp A2 at 64, which no module table may have, while the others of house A are dark.
    pub(crate) fn damage(&mut self) {
        self.put(1, 1, 64);
        self.count(1);
    }

    // Lamp A2 as a member of group 0, and of no other, with a reference: 17 and above no module table may have.
    pub(crate) fn refer(&mut self, reference: u8) {
        self.table[RECORD_BYTES + 3] = 1;
        self.table[RECORD_BYTES + 8] = reference;
    }

    // Another byte at a place, 0 to 255, of the shutter table.
    pub(crate) fn replace(&mut self, at: u8, value: u8) {
        self.shutters[at as usize] = value;
    }

    // Applies a message and prints what came of it.
    pub(crate) fn send(&mut self, m: Message) {
        let before = *self;
        let a = apply(&mut self.table, &mut self.shutters, m);
        show::applied(m, a);
        show::changed(&before, self);
    }

    // The same for house A: an address, a function, an extended command.
    pub(crate) fn address(&mut self, unit: u8) {
        self.send(Message::Address { house: 0, unit });
    }

    pub(crate) fn function(&mut self, function: Function) {
        self.send(Message::Function { house: 0, function });
    }

    pub(crate) fn extended(&mut self, unit: u8, command: u8, data: u8) {
        self.extended_at(0, unit, command, data);
    }

    // An extended command for any house.
    pub(crate) fn extended_at(&mut self, house: u8, unit: u8, command: u8, data: u8) {
        self.send(Message::Extended {
            house,
            unit,
            data,
            command,
        });
    }

    // On of a unit of house A, pressed on a radio keypad: four bytes.
    pub(crate) fn radio_on(&mut self, unit: u8) {
        let before = *self;
        if let Ok(code) = radio::write(RadioCommand::On { house: 0, unit }) {
            let a = radio_route(&mut self.table, &mut self.shutters, &code);
            show::coded(&code, a);
        }
        show::changed(&before, self);
    }
}
