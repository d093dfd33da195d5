// A room that listens to the mains: messages sent there as bursts, each printed with what came of it.
use crate::show;
use crate::tables::Room;
use message::{Function, Message};
use room::mains::mains_route;

// The half-cycles of a line: three clear ones, and room for the longest burst.
pub(crate) const LINE: usize = 127;

// The bytes of their answers.
pub(crate) const ANSWERS: usize = LINE * 8;

// A room, the receiver that listens to the mains for it, in its thirteen bytes, and what the tables answered to the half-cycles of the last
// line.
#[derive(Clone, Copy)]
pub(crate) struct Listening {
    pub(crate) room: Room,
    pub(crate) state: [u8; 13],
    pub(crate) answers: [u8; ANSWERS],
}

// A message's burst on the mains, after three clear half-cycles; after a burst of 44 the line is clear again.
fn line_of(m: Message) -> [u8; LINE] {
    let mut line = [0; LINE];
    let _ = burst::write_burst(m, &mut line[3..]);
    line
}

impl Listening {
    // A room whose receiver has heard nothing.
    pub(crate) fn new(room: Room) -> Listening {
        let mut state = [0; 13];
        let _ = receiver::lent::fresh(&mut state);
        Listening {
            room,
            state,
            answers: [0; ANSWERS],
        }
    }

    // Sends a message on the mains and prints what came of it.
    pub(crate) fn burst(&mut self, m: Message) {
        let line = line_of(m);
        let mut events = [0; LINE * 6];
        let before = self.room;
        self.answers = [0; ANSWERS];
        let a = mains_route(
            &mut self.state,
            &line,
            &mut self.room.table,
            &mut self.room.shutters,
            &mut events,
            &mut self.answers,
        );
        show::applied(m, a);
        show::changed(&before, &self.room);
    }

    // On of a unit of house A, pressed on the wall: an address and a function, each a burst on the mains.
    pub(crate) fn wall_on(&mut self, unit: u8) {
        self.burst(Message::Address { house: 0, unit });
        self.burst(Message::Function {
            house: 0,
            function: Function::On,
        });
    }
}
