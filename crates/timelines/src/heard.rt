// The receiver on a bench's line, and what it says in marks and in words.
use crate::page::Page;
use crate::stations::put_message;
use ground::Refusal;
use receiver::{Event, Heard, Receiver, step};

// The receiver is called with the line's half-cycle that a bench call answers; a call that is refused has none.
pub(crate) fn listen(r: Receiver, answer: Result<u8, Refusal>) -> Heard {
    match answer {
        Ok(half) => step(r, half),
        Err(_) => Heard {
            event: Event::Nothing,
            next: r,
        },
    }
}

pub(crate) fn event_mark(event: Event) -> u8 {
    match event {
        Event::Nothing => b'.',
        Event::Message(_) => b'M',
        Event::Repeat => b'R',
        Event::BrokenPair | Event::BrokenUnsupported => b'B',
        Event::Refused(_) => b'?',
    }
}

// The number of a half-cycle, and what is said of it.
fn put_said(page: &mut Page, number: usize, said: &[u8]) {
    page.text(b"half-cycle ");
    page.number(number);
    page.text(b": ");
    page.text(said);
}

// A line for what the receiver says: for NOTHING, none.
pub(crate) fn put_event(page: &mut Page, number: usize, event: Event) {
    match event {
        Event::Nothing => {}
        Event::Message(m) => {
            put_said(page, number, b"MESSAGE ");
            put_message(page, m);
            page.text(b"\n");
        }
        Event::Repeat => put_said(page, number, b"REPEAT\n"),
        Event::BrokenPair => put_said(page, number, b"BROKEN 10\n"),
        Event::BrokenUnsupported => put_said(page, number, b"BROKEN 11\n"),
        Event::Refused(_) => put_said(page, number, b"refused\n"),
    }
}
