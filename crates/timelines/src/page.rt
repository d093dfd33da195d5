// A page of text, and drawings on it, whose marks may be put in any order. A row of a drawing has a label of eleven, a hundred marks
// and a line end.
ghost use Rattle.std.specs.Prelude.{◌≤◌};

use text::{Text, decimal, front};

// The bytes that a page has room for.
const SIZE: usize = 65536;

// The bytes of a row.
const ROW: usize = 112;

// A buffer and a place and no `String`: memory is fixed.
#[derive(Drop)]
pub(crate) struct Page {
    bytes: [u8; SIZE],
    // Where writing goes on.
    at: usize,
    // Where the rows of the last drawing begin.
    drawing: usize,
}

impl Page {
    // Inlined, so that the page stands on the stack once.
    #[inline(always)]
    pub(crate) fn new() -> Page {
        Page {
            bytes: [b' '; SIZE],
            at: 0,
            drawing: 0,
        }
    }

    // What is written so far.
    pub(crate) fn written(&self) -> &[u8] {
        front(&self.bytes, self.at)
    }

    // A text. What comes past the page's end is left out.
    pub(crate) fn text(&mut self, text: &[u8]) {
        for &byte in text {
            if self.at < SIZE {
                self.bytes[self.at] = byte;
                self.at += 1;
            }
        }
    }

    // The same for a text that was handed back by value.
    pub(crate) fn short(&mut self, short: Text) {
        self.text(front(&short.bytes, short.length));
    }

    pub(crate) fn number(&mut self, n: usize) {
        self.short(decimal(n as u64));
    }

    // A station by its number.
    pub(crate) fn station(&mut self, number: usize) {
        self.text(b"station ");
        self.number(number);
    }

    // Where a row of the drawing begins; it has at most twenty.
    fn row(&self, row: usize) -> usize
        ensures { result ≤ 67664 }
    {
        self.drawing.min(SIZE) + row.min(19) * ROW
    }

    // A mark in a row of the drawing; past the page's end, none.
    pub(crate) fn mark(&mut self, row: usize, column: usize, mark: u8) {
        let at = self.row(row) + 11 + column.min(100);
        if at < SIZE {
            self.bytes[at] = mark;
        }
    }

    // Ends a row of the drawing.
    fn end(&mut self, row: usize) {
        self.mark(row, 100, b'\n');
    }

    // The numbers of the half-cycles above a drawing, by their last digits.
    fn ruler(&mut self) {
        for k in 0..100 {
            self.mark(0, k, b'0' + ((k + 1) % 10) as u8);
        }
        self.end(0);
    }

    // The label of a row, and the row's end.
    fn label(&mut self, row: usize, label: &[u8]) {
        self.at = self.row(row);
        self.text(label);
        self.end(row);
    }

    // The labels of the stations' rows, which stand below those of the line and the receiver.
    fn stations(&mut self, n: usize) {
        for k in 0..n.min(16) {
            self.at = self.row(k + 3);
            self.station(k + 1);
            self.end(k + 3);
        }
    }

    // Begins a drawing for n stations. Writing goes on below it.
    pub(crate) fn draw(&mut self, n: usize) {
        self.drawing = self.at;
        self.ruler();
        self.label(1, b"line");
        self.label(2, b"receiver");
        self.stations(n);
        self.at = self.row(n.min(16) + 3);
    }
}
