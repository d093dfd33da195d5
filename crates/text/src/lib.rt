// Houses, units, messages and numbers as programs print them: short texts, handed back by value.

#![tactic(auto)]

ghost use Rattle.std.specs.Prelude.{◌≡◌, [], ◌∷◌, ◌++◌, ◌+◌, ◌≤◌, ◌<◌, length, take};
ghost use Rattle.message.specs.declared.Message.TheVariants.{Address, Function as Command, Extended};
ghost use Rattle.text.specs.Texts.{digits_of, letter_of, hex_digit, hex_of, trimmed, place_text, message_text, blank, text_of, Put, Adds};

use message::codes::name_of;
use message::{Function, Message};

// The bytes that a text has room for. The longest, a function's name after FUNCTION and its house, has 27.
pub const ROOM: usize = 32;

// A text of at most 32 bytes; the bytes past its length are 0. A buffer and a length and no `String`: memory is fixed.
#[derive(Clone, Copy)]
pub struct Text {
    pub bytes: [u8; ROOM],
    pub length: usize,
}

// A text before anything is put into it.
const BLANK: Text = Text {
    bytes: [0; ROOM],
    length: 0,
};

// The kinds of message, filled up with 0.
const ADDRESS: [u8; 16] = *b"ADDRESS\0\0\0\0\0\0\0\0\0";

const FUNCTION: [u8; 16] = *b"FUNCTION\0\0\0\0\0\0\0\0";

const EXTENDED: [u8; 16] = *b"EXTENDED\0\0\0\0\0\0\0\0";

// How many digits a number has. A `while`: how many turns there are is what it finds out.
fn places(number: u64) -> usize
    ensures { result ≡ length (digits_of number) }
{
    let mut k = 1;
    let mut rest = number;
    while rest > 9 {
        rest /= 10;
        k += 1;
    }
    k
}

fn hex_digit(n: u8) -> u8
    requires { n < 16 }
    ensures { result ≡ hex_digit n }
{
    if n < 10 { 48 + n } else { 55 + n }
}

// A house's letter, A to P; `?` for a house above 15.
pub fn letter(house: u8) -> u8
    ensures { result ≡ letter_of house }
{
    if house <= 15 { 65 + house } else { 63 }
}

// Putting more after what a text has.
impl Text {
    fn put_byte(&mut self, b: u8)
        requires { self.old.length < 32 }
        ensures { Adds self.old (b ∷ []) self.new }
    {
        self.bytes[self.length] = b;
        self.length += 1;
    }

    // The digits are put from the last to the first.
    fn put_number(&mut self, number: u64)
        requires { self.old.length + 20 ≤ 32 }
        ensures { Adds self.old (digits_of number) self.new }
    {
        let k = places(number);
        let mut rest = number;
        for i in (0..k).rev() {
            self.bytes[self.length + i] = 48 + (rest % 10) as u8;
            rest /= 10;
        }
        self.length += k;
    }

    // A word that is filled up with 0 to sixteen bytes, as far as its first 0. Inlined, so that a word known beforehand is not gone through, and counted:
    // `for b in word` loads the sixteen before the first is put.
    #[inline(always)]
    fn put_word(&mut self, word: [u8; 16])
        requires { self.old.length + 16 ≤ 32 }
        ensures { Adds self.old (trimmed word) self.new }
    {
        let at = self.length;
        for i in 0..16 {
            let b = word[i];
            if b == 0 {
                self.length = at + i;
                return;
            }
            self.bytes[at + i] = b;
        }
        self.length = at + 16;
    }

    fn put_hex(&mut self, b: u8)
        requires { self.old.length + 2 ≤ 32 }
        ensures { Adds self.old (hex_of b) self.new }
    {
        self.put_byte(hex_digit(b / 16));
        self.put_byte(hex_digit(b % 16));
    }

    fn put_unit(&mut self, unit: u8)
        requires { self.old.length + 20 ≤ 32 }
        ensures { Adds self.old (digits_of (unit + 1)) self.new }
    {
        self.put_number(unit as u64 + 1);
    }

    // The data or the command of an extended message, with the byte before it.
    fn put_data(&mut self, between: u8, b: u8)
        requires { self.old.length + 3 ≤ 32 }
        ensures { Adds self.old (between ∷ hex_of b) self.new }
    {
        self.put_byte(between);
        self.put_hex(b);
    }
}

// A kind of message and the house, with the byte between them before and after the house. Inlined, so that its kind is known beforehand.
#[inline(always)]
fn head(kind: [u8; 16], between: u8, house: u8) -> Text
    requires { length (trimmed kind) ≤ 8 }
    ensures { Adds blank (trimmed kind ++ (between ∷ letter_of house ∷ between ∷ [])) result }
{
    let mut t = BLANK;
    t.put_word(kind);
    t.put_byte(between);
    t.put_byte(letter(house));
    t.put_byte(between);
    t
}

fn address(between: u8, house: u8, unit: u8) -> Text
    ensures { result ≡ text_of (message_text between (Address house unit)) }
{
    let mut t = head(ADDRESS, between, house);
    t.put_unit(unit);
    t
}

fn command(between: u8, house: u8, function: Function) -> Text
    ensures { result ≡ text_of (message_text between (Command house function)) }
{
    let mut t = head(FUNCTION, between, house);
    t.put_word(name_of(function));
    t
}

fn extended(between: u8, house: u8, unit: u8, data: u8, command: u8) -> Text
    ensures { result ≡ text_of (message_text between (Extended house unit «data» command)) }
{
    let mut t = head(EXTENDED, between, house);
    t.put_unit(unit);
    t.put_data(between, data);
    t.put_data(between, command);
    t
}

// A number in decimal.
pub fn decimal(n: u64) -> Text
    ensures { result ≡ text_of (digits_of n) }
{
    let mut t = BLANK;
    t.put_number(n);
    t
}

// A byte as two capital hexadecimal digits.
pub fn hex(b: u8) -> Text
    ensures { result ≡ text_of (hex_of b) }
{
    let mut t = BLANK;
    t.put_hex(b);
    t
}

// A module by its house and unit, as on its dial: A1 to P16.
pub fn place(house: u8, unit: u8) -> Text
    ensures { result ≡ text_of (place_text house unit) }
{
    let mut t = BLANK;
    t.put_byte(letter(house));
    t.put_unit(unit);
    t
}

// A message, its fields parted by a byte.
pub fn message(m: Message, between: u8) -> Text
    ensures { result ≡ text_of (message_text between m) }
{
    match m {
        Message::Address { house, unit } => address(between, house, unit),
        Message::Function { house, function } => command(between, house, function),
        Message::Extended {
            house,
            unit,
            data,
            command,
        } => extended(between, house, unit, data, command),
    }
}

// The front of some bytes, n of them where there are so many: a text as far as its length.
pub fn front(bytes: &[u8], n: usize) -> &[u8]
    ensures { result.now ≡ take n bytes.now }
{
    if n <= bytes.len() { &bytes[..n] } else { bytes }
}
