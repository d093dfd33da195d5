// Holds the listing of radio codes of source 004 against the writer and the reader. Prints each row that differs from these: its number, what
// the listing prints, what the reader names and what the writer gives; then totals.
//
// data/listing.tsv has a row for each of the 544 commands, house after house: the command, b and c as the listing prints them,
// parted by tabs. A byte after '/' is printed a line below its command. A row that differs from 01's rule is marked: what the
// rule says stands behind it, in three more fields.

#![tactic(auto)]

ghost use Rattle.std.specs.Prelude.{◌+◌, ◌≤◌, ◌<◌, length};

use listing::{find, past, read_front};
use radio::RadioCommand;
use std::fs::File;
use std::io;
use std::io::{Result, Write};
use text::{ROOM, Text, front, letter, place};

const ROWS: usize = 544;

// The command of a row: on and off for each unit of a house, bright and dim.
fn command_at(row: usize) -> RadioCommand
    requires { row < 544 }
{
    let house = (row / 34) as u8;
    let rest = (row % 34) as u8;
    if rest == 32 {
        return RadioCommand::Bright { house };
    }
    if rest == 33 {
        return RadioCommand::Dim { house };
    }
    let unit = rest / 2;
    if rest % 2 == 0 {
        RadioCommand::On { house, unit }
    } else {
        RadioCommand::Off { house, unit }
    }
}

// The row with a byte more. One that is full takes no more; the longest, of bright, has 30 bytes.
fn put(mut row: Text, byte: u8) -> Text {
    if row.length < ROOM {
        row.bytes[row.length] = byte;
        row.length += 1;
    }
    row
}

// A space and a word.
fn put_word(row: Text, word: &[u8]) -> Text {
    let mut r = put(row, b' ');
    for &byte in word {
        r = put(r, byte);
    }
    r
}

// A tab, and a byte in eight binary digits.
fn put_bits(row: Text, byte: u8) -> Text {
    let mut r = put(row, b'\t');
    for bit in (0..u8::BITS).rev() {
        r = put(r, b'0' + (byte >> bit) % 2);
    }
    r
}

// A house by its letter, at a row's front.
fn put_house(house: u8) -> Text {
    let row = Text {
        bytes: [0; ROOM],
        length: 0,
    };
    put(row, letter(house))
}

// A command in the listing's words.
fn put_command(command: RadioCommand) -> Text {
    match command {
        RadioCommand::On { house, unit } => put_word(place(house, unit), b"ON"),
        RadioCommand::Off { house, unit } => put_word(place(house, unit), b"OFF"),
        RadioCommand::Bright { house } => put_word(put_house(house), b"BRIGHT 005"),
        RadioCommand::Dim { house } => put_word(put_house(house), b"DIM 005"),
    }
}

// A row that no listing prints, of a house that there is not, where writer or reader refuses.
fn put_refused() -> Text {
    put_word(put_house(16), b"REFUSED")
}

// The row of four bytes: the command that they are read as, b and c.
fn put_read(code: [u8; 4]) -> Text {
    match radio::read(&code) {
        Ok(k) => put_bits(put_bits(put_command(k), code[0]), code[2]),
        Err(_) => put_refused(),
    }
}

// A row as 01's rule has it: the bytes that the writer gives for a command, read back.
fn put_row(command: RadioCommand) -> Text {
    match radio::write(command) {
        Ok(code) => put_read(code),
        Err(_) => put_refused(),
    }
}

// Where the first three fields of a line end: at its third tab, or at its end.
fn printed_end(line: &[u8]) -> usize
    ensures { result ≤ length line.now }
{
    let second = past(line, find(line, 0, b'\t'));
    let third = past(line, find(line, second, b'\t'));
    find(line, third, b'\t')
}

// What a row of the listing turns out to be.
#[derive(Clone, Copy)]
enum Verdict {
    // The listing prints what the rule says.
    Agrees,
    // It does not, and the row is marked with what the rule says.
    Differs,
    // The row's mark is not what the rule says, or it has one and needs none.
    WrongMark,
}

// Prints a row that differs. Here and below each part is a write of its own: one that fails is passed over, and the others are tried.
fn report(rt: &impl Print, row: usize, printed: &[u8], rule: &[u8]) {
    let mut out = io::writer(rt);
    let _ = write!(out, "{row}");
    let _ = out.write_all(b"\tlisting\t");
    let _ = out.write_all(printed);
    let _ = out.write_all(b"\trule\t");
    let _ = out.write_all(rule);
    let _ = writeln!(out);
}

// Judges a line of the listing by the row of the rule, and prints it where it differs. Rows are numbered from 1.
fn judge(rt: &impl Print, number: usize, line: &[u8], rule: &[u8]) -> Verdict {
    let end = printed_end(line);
    let printed = front(line, end);
    if printed == rule {
        return if end < line.len() {
            Verdict::WrongMark
        } else {
            Verdict::Agrees
        };
    }
    report(rt, number, printed, rule);
    let mark = past(line, end);
    if &line[mark..] == rule {
        Verdict::Differs
    } else {
        Verdict::WrongMark
    }
}

// Judges the line of the row with this number from 0 on.
fn judge_row(rt: &impl Print, number: usize, line: &[u8]) -> Verdict
    requires { number < 544 }
{
    let row = put_row(command_at(number));
    judge(rt, number + 1, line, front(&row.bytes, row.length))
}

// How many rows had each verdict.
#[derive(Clone, Copy, Default)]
struct Totals {
    agree: u64,
    differ: u64,
    wrong: u64,
}

// The totals with a row more.
fn counted(mut t: Totals, v: Verdict) -> Totals
    requires { (t.agree < 544) × (t.differ < 544) × (t.wrong < 544) }
    ensures { (result.agree ≤ t.agree + 1) × (result.differ ≤ t.differ + 1) × (result.wrong ≤ t.wrong + 1) }
{
    match v {
        Verdict::Agrees => t.agree += 1,
        Verdict::Differs => t.differ += 1,
        Verdict::WrongMark => t.wrong += 1,
    }
    t
}

fn print_totals(rt: &impl Print, totals: Totals, rest: usize) {
    let mut out = io::writer(rt);
    let _ = write!(out, "{}", totals.agree);
    let _ = out.write_all(b" rows agree with the rule\n");
    let _ = write!(out, "{}", totals.differ);
    let _ = out.write_all(b" rows differ and are marked with what the rule says\n");
    let _ = write!(out, "{}", totals.wrong);
    let _ = out.write_all(b" rows are marked wrongly\n");
    let _ = write!(out, "{}", rest);
    let _ = out.write_all(b" bytes follow the last row\n");
}

// Judges the listing, a line for each row, and prints the totals.
fn judge_all(rt: &impl Print, text: &[u8]) {
    let mut totals = Totals::default();
    let mut at = 0;
    for number in 0..ROWS {
        let end = find(text, at, b'\n');
        totals = counted(totals, judge_row(rt, number, &text[at..end]));
        at = past(text, end);
    }
    print_totals(rt, totals, text.len() - at);
}

fn main(rt: HostRuntime) -> Result<()> {
    let path = "listing.tsv";
    match File::open(&rt, path) {
        Ok(mut file) => {
            // more than the listing has
            let mut text = [0; 65536];
            let n = read_front(&mut file, &mut text);
            judge_all(&rt, &text[..n]);
            Ok(())
        }
        Err(why) => eprintln!(rt; "{path}: {why}"),
    }
}
