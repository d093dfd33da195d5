// Holds the packets that source 002 prints for network 0x10 against the reader. Prints for each row what its bytes are read as and, of a
// misprint, what is wrong with it; then totals.
//
// data/listing.tsv has a row for each packet, in 002's order: the code of its command, the command's name and the bytes as 002 prints them,
// parted by tabs. A row that is misprinted is marked by a fourth field: LENGTH where the length byte is wrong, CHECK where the check byte is,
// CODE where the payload is another command's. A row of which not every byte is printed has no mark.

#![tactic(auto)]

ghost use Rattle.std.specs.Prelude.{◌+◌, ◌≤◌, ◌<◌, length};

use ground::Refusal;
use listing::{find, past, read_front};
use lynx_net::check_of;
use packet_lines::{KEPT, Line, ROOM, begin, put_answer, step};
use std::fs::File;
use std::io;
use std::io::{Result, Write};
use text::front;

const ROWS: usize = 76;

// What is wrong with a packet as it is printed.
#[derive(Clone, Copy)]
enum Fault {
    Length,
    Check,
    Code,
}

// What a row turns out to be.
#[derive(Clone, Copy)]
enum Verdict {
    Read,
    // The packet is right, and A6 does not take its command.
    NotTaken,
    Misprinted,
    // The row's mark is not what is wrong with it.
    WrongMark,
    // Not every byte is printed.
    NotWhole,
}

// A character of the bytes as 002 prints them: 0x before a byte and the comma after it are passed over.
fn take_character(line: Line, b: u8, kept: &mut [u8; KEPT]) -> Line {
    if (b == b'x') & (line.high == 0) {
        return Line { high: 16, ..line };
    }
    if b == b',' {
        return step(line, b' ', kept);
    }
    step(line, b, kept)
}

fn take_bytes(printed: &[u8], kept: &mut [u8; KEPT]) -> Line {
    let mut line = begin();
    for &b in printed {
        line = take_character(line, b, kept);
    }
    line
}

// The code of a row, by the two digits in its first field.
fn code_of(field: &[u8]) -> u8 {
    let mut kept = [0; KEPT];
    take_bytes(field, &mut kept);
    kept[0]
}

// What is wrong with a packet that a command with this code should have, if anything is.
fn fault_of(packet: &[u8], code: u8) -> Option<Fault> {
    let n = packet.len();
    if n < 6 {
        return Some(Fault::Length);
    }
    if packet[3] as usize != n - 5 {
        return Some(Fault::Length);
    }
    let last = n - 1;
    if packet[last] != check_of(front(packet, last)) {
        return Some(Fault::Check);
    }
    if packet[4] != code {
        return Some(Fault::Code);
    }
    None
}

// The mark of a row with this fault.
fn mark_of(fault: Fault) -> &'static str {
    match fault {
        Fault::Length => "LENGTH",
        Fault::Check => "CHECK",
        Fault::Code => "CODE",
    }
}

// Prints what the reader says of a packet. Here and below each part is a write of its own: one that fails is passed over, and the others are tried.
fn print_answer(rt: &impl Print, packet: &[u8]) {
    let mut text = [0; ROOM];
    let n = put_answer(packet, &mut text);
    let _ = io::writer(rt).write_all(front(&text, n));
}

// What a packet with nothing wrong is.
fn verdict_of(packet: &[u8]) -> Verdict {
    match lynx_net::read(packet) {
        Ok(_) => Verdict::Read,
        Err(Refusal::Payload) => Verdict::NotTaken,
        Err(_) => Verdict::WrongMark,
    }
}

// Prints what is wrong with a packet, and judges it by the mark of its row.
fn judge_fault(rt: &impl Print, fault: Fault, mark: &[u8]) -> Verdict {
    let due = mark_of(fault);
    let _ = print!(rt; "\tMISPRINT\t{due}");
    if mark == due.as_bytes() {
        Verdict::Misprinted
    } else {
        Verdict::WrongMark
    }
}

// Judges a packet that is printed whole.
fn judge_packet(rt: &impl Print, packet: &[u8], code: u8, mark: &[u8]) -> Verdict {
    print_answer(rt, packet);
    match fault_of(packet, code) {
        Some(fault) => judge_fault(rt, fault, mark),
        None if mark.is_empty() => verdict_of(packet),
        None => Verdict::WrongMark,
    }
}

// Judges the bytes of a row as they are printed.
fn judge_bytes(rt: &impl Print, printed: &[u8], code: u8, mark: &[u8]) -> Verdict {
    let mut kept = [0; KEPT];
    let line = take_bytes(printed, &mut kept);
    if (line.bad == 0) & (line.high >= 16) {
        return judge_packet(rt, front(&kept, line.count), code, mark);
    }
    let _ = io::writer(rt).write_all(b"NOT WHOLE");
    if mark.is_empty() {
        Verdict::NotWhole
    } else {
        Verdict::WrongMark
    }
}

// Judges a row, and prints its line.
fn judge_row(rt: &impl Print, row: &[u8]) -> Verdict {
    let code_end = find(row, 0, b'\t');
    let name = past(row, code_end);
    let bytes = past(row, find(row, name, b'\t'));
    let bytes_end = find(row, bytes, b'\t');
    let mark = past(row, bytes_end);
    let _ = io::writer(rt).write_all(front(row, bytes));
    let verdict = judge_bytes(
        rt,
        &row[bytes..bytes_end],
        code_of(front(row, code_end)),
        &row[mark..],
    );
    let _ = io::writer(rt).write_all(b"\n");
    verdict
}

// How many rows had each verdict.
#[derive(Clone, Copy, Default)]
struct Totals {
    read: u64,
    untaken: u64,
    misprinted: u64,
    wrong: u64,
    partial: u64,
}

// The totals with a row more.
fn counted(mut t: Totals, v: Verdict) -> Totals
    requires { (t.read < 76) × (t.untaken < 76) × (t.misprinted < 76) × (t.wrong < 76) × (t.partial < 76) }
    ensures { (result.read ≤ t.read + 1) × (result.untaken ≤ t.untaken + 1) × (result.misprinted ≤ t.misprinted + 1)
        × (result.wrong ≤ t.wrong + 1) × (result.partial ≤ t.partial + 1) }
{
    match v {
        Verdict::Read => t.read += 1,
        Verdict::NotTaken => t.untaken += 1,
        Verdict::Misprinted => t.misprinted += 1,
        Verdict::WrongMark => t.wrong += 1,
        Verdict::NotWhole => t.partial += 1,
    }
    t
}

fn print_totals(rt: &impl Print, totals: Totals, rest: usize) {
    let mut out = io::writer(rt);
    let _ = write!(out, "{}", totals.read);
    let _ = out.write_all(b" rows are read\n");
    let _ = write!(out, "{}", totals.untaken);
    let _ = out.write_all(b" rows are refused 22: commands that A6 does not take\n");
    let _ = write!(out, "{}", totals.misprinted);
    let _ = out.write_all(b" rows are misprinted, and marked so\n");
    let _ = write!(out, "{}", totals.wrong);
    let _ = out.write_all(b" rows are marked wrongly\n");
    let _ = write!(out, "{}", totals.partial);
    let _ = out.write_all(b" rows print no whole packet\n");
    let _ = write!(out, "{}", rest);
    let _ = out.write_all(b" bytes follow the last row\n");
}

// Judges the listing, row after row, and prints the totals.
fn judge_all(rt: &impl Print, text: &[u8]) {
    let mut totals = Totals::default();
    let mut at = 0;
    for row in 0..ROWS {
        let end = find(text, at, b'\n');
        totals = counted(totals, judge_row(rt, &text[at..end]));
        at = past(text, end);
    }
    print_totals(rt, totals, text.len() - at);
}

fn main(rt: HostRuntime) -> Result<()> {
    let path = "listing.tsv";
    match File::open(&rt, path) {
        Ok(mut file) => {
            // more than the listing has
            let mut text = [0; 65536];
            let n = read_front(&mut file, &mut text);
            judge_all(&rt, &text[..n]);
            Ok(())
        }
        Err(why) => eprintln!(rt; "{path}: {why}"),
    }
}
