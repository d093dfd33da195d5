// Runs the trace program on files. Each short input is read in pieces of three lengths, and its trace is the same each time.
//
// data/two_lines is the example of 01, three clear half-cycles and the burst of A1. data/crlf is the same with line ends within the
// frames. data/two_clear has the burst after two clear half-cycles, which is not heard, and after three. data/m13 is a lone frame of M13
// whose start has its last half-cycle inverted, a clear line, and the burst of M13; a receiver that takes 1110 anywhere as a start would
// hear J status request in the first. data/badbyte has a byte that is none of 0, 1, 10 and 13. data/in_frame ends within a frame, and
// data/half_a_burst within the second frame of a burst. data/dense is longer than one read and has more lines than one buffer: 4,400 equal pairs,
// a clear line, and the burst of A1.
//
// These have bursts with one half-cycle inverted. data/damaged: in the first copy of A1, whose second copy is heard; a whole burst follows.
// data/damaged_extended: in the first copy of B2 C5 31, once in its second pair, so that s+22 holds no start and s+62 does, and once in its tenth.
// data/damaged_second: in the second copy of A1; the burst of A on, which the hunt finds while it waits, is damaged in the ninth pair of its first copy.
// data/damaged_start: in the first copy's start, with which nothing is heard of the burst, and in the second's. data/unsupported has a frame with code 10,
// after which no start is waited for.

#![tactic(auto)]

use std::fs::File;
use std::io::Write;
use trace_lines::SIZE;
use trace_lines::run::{Outcome, run};

// The descriptor of standard output. The runtime's `print!` is no plainer: each function that says something would take the runtime.
const STDOUT: i32 = 1;

fn say(text: &[u8]) {
    io::write_all(STDOUT, text);
}

// The heading of a run: its input, and the length of the buffer that it is read into.
fn say_input(name: &[u8], size: usize) {
    say(b"# ");
    say(name);
    say(b", read in pieces of ");
    io::print_decimal(STDOUT, size as u64);
    say(b"\n");
}

fn say_outcome(why: Outcome) {
    match why {
        Outcome::GoesOn => say(b"# not ended"),
        Outcome::InputEnded => say(b"# the input ended"),
        Outcome::Stopped => say(b"# the trace stopped"),
        Outcome::NotRead => say(b"# the input was not read"),
        Outcome::NotWritten => say(b"# the trace was not written"),
    }
}

// How a run ended, and after how many reads.
fn say_end(why: Outcome, reads: u64) {
    say_outcome(why);
    say(b", reads: ");
    io::print_decimal(STDOUT, reads);
    say(b"\n");
}

// A file that is open for reading. Where it does not open, standard error says why.
fn open(rt: &HostRuntime, name: &str) -> Option<File> {
    match File::open(rt, name) {
        Ok(file) => Some(file),
        Err(why) => {
            let _ = eprintln!(rt; "{name}: {why}");
            None
        }
    }
}

// The trace of a file on a writer.
fn trace_to<W: Write>(rt: &HostRuntime, to: &mut W, name: &str, input: &mut [u8]) {
    say_input(name.as_bytes(), input.len());
    if let Some(mut from) = open(rt, name) {
        let mut out = [0u8; SIZE];
        let ran = run(rt, &mut from, to, input, &mut out);
        say_end(ran.outcome, ran.reads);
    }
}

// A file read whole, in pieces of 7 bytes, and byte by byte.
fn trace_in_pieces(rt: &HostRuntime, name: &str) {
    let mut to = rt.stdout();
    let mut whole = [0u8; SIZE];
    trace_to(rt, &mut to, name, &mut whole);
    let mut seven = [0u8; 7];
    trace_to(rt, &mut to, name, &mut seven);
    let mut one = [0u8; 1];
    trace_to(rt, &mut to, name, &mut one);
}

fn trace_whole(rt: &HostRuntime, name: &str) {
    let mut to = rt.stdout();
    let mut input = [0u8; SIZE];
    trace_to(rt, &mut to, name, &mut input);
}

// A file that is open for reading takes no line.
fn trace_unwritten(rt: &HostRuntime, name: &str) {
    if let Some(mut to) = open(rt, name) {
        let mut input = [0u8; SIZE];
        trace_to(rt, &mut to, name, &mut input);
    }
}

fn main(rt: HostRuntime) {
    trace_in_pieces(&rt, "two_lines");
    trace_in_pieces(&rt, "crlf");
    trace_in_pieces(&rt, "two_clear");
    trace_in_pieces(&rt, "m13");
    trace_in_pieces(&rt, "badbyte");
    trace_in_pieces(&rt, "in_frame");
    trace_in_pieces(&rt, "half_a_burst");
    trace_in_pieces(&rt, "damaged");
    trace_in_pieces(&rt, "damaged_extended");
    trace_in_pieces(&rt, "damaged_second");
    trace_in_pieces(&rt, "damaged_start");
    trace_in_pieces(&rt, "unsupported");
    trace_whole(&rt, "dense");
    // A folder opens and cannot be read.
    trace_whole(&rt, ".");
    trace_unwritten(&rt, "two_lines");
}
