// The packet program: hexadecimal packets from standard input, one a line, and for each line what it is read as on standard output. The input is
// read in pieces, in which a line may begin and end anywhere. The lines of a piece are gathered and written before the next piece is read.

#![tactic(auto)]

ghost use Rattle.std.specs.Prelude.{◌≡◌, ◌+◌, ◌≤◌};

use packet_lines::{KEPT, Line, ROOM, begin, put_line, step};
use std::io::Read;
use text::front;

// The bytes of a piece, and of the buffer that lines are gathered in.
const SIZE: usize = 65536;

// The last place of the buffer at which a line may begin.
const LAST: usize = 65024;

// Where the program stands: the line that is being read, how many bytes are gathered, and whether every write has been done.
#[derive(Clone, Copy)]
struct Progress {
    line: Line,
    at: usize,
    // No Result: each byte's step would have to hand it on, and the piece is taken to its end all the same.
    written: bool,
}

// Writes the first bytes of the buffer, and answers whether all of them were written. Where they were not, standard error says why.
fn write(rt: &HostRuntime, out: &[u8], n: usize) -> bool {
    match rt.write_all(front(out, n)) {
        Ok(()) => true,
        Err(why) => {
            let _ = eprintln!(rt; "packet: cannot write: {why}");
            false
        }
    }
}

// Writes what is gathered; after a write that failed no more.
fn flush(rt: &HostRuntime, p: Progress, out: &[u8]) -> Progress
    ensures { result.at ≡ 0 }
{
    Progress {
        at: 0,
        written: p.written && write(rt, out, p.at),
        ..p
    }
}

// Copies the first bytes of a line's text into the buffer.
fn put(out: &mut [u8; SIZE], at: usize, text: &[u8; ROOM], n: usize) -> usize
    requires { (at ≤ 65024) × (n ≤ 512) }
    ensures { result ≡ at + n }
{
    let end = at + n;
    out[at..end].copy_from_slice(&text[..n]);
    end
}

// Writes a buffer that is nearly full.
fn make_room(rt: &HostRuntime, p: Progress, out: &[u8]) -> Progress
    ensures { result.at ≤ 65024 }
{
    if p.at > LAST {
        return flush(rt, p, out);
    }
    p
}

// Prints a line that is over, and begins the next.
fn end_line(rt: &HostRuntime, p: Progress, kept: &[u8; KEPT], out: &mut [u8; SIZE]) -> Progress {
    let mut text = [0u8; ROOM];
    let n = put_line(p.line, kept, &mut text);
    let q = make_room(rt, p, out);
    Progress {
        line: begin(),
        at: put(out, q.at, &text, n),
        ..q
    }
}

// One character of the input.
fn take_byte(
    rt: &HostRuntime,
    p: Progress,
    b: u8,
    kept: &mut [u8; KEPT],
    out: &mut [u8; SIZE],
) -> Progress {
    if b == 10 {
        return end_line(rt, p, kept, out);
    }
    Progress {
        line: step(p.line, b, kept),
        ..p
    }
}

// A piece of the input.
fn take_piece(
    rt: &HostRuntime,
    p: Progress,
    input: &[u8],
    kept: &mut [u8; KEPT],
    out: &mut [u8; SIZE],
) -> Progress {
    let mut q = p;
    for &b in input {
        q = take_byte(rt, q, b, kept, out);
    }
    q
}

// The last line, which counts without a line feed too, if it has any character.
fn end_input(rt: &HostRuntime, p: Progress, kept: &[u8; KEPT], out: &mut [u8; SIZE]) -> Progress {
    if p.line.place == 0 {
        return p;
    }
    end_line(rt, p, kept, out)
}

// Reads a piece and prints its lines. Answers where the program stands if it goes on: not after the input's end, nor after a read or a write
// that failed, of which standard error says why.
fn take_turn(
    rt: &HostRuntime,
    p: Progress,
    input: &mut [u8; SIZE],
    kept: &mut [u8; KEPT],
    out: &mut [u8; SIZE],
) -> Option<Progress> {
    match rt.stdin().read(input) {
        Ok(0) => {
            flush(rt, end_input(rt, p, kept, out), out);
            None
        }
        Ok(n) => {
            let q = flush(rt, take_piece(rt, p, front(input, n), kept, out), out);
            if q.written { Some(q) } else { None }
        }
        Err(why) => {
            let _ = eprintln!(rt; "packet: cannot read: {why}");
            None
        }
    }
}

// Reads to the input's end, or to a read or a write that fails. A proved loop has to end, and nothing says that an input does: it ends too after
// as many reads as a number counts, which no run comes to.
fn main(rt: HostRuntime) {
    let mut input = [0u8; SIZE];
    let mut out = [0u8; SIZE];
    let mut kept = [0u8; KEPT];
    let mut p = Progress {
        line: begin(),
        at: 0,
        written: true,
    };
    for _ in 0..u64::MAX {
        match take_turn(&rt, p, &mut input, &mut kept, &mut out) {
            Some(q) => p = q,
            None => return,
        }
    }
}
