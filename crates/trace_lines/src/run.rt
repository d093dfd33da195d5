// The trace program: an input is read in pieces, and the lines of each piece are written before the next is read.
ghost use Rattle.std.specs.Prelude.{◌≡◌, true, ◌≤◌, length};
ghost use Rattle.trace_lines.specs.Trace.{progress_after};
ghost use Rattle.trace_lines.specs.Runs.{buffers_of, buffer_after, got_of, bytes_got, got_ok, outcome_of, goes_on_by, RunOf};

use crate::{GREATEST, Progress, SIZE, begin, trace};
use std::io::{Read, Write};

// What a read gave. No Result: there are three cases, the input's end is no error, and the definition got_of and RunOf speak of them.
#[derive(Clone, Copy)]
pub enum Got {
    Bytes(usize),
    Ended,
    Failed,
}

// Whether a run goes on, or why it ends: with its input, at a byte that stops the trace, where a read or a write failed.
// No Result: a run that goes on and one that has ended are cases too, and the definition outcome_of speaks of all.
#[derive(Clone, Copy)]
pub enum Outcome {
    GoesOn,
    InputEnded,
    Stopped,
    NotRead,
    NotWritten,
}

// Where a trace stands after a piece, and whether all of its lines were written. No Result: after a write that failed the trace stands somewhere too.
#[derive(Clone, Copy)]
struct Piece {
    progress: Progress,
    written: bool,
}

// The same with what the read gave.
#[derive(Clone, Copy)]
struct Turn {
    progress: Progress,
    got: Got,
    written: bool,
}

// A run that has ended.
#[derive(Clone, Copy)]
pub struct Ran {
    pub progress: Progress,
    pub outcome: Outcome,
    pub reads: u64,
}

// Writes the buffer's first bytes, and answers whether all of them were written. Where they were not, standard error says why.
fn write<W: Write>(rt: &impl Eprint, to: &mut W, out: &[u8], n: usize) -> bool
    requires { n ≤ length out.now }
{
    match to.write_all(&out[..n]) {
        Ok(()) => true,
        Err(why) => {
            let _ = eprintln!(rt; "trace: cannot write: {why}");
            false
        }
    }
}

// The whole of a piece. As often as the buffer is full it is written, and at the end of the piece; after a write that failed no more.
fn print_piece<W: Write>(
    rt: &impl Eprint,
    to: &mut W,
    p: Progress,
    input: &[u8],
    out: &mut [u8; SIZE],
) -> Piece
    ensures progress { result.progress ≡ progress_after p input.now }
    ensures buffer { out.new ≡ buffer_after out.old (buffers_of p input.now) }
{
    let mut q = p;
    let mut from: usize = 0;
    let mut written = true;
    // No counted loop: the place goes on by what the trace took.
    while from < input.len() {
        let done = trace(q, &input[from..], out);
        if written {
            written = write(rt, to, out, done.length);
        }
        q = done.progress;
        from += done.taken;
        // Here and not before the buffer, where the inner loop would keep a flag for it in a register.
        if q.stopped {
            return Piece {
                progress: q,
                written,
            };
        }
    }
    Piece {
        progress: q,
        written,
    }
}

// What a read's answer says.
fn got_of(answer: isize, input: &[u8]) -> Got
    ensures { result ≡ got_of answer (length input.now) }
{
    if answer < 0 {
        return Got::Failed;
    }
    if answer == 0 {
        return Got::Ended;
    }
    Got::Bytes(io::count(answer, input))
}

// Reads a piece. Where that fails, standard error says why.
fn read<R: Read>(rt: &impl Eprint, from: &mut R, input: &mut [u8]) -> Got
    ensures { got_ok result (length input.new) ≡ true }
{
    match from.read(input) {
        Ok(n) => got_of(n as isize, input),
        Err(why) => {
            let _ = eprintln!(rt; "trace: cannot read: {why}");
            got_of(-1, input)
        }
    }
}

// Reads a piece and prints it.
fn take_turn<R: Read, W: Write>(
    rt: &impl Eprint,
    from: &mut R,
    to: &mut W,
    p: Progress,
    input: &mut [u8],
    out: &mut [u8; SIZE],
) -> Turn
    ensures got { got_ok result.got (length input.new) ≡ true }
    ensures progress { result.progress ≡ progress_after p (bytes_got result.got input.new) }
    ensures buffer { out.new ≡ buffer_after out.old (buffers_of p (bytes_got result.got input.new)) }
{
    let got = read(rt, from, input);
    match got {
        Got::Bytes(n) => {
            let piece = print_piece(rt, to, p, &input[..n], out);
            Turn {
                progress: piece.progress,
                got,
                written: piece.written,
            }
        }
        Got::Ended | Got::Failed => Turn {
            progress: p,
            got,
            written: true,
        },
    }
}

fn outcome_of(got: Got, written: bool, stopped: bool) -> Outcome
    ensures { result ≡ outcome_of got written stopped }
{
    match got {
        Got::Bytes(_) => {
            if !written {
                return Outcome::NotWritten;
            }
            if stopped {
                return Outcome::Stopped;
            }
            Outcome::GoesOn
        }
        Got::Ended => Outcome::InputEnded,
        Got::Failed => Outcome::NotRead,
    }
}

fn goes_on(why: Outcome) -> bool
    ensures { result ≡ goes_on_by why }
{
    matches!(why, Outcome::GoesOn)
}

// The trace of a reader's input on a writer, read into a lent buffer piece by piece and written from a second one: to the input's
// end, a byte that stops the trace, or a read or a write that fails, of which standard error says why. A buffer of no bytes reads none, as
// at the input's end. A proved loop has to end, and nothing says that an input does: it ends too after as many reads as a number counts,
// which no run comes to.
pub fn run<R: Read, W: Write>(
    rt: &impl Eprint,
    from: &mut R,
    to: &mut W,
    input: &mut [u8],
    out: &mut [u8; SIZE],
) -> Ran
    ensures { RunOf result input.new out.old out.new }
{
    let mut p = begin();
    let mut reads: u64 = 0;
    // No counted loop: how often it turns is answered, and no run comes to an end that a `for` would name.
    loop {
        let had = take_turn(rt, from, to, p, input, out);
        p = had.progress;
        let why = outcome_of(had.got, had.written, p.stopped);
        reads += 1;
        if !goes_on(why) | (reads == GREATEST) {
            return Ran {
                progress: p,
                outcome: why,
                reads,
            };
        }
    }
}
