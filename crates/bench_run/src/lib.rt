// A run of the bench over lent bytes: stations loaded from messages and draws, then one call for each byte of the line.

#![tactic(auto)]

ghost use Rattle.std.specs.Prelude.{◌≡◌, ◌+◌, ◌*◌, ◌/◌, ◌≤◌, length, take, drop, replicate, Ok, Err, IfOk, IfErr};
ghost use mathlib.Core.List.{◌++◌, flat_map};
ghost use Rattle.ground.specs.Choice.{pick};
ghost use Rattle.ground.specs.Refusals.{judged, count_report};
ghost use Rattle.station.specs.Stations.{empty_station};
ghost use Rattle.station.specs.Benches.{most_stations};
ghost use Rattle.wire.specs.Messages.{message_in};
ghost use Rattle.bench_run.specs.BenchRuns.{all_say, loadings, loads_answer, stations_from, moment_after, turns_of};
ghost use Rattle.bench_run.specs.BenchRuns.{line_byte, line_bytes, mark_bytes, counts_as, done_mask, call_causes};
ghost use Rattle.bench_run.specs.BenchRuns.{lent, run_answer, run_report, lines_after, marks_after};

use ground::{Refusal, refusal_number};
use message::Message;
use station::bench::{BenchTurn, SLOTS, half_cycle};
use station::{Station, empty, load};
use wire::message_from;

// The message that stands at a place.
fn message_at(messages: &[u8], at: usize) -> Result<Message, Refusal>
    requires { at + 5 ≤ length messages.now }
    ensures { result ≡ message_in (drop at messages.now) }
{
    message_from(
        messages[at],
        messages[at + 1],
        messages[at + 2],
        messages[at + 3],
        messages[at + 4],
    )
}

// Whether every whole five bytes say a message.
fn messages_fine(messages: &[u8]) -> bool
    ensures { result ≡ all_say (length messages.now / 5) messages.now }
{
    for i in 0..messages.len() / 5 {
        if message_at(messages, 5 * i).is_err() {
            return false;
        }
    }
    true
}

// The slots with a station loaded for each draw, and empty ones past the last station, or the first refusal.
fn load_all(messages: &[u8], loads: &[u8]) -> Result<[Station; 16], Refusal>
    requires { (length loads.now ≤ 16) × (5 * length loads.now ≤ length messages.now) }
    ensures loaded { IfOk result (λ slots. (loads_answer (loadings messages.now loads.now) ≡ Ok tt)
        × (slots ≡ stations_from (loadings messages.now loads.now)
        ++ drop (length loads.now) (replicate most_stations empty_station))) }
    ensures refused { IfErr result (λ why. loads_answer (loadings messages.now loads.now) ≡ Err why) }
{
    let spare = empty();
    let mut slots = [spare; 16];
    for (i, &draw) in loads.iter().enumerate() {
        let m = message_at(messages, 5 * i)?;
        let loading = load(spare, m, draw);
        loading.answer?;
        slots[i] = loading.next;
    }
    Ok(slots)
}

// The draws of one call, and 0 past the last station.
fn draws_at(draws: &[u8], at: usize, n: usize) -> [u8; 16]
    requires { (n ≤ 16) × (at + n ≤ length draws.now) }
    ensures { take n result ≡ take n (drop at draws.now) }
{
    let mut own = [0; 16];
    own[..n].copy_from_slice(&draws[at..at + n]);
    own
}

// What a call puts on the line's byte: the half-cycle, or the number by which it was refused.
fn line_byte(answer: Result<u8, Refusal>) -> u8
    ensures { result ≡ line_byte answer }
{
    match answer {
        Ok(half) => half,
        Err(why) => refusal_number(why),
    }
}

// 1 for a call that was not refused.
fn counts_as(answer: Result<u8, Refusal>) -> usize
    ensures { (result ≡ counts_as answer) × (result ≤ 1) }
{
    match answer {
        Ok(_) => 1,
        Err(_) => 0,
    }
}

// A mark as a number.
fn bit_of(b: bool) -> u16
    ensures { (result ≡ pick b 1 0) × (result ≤ 1) }
{
    if b { 1 } else { 0 }
}

// Which stations are DONE as one number, station i in bit i.
fn done_mask(done: [bool; 16]) -> u16
    ensures { result ≡ done_mask done }
{
    let mut mask: u16 = 0;
    for left in (0..16).rev() {
        mask = mask % 32768 * 2 + bit_of(done[left]);
    }
    mask
}

// One call for each byte of lines. The last call's turn is kept whole, which copies the stations less often than a local for them alone. Before the first
// call only its slots count.
fn run_all(
    slots: [Station; 16],
    n: usize,
    draws: &[u8],
    lines: &mut [u8],
    marks: &mut [u8],
) -> usize
    requires { (n ≤ length slots) × (n ≤ 16) × (length draws.now ≡ n * length lines.old) × (2 * length lines.old ≤ length marks.old) }
    ensures count { result ≡ length (moment_after n (take n slots) draws.now (length lines.old)).past }
    ensures lines { lines.new ≡ line_bytes (turns_of n (take n slots) draws.now (length lines.old)) }
    ensures marks { marks.new
        ≡ flat_map mark_bytes (turns_of n (take n slots) draws.now (length lines.old))
        ++ drop (2 * length lines.old) marks.old }
{
    let mut turn = BenchTurn {
        answer: Ok(0),
        done: [false; 16],
        slots,
    };
    let mut count: usize = 0;
    let mut at: usize = 0;
    for j in 0..lines.len() {
        turn = half_cycle(turn.slots, n, draws_at(draws, at, n));
        lines[j] = line_byte(turn.answer);
        let mask = done_mask(turn.done);
        marks[2 * j] = (mask / 256 % 256) as u8;
        marks[2 * j + 1] = (mask % 256) as u8;
        count += counts_as(turn.answer);
        at += n;
    }
    count
}

// The calls of n loaded stations, where there is a draw for each station and call, and room for the marks.
fn run_loaded(
    slots: [Station; 16],
    n: usize,
    draws: &[u8],
    lines: &mut [u8],
    marks: &mut [u8],
) -> Result<usize, Refusal>
    requires { (1 ≤ n) × (n ≤ 16) }
    ensures answer { result ≡ judged (call_causes n draws.now lines.old marks.old)
        (Ok (length (moment_after n (take n slots) draws.now (length lines.old)).past)) Err }
    ensures lines { lines.new ≡ judged (call_causes n draws.now lines.old marks.old)
        (line_bytes (turns_of n (take n slots) draws.now (length lines.old))) (λ why. lines.old) }
    ensures marks { marks.new ≡ judged (call_causes n draws.now lines.old marks.old)
        (flat_map mark_bytes (turns_of n (take n slots) draws.now (length lines.old))
        ++ drop (2 * length lines.old) marks.old) (λ why. marks.old) }
{
    let calls = lines.len();
    if draws.len() / n != calls {
        return Err(Refusal::Draw);
    }
    if draws.len() % n != 0 {
        return Err(Refusal::Draw);
    }
    if marks.len() / 2 < calls {
        return Err(Refusal::Short);
    }
    Ok(run_all(slots, n, draws, lines, marks))
}

// Loads a station for each draw of loads, calls the bench once for each byte of lines, and answers how many calls were not refused.
// Refused, it changes nothing.
pub fn run(
    messages: &[u8],
    loads: &[u8],
    draws: &[u8],
    lines: &mut [u8],
    marks: &mut [u8],
) -> Result<usize, Refusal>
    ensures answer { result ≡ run_answer (lent messages.now loads.now draws.now lines.old marks.old) }
    ensures report { count_report result
        ≡ run_report (lent messages.now loads.now draws.now lines.old marks.old) }
    ensures lines { lines.new
        ≡ lines_after (lent messages.now loads.now draws.now lines.old marks.old) }
    ensures marks { marks.new
        ≡ marks_after (lent messages.now loads.now draws.now lines.old marks.old) }
{
    if !messages_fine(messages) {
        return Err(Refusal::Message);
    }
    let n = loads.len();
    if n < 1 {
        return Err(Refusal::State);
    }
    if SLOTS < n {
        return Err(Refusal::State);
    }
    if messages.len() != 5 * n {
        return Err(Refusal::State);
    }
    let slots = load_all(messages, loads)?;
    run_loaded(slots, n, draws, lines, marks)
}
