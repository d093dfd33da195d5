// The bench: up to sixteen stations on one line, advanced by one half-cycle.
ghost use Rattle.std.specs.Prelude.{◌≡◌, true, map, ◌∷◌, [], ◌≤◌, length, take, drop};
ghost use Rattle.ground.specs.Refusals.{judged, reports, refuses, refusal_number};
ghost use Rattle.station.specs.Stations.{sends_of};
ghost use Rattle.station.specs.Benches.{line_of, stations_ok, draws_ok, turn_all, bench_refused, slot_causes, beside, bench_of, bench_report};

use crate::{Station, draw_ok, empty, idle, moves, sends};
use ground::Refusal;

// How many stations a bench has at most.
pub const SLOTS: usize = 16;

// The answer, which stations are DONE, and the slots as the call leaves them.
#[derive(Clone, Copy)]
pub struct BenchTurn {
    pub answer: Result<u8, Refusal>,
    pub done: [bool; 16],
    pub slots: [Station; 16],
}

// A call that is refused: the slots as they were, and none DONE.
fn refused(why: Refusal, slots: [Station; 16]) -> BenchTurn
    ensures { result ≡ bench_refused slots why }
{
    BenchTurn {
        answer: Err(why),
        done: [false; 16],
        slots,
    }
}

// Judges the first n draws.
fn draws_fine(draws: [u8; 16], n: usize) -> bool
    requires { n ≤ length draws }
    ensures { result ≡ draws_ok (take n draws) }
{
    draws[..n].iter().all(|&d| draw_ok(d))
}

// Moves the first n stations, judged before, by the line's half-cycle and by what each of them sent.
fn move_all(slots: [Station; 16], n: usize, draws: [u8; 16], line: u8, sent: [u8; 16]) -> BenchTurn
    requires n_in_bounds { n ≤ length slots }
    requires n_in_bounds_2 { n ≤ length draws }
    requires slots_value { stations_ok (take n slots) ≡ true }
    requires draws_value { draws_ok (take n draws) ≡ true }
    requires line_value { (line ≡ line_of (take n slots)) × (take n sent ≡ map sends_of (take n slots)) }
    ensures { result ≡ beside (drop n slots) (turn_all (take n slots) (take n draws)) }
{
    let mut after = slots;
    let mut done = [false; 16];
    for i in 0..n {
        let s = after[i];
        if let Some(m) = s.held {
            match moves(m, s, sent[i], line, draws[i]) {
                None => {
                    after[i] = empty();
                    done[i] = true;
                }
                Some(v) => {
                    after[i].wait = v.wait;
                    after[i].count = v.count;
                    after[i].place = v.place;
                }
            }
        }
    }
    BenchTurn {
        answer: Ok(line),
        done,
        slots: after,
    }
}

// One half-cycle of the first n stations: each is judged and heard in one look, then all are moved. A refused call leaves the slots
// as they were, and any call leaves those past n.
pub fn half_cycle(slots: [Station; 16], n: usize, draws: [u8; 16]) -> BenchTurn
    ensures answer { result ≡ bench_of n slots draws }
    ensures report { bench_report result.answer ≡ judged (slot_causes n slots draws) (reports (line_of (take n slots) ∷ [])) refuses }
{
    if !((1 <= n) & (n <= SLOTS)) {
        return refused(Refusal::State, slots);
    }
    let mut line: u8 = 0;
    let mut sent = [0; 16];
    for k in 0..n {
        if !idle(slots[k]) {
            match sends(slots[k]) {
                Err(_) => {
                    return refused(Refusal::State, slots);
                }
                Ok(half) => {
                    sent[k] = half;
                    line = line | half;
                }
            }
        }
    }
    if !draws_fine(draws, n) {
        return refused(Refusal::Draw, slots);
    }
    move_all(slots, n, draws, line, sent)
}
