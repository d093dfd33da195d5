// Runs of a bench, drawn half-cycle by half-cycle: what the line has, what a receiver hears on it, who sends, who gives way and who is
// DONE.

#![tactic(auto)]

mod heard;
mod page;
mod stations;

use ground::{Refusal, refusal_number};
use heard::{event_mark, listen, put_event};
use page::Page;
use receiver::fresh;
use station::Station;
use station::bench::{BenchTurn, half_cycle};
use stations::{a_against_b, a_and_a, all_empty, draws_at, put_stations, sixteen, waits_8_and_9};

// Half-cycles enough for sixteen stations to be DONE: 134 for each.
const LONGEST: usize = 2144;

// The half-cycle that a station sends, as a digit.
fn sent_mark(s: Station) -> u8 {
    match station::sends(s) {
        Ok(half) => b'0' + half % 2,
        Err(_) => b'?',
    }
}

// One half-cycle of one station, as the legend says.
fn mark(before: Station, after: Station, done: bool) -> u8 {
    if done {
        return b'D';
    }
    if before.held.is_none() {
        return b'-';
    }
    if before.count < before.wait {
        return if after.count == 0 { b'r' } else { b'.' };
    }
    if after.count == 0 {
        return b'x';
    }
    sent_mark(before)
}

// What the line had, or the number of a refusal.
fn line_mark(answer: Result<u8, Refusal>) -> u8 {
    match answer {
        Ok(half) => b'0' + half % 2,
        Err(why) => b'0' + refusal_number(why) % 10,
    }
}

// The column of one half-cycle in a drawing: the line above, then a row left for the receiver, and one station after the other.
fn put_column(page: &mut Page, column: usize, before: [Station; 16], turn: BenchTurn, n: usize) {
    page.mark(1, column, line_mark(turn.answer));
    for k in 0..n.min(16) {
        page.mark(k + 3, column, mark(before[k], turn.slots[k], turn.done[k]));
    }
}

// Begins a drawing of a hundred half-cycles from one on.
fn begin(page: &mut Page, first: usize, n: usize) {
    page.text(b"half-cycles from ");
    page.number(first);
    page.text(b"\n");
    page.draw(n);
}

// Ends a run after t half-cycles.
fn end(page: &mut Page, t: usize) {
    page.text(b"all DONE after ");
    page.number(t);
    page.text(b" half-cycles\n\n");
}

// A run of n stations until all are DONE. The receiver's words stand below each drawing.
fn run(page: &mut Page, start: [Station; 16], n: usize, fixed: Option<u8>) {
    let mut slots = start;
    let mut listener = fresh();
    put_stations(page, start);
    for t in 0..LONGEST {
        if all_empty(slots) {
            return end(page, t);
        }
        let column = t % 100;
        if column == 0 {
            begin(page, t + 1, n);
        }
        let turn = half_cycle(slots, n, draws_at(t, fixed));
        put_column(page, column, slots, turn, n);
        let heard = listen(listener, turn.answer);
        page.mark(2, column, event_mark(heard.event));
        put_event(page, t + 1, heard.event);
        slots = turn.slots;
        listener = heard.next;
    }
}

// What the rows and their marks mean.
fn legend(page: &mut Page) {
    page.text(
        b"Half-cycles are numbered from 1. Rows: the line, what a receiver on it says, the stations.\n",
    );
    page.text(b"receiver: . NOTHING, M MESSAGE, R REPEAT, B BROKEN\n");
    page.text(
        b"station: - empty, . waits, r heard 1 and waits anew, 0 1 sends, x sent 0, heard 1 and gives way, D sent its last and is DONE\n\n",
    );
}

// A write that fails is passed over.
fn main(rt: HostRuntime) {
    let mut page = Page::new();
    legend(&mut page);
    page.text(b"Waits 8 and 9\n");
    run(&mut page, waits_8_and_9(), 2, Some(9));
    page.text(b"A1 against B1, equal waits\n");
    run(&mut page, a_against_b(), 2, Some(8));
    page.text(b"A1 twice, equal waits\n");
    run(&mut page, a_and_a(), 2, Some(8));
    page.text(b"Sixteen stations\n");
    run(&mut page, sixteen(), 16, None);
    let _ = rt.write_all(page.written());
}
