// The trace program: what the line says, one line an event, from half-cycles of 0 and 1 on standard input. Its run here has every kind
// of line but BADBYTE, which trace_runs has.

#![tactic(auto)]

use trace_lines::SIZE;

fn main(rt: HostRuntime) {
    let mut input = [0u8; SIZE];
    let mut out = [0u8; SIZE];
    let mut from = rt.stdin();
    let mut to = rt.stdout();
    trace_lines::run::run(&rt, &mut from, &mut to, &mut input, &mut out);
}
