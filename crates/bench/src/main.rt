// The bench program: a line of input is a packet that comes at a time, and what the device answers is printed. docs/RULES.md, The bench's lines.
#![tactic(auto)]

fn main(rt: HostRuntime) {
    bench_run::run(&rt, false);
}
