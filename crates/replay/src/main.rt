// Runs that OpenSK has answered, answered by ours: its answers are the stored output. docs/ORACLE.md says how both files are made.
#![tactic(auto)]

fn main(rt: HostRuntime) {
    bench_run::run(&rt, true);
}
