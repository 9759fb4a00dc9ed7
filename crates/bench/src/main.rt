#![tactic(auto)]

fn main(rt: HostRuntime) {
    bench_run::run(&rt, &mut rt.stdin(), &mut rt.stdout());
}
