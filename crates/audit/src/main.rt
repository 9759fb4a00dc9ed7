#![tactic(auto)]

fn main(rt: HostRuntime) {
    audit_run::run(&rt, &mut rt.stdin(), &mut rt.stdout());
}
