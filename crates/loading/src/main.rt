// loading SHEET START [FILLED]: the loading computer.
#![tactic(auto)]

fn main(rt: HostRuntime) {
    loader::load(&rt);
}
