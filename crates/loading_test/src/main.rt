// The loading computer on a sheet of the bay that lacks its first step, so that step 3 reads row 10, which nobody filled:
// with no list, with lists, and with texts that are none.
#![tactic(auto)]

fn main(rt: HostRuntime) {
    loader::load(&rt);
    loader::load_listed(&rt, b"0,1,2,3,4,5,10");
    loader::load_listed(&rt, b"0,1,2,3,4,5");
    loader::load_listed(&rt, b"none");
    loader::load_listed(&rt, b"0,1,2,3,4,5,14");
    loader::load_listed(&rt, b"0 1 2");
    loader::load_listed(&rt, b"");
}
