// The rules paper's listing, run.
#![tactic(auto)]

use std::io;

fn main(rt: HostRuntime) -> io::Result<()> {
    console::console(&rt)
}
