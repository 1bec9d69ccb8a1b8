// The line program: commands on standard input, answers on standard output.
#![tactic(auto)]

use std::io;

fn main(rt: HostRuntime) -> io::Result<()> {
    console::console(&rt)
}
