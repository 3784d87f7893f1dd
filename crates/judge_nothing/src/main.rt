// The program `judge`, run on no input.
// A program is run once, on the `stdin` beside it: so the same text stands in a crate of its own for each input.
#![tactic(auto)]

use program::console::run;
use std::io;

fn main(rt: HostRuntime) -> io::Result<()> {
    run(&rt)
}
