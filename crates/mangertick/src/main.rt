// Reads items from standard input, one after another, and prints a line for each.
#![tactic(auto)]

use report::print_report;
use std::io;

fn main(rt: HostRuntime) -> io::Result<()> {
    print_report(&mut rt.stdin(), &mut rt.stdout())
}
