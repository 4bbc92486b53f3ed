// Lists the record on standard input.
#![tactic(auto)]

use std::io;

fn main(rt: HostRuntime) -> io::Result<()> {
    lister::list_input(&mut rt.stdin(), &mut rt.stdout())
}
