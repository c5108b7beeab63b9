// The window program: the session on standard input.
#![tactic(auto)]

use std::io;

fn main(rt: HostRuntime) -> io::Result<()> {
    session::run(&mut rt.stdin(), &mut rt.stdout())
}
