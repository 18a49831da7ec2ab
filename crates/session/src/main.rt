// The session program: a sheet and commands on standard input, a line for each answer on standard output.
#![tactic(auto)]

use std::io;

fn main(rt: HostRuntime) -> io::Result<()> {
    play::session(&mut rt.stdin(), &mut io::writer(&rt))
}
