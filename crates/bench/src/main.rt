// Reads a script of calls on standard input and writes the replies to standard output, one event at a time.
#![tactic(auto)]

use rules::Station;
use script::HEAD_OCTETS;
use std::io;

fn main(rt: HostRuntime) -> io::Result<()> {
    let mut head = [0; HEAD_OCTETS];
    script_io::answer::<Station, _, _>(&rt, &mut rt.stdin(), &mut rt.stdout(), &mut head)
}
