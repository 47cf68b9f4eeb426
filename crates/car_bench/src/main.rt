// Reads a script of a car's calls on standard input and writes the replies to standard output, one event at a time.
#![tactic(auto)]

use car_rules::Car;
use script::of_car::HEAD_OCTETS;
use std::io;

fn main(rt: HostRuntime) -> io::Result<()> {
    let mut head = [0; HEAD_OCTETS];
    script_io::answer::<Car, _, _>(&rt, &mut rt.stdin(), &mut rt.stdout(), &mut head)
}
