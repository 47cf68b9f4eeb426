// Reads a log on standard input, replays it and prints the first event that differs, from 1, or 0, or minus the cause by which the
// log is refused. What the answer means is said on standard error.
#![tactic(auto)]

mod causes;
mod differences;
mod items;

use script::LONGEST_REPLY;
use session_log::MOST_OCTETS;
use std::io::{self, Write};

// One octet more than a log may have: a longer input is refused like it.
const INPUT_OCTETS: usize = MOST_OCTETS + 1;

// Replays a log, prints the answer and says what it means.
fn answer<W: Write>(rt: &impl Print, to: &mut W, log: &[u8], out: &mut [u8]) -> io::Result<()> {
    match replaying::replay(log) {
        Err(cause) => {
            println!(rt; "-{}", u32::from(cause))?;
            causes::tell(to, log, cause)
        }
        Ok(n) => {
            println!(rt; "{n}")?;
            if n > 0 {
                differences::tell(to, log, n, out)?;
            }
            Ok(())
        }
    }
}

fn main(rt: HostRuntime) -> io::Result<()> {
    let mut log = [0u8; INPUT_OCTETS];
    let mut out = [0u8; LONGEST_REPLY];
    let mut to = rt.stderr();
    let size = script_io::read_full(&mut rt.stdin(), &mut log)?;
    answer(&rt, &mut to, &log[..size], &mut out)?;
    to.flush()
}
