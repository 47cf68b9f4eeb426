// Reading a script's events and writing their replies, for the programs that answer scripts. The contracts name the octets that are
// read and written, where the reader and the writer say which these are; what the system gives and takes no contract can say.
// Errors, input and replies go one by one: each contract names what is read and what is written.
#![tactic(auto)]

ghost use Rattle.std.specs.Prelude.{◌≡◌, true, false, ◌+◌, ◌<◌, ◌≤◌, length, take, None, OnErr, IfOk, IfSome, IfNone, IsSomeAnd};
ghost use Rattle.std.specs.Io.KnownBytes.{Keeps, Consumes, Appends, IsAtEnd};
ghost use Rattle.script.specs.Events.{most_octets, event_octets, length_in};
ghost use Rattle.script_io.specs.Events.{StartsWithEvent};

use script::scripted::Scripted;
use script::{EVENT_OCTETS, LONGEST_REPLY, MOST_OCTETS};
use std::io::{self, Read, Write};

// What is said of an input that breaks the layout.
pub const BROKEN: &str = "the input breaks the layout of a script";

// Reads until the slice is full or the input ends, and gives how many octets it has read.
pub fn read_full<R: Read>(input: &mut R, octets: &mut [u8]) -> io::Result<usize>
    ensures within { IfOk result (λ n. n ≤ length octets.new) }
    ensures read { IfOk result (λ n. Consumes (R.remaining input.old) (R.remaining input.new) (take n octets.new)) }
    ensures ended { IfOk result (λ n. n < length octets.new → IsAtEnd (R.remaining input.new)) }
    ensures err { OnErr result (length octets.new ≡ length octets.old) }
    ensures empty { length octets.old ≡ 0 → result ≡ Ok 0 }
{
    let mut done = 0;
    // A turn reads as many octets as the input gives, so that no range or chunk counts them.
    while done < octets.len() {
        let n = input.read(&mut octets[done..])?;
        if n == 0 {
            return Ok(done);
        }
        done += n;
    }
    Ok(done)
}

// Reads an event, and gives how many octets it has, or nothing where the input ends early, its length is over 4,096 or the slice is
// too short for it.
pub fn read_event<R: Read>(input: &mut R, event: &mut [u8]) -> io::Result<Option<usize>>
    ensures within { IfOk result (λ o. IfSome o (λ n. n ≤ length event.new)) }
    ensures read { IfOk result (λ o. IfSome o (λ n. Consumes (R.remaining input.old) (R.remaining input.new) (take n event.new))) }
    ensures whole { IfOk result (λ o. IfSome o (λ n. n ≡ event_octets + length_in event.new)) }
    ensures none { IfOk result (λ o. IfNone o (event_octets + most_octets ≤ length event.old
        → IfSome (R.remaining input.old) (λ s. ¬ StartsWithEvent s))) }
    ensures err { OnErr result (length event.new ≡ length event.old) }
    ensures short { length event.old < event_octets + most_octets → result ≡ Ok None }
{
    if event.len() < EVENT_OCTETS + MOST_OCTETS {
        return Ok(None);
    }
    if read_full(input, &mut event[..EVENT_OCTETS])? < EVENT_OCTETS {
        return Ok(None);
    }
    let size = script::event_length(event) as usize;
    if MOST_OCTETS < size {
        return Ok(None);
    }
    let end = EVENT_OCTETS + size;
    if read_full(input, &mut event[EVENT_OCTETS..end])? < size {
        return Ok(None);
    }
    Ok(Some(end))
}

// Writes the reply of so many octets that the output's first ones are, and gives whether the script goes on. There is no reply to
// an event that breaks the layout.
pub fn write_reply<W: Write>(
    rt: &impl Eprint,
    replies: &mut W,
    out: &[u8],
    octets: Option<usize>,
) -> io::Result<bool>
    ensures fits { IfOk result (λ on. on ≡ true → IsSomeAnd octets (λ n. (0 < n) × (n ≤ length out.now))) }
    ensures written { IfOk result (λ on. on ≡ true
        → IfSome octets (λ n. Appends (W.contents replies.old) (W.contents replies.new) (take n out.now))) }
    ensures broken { IfOk result (λ on. on ≡ false → Keeps (W.contents replies.old) (W.contents replies.new)) }
    ensures goes_on { IfOk result (λ on. IfSome octets (λ n. 0 < n → n ≤ length out.now → on ≡ true)) }
{
    match octets {
        Some(n) if 0 < n && n <= out.len() => {
            replies.write_all(&out[..n])?;
            Ok(true)
        }
        _ => {
            rt.eprintln(BROKEN)?;
            Ok(false)
        }
    }
}

// Whether the script goes on with so many events left; with none left the input is to end.
pub fn goes_on<R: Read>(rt: &impl Eprint, input: &mut R, left: u64) -> io::Result<bool>
    ensures left { IfOk result (λ on. (on ≡ true → 0 < left) × (on ≡ false → left ≡ 0)) }
    ensures on { 0 < left → result ≡ Ok true }
    ensures unread { IfOk result (λ on. on ≡ true → Keeps (R.remaining input.old) (R.remaining input.new)) }
{
    if left > 0 {
        return Ok(true);
    }
    let mut more = [0u8; 1];
    if read_full(input, &mut more)? > 0 {
        rt.eprintln(BROKEN)?;
    }
    Ok(false)
}

// Answers so many events from the first station or car on; the input is to end behind them.
fn run<S: Scripted, R: Read, W: Write>(
    rt: &impl Eprint,
    input: &mut R,
    replies: &mut W,
    first: S,
    count: u64,
) -> io::Result<()>
    requires { S.kept first }
    ensures none { count ≡ 0 → Keeps (W.contents replies.old) (W.contents replies.new) }
{
    let mut event = [0; EVENT_OCTETS + MOST_OCTETS];
    let mut out = [0; LONGEST_REPLY];
    let mut s = first;
    let mut left = count;
    // The loop is no range of numbers: the contract of `goes_on` says when a script ends. An event is carried out here and in no function
    // of its own, since each function that hands a station or a car on copies it.
    while goes_on(rt, input, left)? {
        let Some(end) = read_event(input, &mut event)? else {
            return rt.eprintln(BROKEN);
        };
        let Some(happened) = s.event(&event[..end], &mut out) else {
            return rt.eprintln(BROKEN);
        };
        if !write_reply(rt, replies, &out, Some(happened.octets))? {
            return Ok(());
        }
        s = happened.left;
        left -= 1;
    }
    Ok(())
}

// Answers a script with a head of as many octets as the slice that is lent for it, and writes the replies, one event at a time. To an
// input that is shorter than its head nothing is written.
pub fn answer<S: Scripted, R: Read, W: Write>(
    rt: &impl Eprint,
    input: &mut R,
    replies: &mut W,
    head: &mut [u8],
) -> io::Result<()>
    ensures short { IfSome (R.remaining input.old) (λ s. length s < length head.old → Keeps (W.contents replies.old) (W.contents replies.new)) }
{
    if read_full(input, head)? < head.len() {
        return rt.eprintln(BROKEN);
    }
    let Some(started) = S::start(head) else {
        return rt.eprintln(BROKEN);
    };
    replies.write_all(&started.answer)?;
    run(rt, input, replies, started.first, S::event_count(head))?;
    replies.flush()
}
