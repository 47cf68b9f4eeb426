// Which field of a log is wrong, for a person.
ghost use Rattle.std.specs.Prelude.{◌≤◌};

use crate::items::{Item, Items};
use session_log::{Cause, EVENTS_START};
use std::io::{self, Write};

// The sentence for a cause by which a log is refused, with its line end, so that both are one write; octets of the log are counted from 0.
fn sentence(cause: Cause, log: &[u8]) -> &'static str {
    match cause {
        Cause::TooLong => "the log is longer than 65,536 octets\n",
        Cause::TooShort => "the log has fewer than 20 octets: it ends before its head does\n",
        Cause::CountsDiffer => "octet 4: the number of replies is not that of events\n",
        Cause::EventsElsewhere => "octet 8: the events do not start where the configuration ends\n",
        Cause::RepliesElsewhere => "octet 12: the replies do not start where the events end\n",
        Cause::EndElsewhere => {
            "octet 16: the total length is not the log's, or not where the replies end\n"
        }
        Cause::BadSetting if session_log::configuration_in(log).exemption > 1 => {
            "octet 55: whether validation is not required is neither 1 nor 0\n"
        }
        Cause::BadSetting => "octet 59: the edition is neither 1 nor 0\n",
        Cause::BadKind => "the kind is over 4\n",
        Cause::BadReading => "the reading is not 0, and it is neither a tick nor a pilot change\n",
        Cause::BadEventLength => {
            "the length is not 1 for a pilot change, or not 0 for a tick, terminate or link up\n"
        }
        Cause::BadPilot => "the pilot state is over 5\n",
        Cause::BadIndication => "the indication is over 2, or not 0 beside a refusal\n",
        Cause::BadReplyLength => "the length is not 0 beside a refusal\n",
        Cause::TooWide | Cause::OutputTooShort => "the log is refused\n",
    }
}

// How many octets behind the first one of an event or of a reply the field stands that a cause from 9 to 14 concerns.
fn field_of(cause: Cause) -> usize
    ensures { result ≤ 12 }
{
    match cause {
        Cause::BadReading | Cause::BadIndication => 4,
        Cause::BadEventLength | Cause::BadReplyLength => 8,
        Cause::BadPilot => 12,
        _ => 0,
    }
}

// Whether a cause from 9 to 14 applies to an event or to a reply: by a log's own numbers, as `session_log` judges them, to say which item it is.
fn applies(cause: Cause, item: Item) -> bool {
    let [first, second, length] = item.head;
    let pilot = first == 2;
    match cause {
        Cause::BadKind => first > 4,
        Cause::BadReading => first != 1 && !pilot && second != 0,
        Cause::BadEventLength if pilot => length != 1,
        Cause::BadEventLength => first != 0 && length != 0,
        Cause::BadPilot => pilot && item.octets.first().is_some_and(|octet| *octet > 5),
        Cause::BadIndication => second > 2 || first != 0 && second != 0,
        _ => first != 0 && length != 0,
    }
}

// Says the number, from 1, of the event or of the reply that a cause concerns, and the octet where the wrong field starts.
fn say_item<W: Write>(
    to: &mut W,
    name: &str,
    cause: Cause,
    log: &[u8],
    from: usize,
) -> io::Result<()> {
    let count = session_log::head_at(log, 0)[0];
    let mut items = Items::new(log, from).zip(1..=count);
    if let Some((item, number)) = items.find(|(item, _)| applies(cause, *item)) {
        write!(to, "{name} {number}, octet {}: ", item.at + field_of(cause))?;
    }
    Ok(())
}

// Says which field of a log is wrong.
pub(crate) fn tell<W: Write>(to: &mut W, log: &[u8], cause: Cause) -> io::Result<()> {
    match cause {
        Cause::BadKind | Cause::BadReading | Cause::BadEventLength | Cause::BadPilot => {
            say_item(to, "event", cause, log, EVENTS_START)?;
        }
        Cause::BadIndication | Cause::BadReplyLength => {
            let replies = session_log::head_at(log, 12)[0] as usize;
            say_item(to, "reply", cause, log, replies)?;
        }
        _ => (),
    }
    to.write_all(sentence(cause, log).as_bytes())
}
