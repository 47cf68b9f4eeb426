// Amplitude maps for C and Rust to link: their two messages, and the reductions that a map asks for.
ghost use Rattle.std.specs.Prelude.{◌≡◌, not, eqb, length};
ghost use Rattle.messages.specs.Answers.{checked_of};
ghost use Rattle.amplitude.specs.Maps.{amp_map_req, amp_map_cnf};
ghost use Rattle.amplitude.specs.Reading.{read_rules, summary_of, values_rules};
ghost use Rattle.amplitude.specs.Writing.{write_rules};
ghost use Rattle.amplitude.specs.Reductions.{reduce_rules};
ghost use Rattle.amplitude.specs.Answers.{result_of, answer_of};
ghost use Rattle.lahzavar.specs.Maps.{map_read_as, counted_as, Fills};

use crate::answers;
use amplitude::{MapMessage, Sender};
use messages::{Receiver, Refusal};

// CM_AMP_MAP.REQ's type.
const REQUEST: u32 = 0x601C;

// CM_AMP_MAP.CNF's.
const CONFIRMATION: u32 = 0x601D;

// What a frame of amplitude maps says: the refusal's number or 0, the type, destination and source, the carriers of a request, the result of a confirmation.
#[repr(C)]
#[derive(Clone, Copy)]
pub struct MapRead {
    pub refusal: u32,
    pub kind: u32,
    pub receiver: u64,
    pub sender: u64,
    pub carriers: u32,
    pub result: u32,
}

// The refusal's number or 0, and how many places of a lent slice were filled.
#[repr(C)]
#[derive(Clone, Copy)]
pub struct Counted {
    pub refusal: u32,
    pub count: u32,
}

// What reading answered, as plain numbers.
fn map_read(answer: Result<MapMessage, Refusal>) -> MapRead
    ensures { result ≡ map_read_as (answer_of answer) }
{
    match answer {
        Ok(
            MapMessage::AmpMapReq {
                receiver,
                sender,
                carriers,
            },
        ) => MapRead {
            refusal: 0,
            kind: REQUEST,
            receiver: receiver.0,
            sender: sender.0,
            carriers: answers::low(carriers),
            result: 0,
        },
        Ok(
            MapMessage::AmpMapCnf {
                receiver,
                sender,
                success,
            },
        ) => MapRead {
            refusal: 0,
            kind: CONFIRMATION,
            receiver: receiver.0,
            sender: sender.0,
            carriers: 0,
            result: u32::from(!success),
        },
        Err(refusal) => MapRead {
            refusal: u32::from(refusal),
            kind: 0,
            receiver: 0,
            sender: 0,
            carriers: 0,
            result: 0,
        },
    }
}

// How many places were filled, or octets written, as plain numbers.
fn count(answer: Result<usize, Refusal>) -> Counted
    ensures { result ≡ counted_as (checked_of answer) }
{
    match answer {
        Ok(n) => Counted {
            refusal: 0,
            count: answers::low(n),
        },
        Err(refusal) => Counted {
            refusal: u32::from(refusal),
            count: 0,
        },
    }
}

// Reads a frame of amplitude maps.
#[unsafe(no_mangle)]
pub extern "C" fn lahzavar_read_map(octets: &[u8]) -> MapRead
    ensures { result ≡ map_read_as (summary_of (read_rules octets.now)) }
{
    map_read(amplitude::read(octets))
}

// Puts the values of a request, one for each carrier, into a slice; a refusal changes nothing.
#[unsafe(no_mangle)]
pub extern "C" fn lahzavar_values_of_map(octets: &[u8], values: &mut [u8]) -> Counted
    ensures { Fills (values_rules octets.now (length values.old)) values.old values.new result }
{
    count(amplitude::values(octets, values))
}

// Writes CM_AMP_MAP.REQ with a value for each carrier; a refusal changes nothing.
#[unsafe(no_mangle)]
pub extern "C" fn lahzavar_request_map(
    receiver: u64,
    sender: u64,
    values: &[u8],
    out: &mut [u8],
) -> Counted
    ensures { Fills (write_rules (amp_map_req receiver sender values.now) (length out.old)) out.old out.new result }
{
    count(amplitude::write_req(Receiver(receiver), Sender(sender), values, out))
}

// Writes CM_AMP_MAP.CNF, for success where the number is not 0; a refusal changes nothing.
#[unsafe(no_mangle)]
pub extern "C" fn lahzavar_confirm_map(
    receiver: u64,
    sender: u64,
    success: u32,
    out: &mut [u8],
) -> Counted
    ensures { Fills (write_rules (amp_map_cnf receiver sender (result_of (not (eqb success 0)))) (length out.old)) out.old out.new result }
{
    count(amplitude::write_cnf(Receiver(receiver), Sender(sender), success != 0, out))
}

// Puts the reduction of each carrier, for a request's values and our levels in dBm/Hz, into a slice; a refusal changes nothing.
#[unsafe(no_mangle)]
pub extern "C" fn lahzavar_reduce_map(
    values: &[u8],
    levels: &[i16],
    reductions: &mut [u8],
) -> Counted
    ensures { Fills (reduce_rules values.now levels.now (length reductions.old)) reductions.old reductions.new result }
{
    count(amplitude::reduce(values, levels, reductions))
}
