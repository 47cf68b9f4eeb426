// Reading a frame behind its head, a function for each message.
ghost use Rattle.std.specs.Prelude.{◌≡◌};
ghost use Rattle.messages.specs.Reading.{yes};
ghost use Rattle.amplitude.specs.Maps.{is_addressed};
ghost use Rattle.amplitude.specs.Reading.{dst_in, src_in, sized, request_of, request_rules, confirm_rules, type_rules, summary_of};
ghost use Rattle.amplitude.specs.Answers.{answer_of};
ghost use Rattle.amplitude.specs.Private.{addresses_of};

use crate::halves::{half_at, octets_for};
use crate::{MapMessage, Sender, is_carriers};
use messages::heads::{HEAD, padded_size};
use messages::{Receiver, Refusal, is_unicast};
use octets::{low_number_at, number_at};

// The types of both messages.
pub(crate) const REQ: u64 = 0x601C;

pub(crate) const CNF: u64 = 0x601D;

// The octets before the values of a request: head and AMLEN.
pub(crate) const MAP: usize = 21;

// The first number that is no result.
const RESULT_LIMIT: u64 = 2;

// A frame's destination and source.
#[derive(Clone, Copy)]
pub(crate) struct Addresses {
    pub receiver: Receiver,
    pub sender: Sender,
}

impl Addresses {
    // Whether both are unicast.
    pub(crate) fn are_unicast(self) -> bool
        ensures { result ≡ is_addressed self.receiver.0 self.sender.0 }
    {
        is_unicast(self.sender.0) && is_unicast(self.receiver.0)
    }
}

// The addresses of a frame whose head and payload take so many octets, where its length and its addresses are right.
fn addresses_in(frame: &[u8], filled: usize) -> Result<Addresses, Refusal>
    ensures { addresses_of result ≡ sized filled frame.now (yes (dst_in frame.now, src_in frame.now)) }
{
    let n = frame.len();
    if n < filled {
        return Err(Refusal::TooShort);
    }
    if padded_size(filled) < n {
        return Err(Refusal::TooLong);
    }
    let addresses = Addresses {
        receiver: Receiver(number_at(frame, 0, 6)),
        sender: Sender(number_at(frame, 6, 6)),
    };
    if !addresses.are_unicast() {
        return Err(Refusal::BadAddress);
    }
    Ok(addresses)
}

// CM_AMP_MAP.REQ with so many carriers.
fn request_of(frame: &[u8], carriers: usize) -> Result<MapMessage, Refusal>
    ensures { answer_of result ≡ summary_of (request_of carriers frame.now) }
{
    if !is_carriers(carriers) {
        return Err(Refusal::BadOctet);
    }
    let end = MAP + octets_for(carriers);
    let Addresses { receiver, sender } = addresses_in(frame, end)?;
    if half_at(&frame[MAP..end], carriers) != 0 {
        return Err(Refusal::BadOctet);
    }
    Ok(MapMessage::AmpMapReq {
        receiver,
        sender,
        carriers,
    })
}

// CM_AMP_MAP.REQ, by its AMLEN.
fn request(frame: &[u8]) -> Result<MapMessage, Refusal>
    ensures { answer_of result ≡ summary_of (request_rules frame.now) }
{
    if frame.len() < MAP {
        return Err(Refusal::TooShort);
    }
    let carriers = low_number_at(frame, HEAD, 2);
    request_of(frame, carriers as usize)
}

// CM_AMP_MAP.CNF.
fn confirm(frame: &[u8]) -> Result<MapMessage, Refusal>
    ensures { answer_of result ≡ summary_of (confirm_rules frame.now) }
{
    let Addresses { receiver, sender } = addresses_in(frame, HEAD + 1)?;
    let outcome = number_at(frame, HEAD, 1);
    if RESULT_LIMIT <= outcome {
        return Err(Refusal::BadOctet);
    }
    Ok(MapMessage::AmpMapCnf {
        receiver,
        sender,
        success: outcome == 0,
    })
}

// A frame whose head names this type.
pub(crate) fn by_type(frame: &[u8], number: u64) -> Result<MapMessage, Refusal>
    ensures { answer_of result ≡ summary_of (type_rules number frame.now) }
{
    match number {
        REQ => request(frame),
        CNF => confirm(frame),
        _ => Err(Refusal::UnknownType),
    }
}
