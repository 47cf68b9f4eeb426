// The head of a frame, and what else every frame has, of whatever message: for the readers and writers of this crate, and of other messages.
ghost use Rattle.std.specs.Prelude.{◌≡◌};
ghost use Rattle.std.proofs.lemmas.List.Edits.{sets};
ghost use Rattle.messages.specs.Layout.{encode};
ghost use Rattle.messages.specs.Table.{head, padded_size};
ghost use Rattle.messages.specs.Reading.{type_rules};
ghost use Rattle.messages.specs.Answers.{checked_of};

use crate::Refusal;
use octets::{low_number_at, number_at, put_low_number, put_number};

// The octets before the payload.
pub const HEAD: usize = 19;

// The least length of a written frame.
pub const LEAST: usize = 60;

// The type that a frame's head names: any octets, of any length.
#[tactic(auto, using(crate::proofs::ReadLaws::type_short, crate::proofs::ReadLaws::type_bad, crate::proofs::ReadLaws::type_found))]
pub fn type_in(frame: &[u8]) -> Result<u64, Refusal>
    ensures { checked_of result ≡ type_rules frame.now }
{
    if frame.len() < HEAD {
        return Err(Refusal::TooShort);
    }
    let fixed = (number_at(frame, 12, 3) == 0x88E101) & (number_at(frame, 17, 2) == 0);
    if !fixed {
        return Err(Refusal::BadHead);
    }
    Ok(low_number_at(frame, 15, 2))
}

// The length of a written frame, by that of its head and payload.
pub fn padded_size(filled: usize) -> usize
    ensures { result ≡ padded_size filled }
{
    filled.max(LEAST)
}

// Writes the octets before the payload: destination, source and type.
// Inlined: a call of it costs each reply some thirty instructions.
#[inline(always)]
pub fn put_head(out: &mut [u8], dst: u64, src: u64, number: u64)
    ensures { out.new ≡ sets out.old 0 (encode head (dst, (src, (number, tt)))) }
{
    put_number(out, 0, 6, dst);
    put_number(out, 6, 6, src);
    put_number(out, 12, 3, 0x88E101);
    put_low_number(out, 15, 2, number);
    put_number(out, 17, 2, 0);
}
