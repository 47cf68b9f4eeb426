// The kinds of message, by their types and sizes.
ghost use Rattle.std.specs.Prelude.{◌≡◌, ◌≤◌, length};
ghost use Rattle.std.proofs.Math.Option.{some};
ghost use Rattle.messages.specs.Table.{group_count, type_of, payload_size, filled_size, written_size};
ghost use Rattle.messages.specs.Reading.{yes, kinds, of_type, count_rules, sized, typed, kind_rules};
ghost use Rattle.messages.specs.Answers.{checked_of};
ghost use Rattle.messages.specs.Private.{kind_of, form_of};

use crate::editions::is_count;
use crate::group_values::count_at;
use crate::heads::HEAD;
use crate::{Edition, GROUPS, Refusal, heads};

#[derive(Clone, Copy, PartialEq, Eq)]
pub(crate) enum Kind {
    SlacParmReq = 0x6064,
    SlacParmCnf = 0x6065,
    StartAttenCharInd = 0x606A,
    AttenCharInd = 0x606E,
    AttenCharRsp = 0x606F,
    MnbcSoundInd = 0x6076,
    ValidateReq = 0x6078,
    ValidateCnf = 0x6079,
    SlacMatchReq = 0x607C,
    SlacMatchCnf = 0x607D,
    AttenProfileInd = 0x6086,
}

// The form of a frame: its kind, and how many group values it has.
// A message to write has its form before its count is tested, so that the bound of the count is asked for where it is needed.
#[derive(Clone, Copy)]
pub(crate) struct Form {
    pub kind: Kind,
    pub count: usize,
}

impl Kind {
    // The column Type.
    pub(crate) fn number(self) -> u64
        ensures { result ≡ type_of (kind_of self) }
    {
        self as u64
    }
}

impl Form {
    // The form of a kind without group values.
    pub(crate) fn bare(kind: Kind) -> Form
        ensures { result ≡ record { kind = kind; count = 0 } }
    {
        Form { kind, count: 0 }
    }

    // The column Payload.
    pub(crate) fn payload_size(self) -> usize
        requires { self.count ≤ group_count }
        ensures { result ≡ payload_size (kind_of self.kind) self.count }
    {
        match self.kind {
            Kind::SlacParmReq => 10,
            Kind::SlacParmCnf => 25,
            Kind::StartAttenCharInd => 19,
            Kind::AttenCharInd => 52 + self.count,
            Kind::AttenCharRsp => 51,
            Kind::MnbcSoundInd => 52,
            Kind::ValidateReq | Kind::ValidateCnf => 3,
            Kind::SlacMatchReq => 66,
            Kind::SlacMatchCnf => 90,
            Kind::AttenProfileInd => 8 + self.count,
        }
    }

    // The octets of head and payload.
    #[tactic(auto, using(crate::proofs::TableLaws::payload_short))]
    pub(crate) fn filled_size(self) -> usize
        requires { self.count ≤ group_count }
        ensures { result ≡ filled_size (kind_of self.kind) self.count }
    {
        HEAD + self.payload_size()
    }

    // The length of a written frame.
    pub(crate) fn written_size(self) -> usize
        requires { self.count ≤ group_count }
        ensures { result ≡ written_size (kind_of self.kind) self.count }
    {
        heads::padded_size(self.filled_size())
    }

    // The form, unless a frame of n octets is too short or too long for it.
    fn of_size(self, n: usize) -> Result<Form, Refusal>
        requires { self.count ≤ group_count }
        ensures { form_of result ≡ sized (kind_of self.kind) n (yes self.count) }
    {
        if n < self.filled_size() {
            return Err(Refusal::TooShort);
        }
        if self.written_size() < n {
            return Err(Refusal::TooLong);
        }
        Ok(self)
    }
}

// The count of an SAE frame's group values, which stands in the payload's octet `at`.
fn sae_count(at: usize, frame: &[u8]) -> Result<usize, Refusal>
    requires { at ≤ 4096 }
    ensures { checked_of result ≡ count_rules Edition.Sae (some at) frame.now }
{
    let place = HEAD + at;
    if frame.len() <= place {
        return Err(Refusal::TooShort);
    }
    let count = count_at(frame, place);
    if !is_count(Edition::Sae, count) {
        return Err(Refusal::BadOctet);
    }
    Ok(count)
}

// A kind with group values, whose count stands in the payload's octet `at`.
fn of_count(edition: Edition, kind: Kind, at: usize, frame: &[u8]) -> Result<Form, Refusal>
    requires { at ≤ 4096 }
    ensures { form_of result ≡ sized (kind_of kind) (length frame.now) (count_rules edition (some at) frame.now) }
{
    let count = match edition {
        Edition::Iso => GROUPS,
        Edition::Sae => sae_count(at, frame)?,
    };
    Form { kind, count }.of_size(frame.len())
}

// The form of a frame whose head names this type.
// The types of `Kind` stand here again, so that each kind's size is a number that the compiler knows.
fn of_type(edition: Edition, number: u64, frame: &[u8]) -> Result<Form, Refusal>
    ensures { form_of result ≡ typed edition (of_type number kinds) frame.now }
{
    let n = frame.len();
    match number {
        0x6064 => Form::bare(Kind::SlacParmReq).of_size(n),
        0x6065 => Form::bare(Kind::SlacParmCnf).of_size(n),
        0x606A => Form::bare(Kind::StartAttenCharInd).of_size(n),
        0x606E => of_count(edition, Kind::AttenCharInd, 51, frame),
        0x606F => Form::bare(Kind::AttenCharRsp).of_size(n),
        0x6076 => Form::bare(Kind::MnbcSoundInd).of_size(n),
        0x6078 => Form::bare(Kind::ValidateReq).of_size(n),
        0x6079 => Form::bare(Kind::ValidateCnf).of_size(n),
        0x607C => Form::bare(Kind::SlacMatchReq).of_size(n),
        0x607D => Form::bare(Kind::SlacMatchCnf).of_size(n),
        0x6086 => of_count(edition, Kind::AttenProfileInd, 6, frame),
        _ => Err(Refusal::UnknownType),
    }
}

// The form of a frame, by its head, its group count and its length.
#[tactic(auto, using(crate::proofs::ReadLaws::kind_typed, crate::proofs::ReadLaws::kind_refused))]
pub(crate) fn form_in(edition: Edition, frame: &[u8]) -> Result<Form, Refusal>
    ensures { form_of result ≡ kind_rules edition frame.now }
{
    of_type(edition, heads::type_in(frame)?, frame)
}
