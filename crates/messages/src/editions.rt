// Where the editions differ.
ghost use Rattle.std.specs.Prelude.{◌≡◌};
ghost use Rattle.messages.specs.Table.{is_attempt, resp_type, forwarding, any_id, is_count};

use crate::{Edition, FIRST_ATTEMPT, GROUPS, ISO_ATTEMPT, LATER_ATTEMPT};

// Whether two octets are NUM_SOUNDS and Time_Out of a try.
pub(crate) fn is_attempt(edition: Edition, v: u64) -> bool
    ensures { result ≡ is_attempt edition v }
{
    match edition {
        Edition::Iso => v == ISO_ATTEMPT,
        Edition::Sae => matches!(v, FIRST_ATTEMPT | LATER_ATTEMPT),
    }
}

// RESP_TYPE.
pub(crate) fn resp_type(edition: Edition) -> u64
    ensures { result ≡ resp_type edition }
{
    match edition {
        Edition::Iso => 1,
        Edition::Sae => 0,
    }
}

// FORWARDING_STA.
pub(crate) fn forwarding_to(edition: Edition, car: u64) -> u64
    ensures { result ≡ forwarding edition car }
{
    match edition {
        Edition::Iso => car,
        Edition::Sae => 0,
    }
}

// Whether identifiers may hold any octets.
pub(crate) fn any_id(edition: Edition) -> bool
    ensures { result ≡ any_id edition }
{
    edition == Edition::Sae
}

// Whether a number is a group count.
pub(crate) fn is_count(edition: Edition, count: usize) -> bool
    ensures { result ≡ is_count edition count }
{
    match edition {
        Edition::Iso => count == GROUPS,
        Edition::Sae => 1 <= count && count <= GROUPS,
    }
}
