// A received frame, as far as no whole station is needed: what is decided of it before a record is looked at, where its record
// goes, what it does at one record, the messages of the replies, and what a request with an amplitude map is answered.
#![tactic(auto)]

pub mod admission;
pub mod judge;
pub mod maps;
pub mod own_record;
pub mod reply;
