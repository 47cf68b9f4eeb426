// One record of a station at a time, by value: what each message and each tick does to it.
#![tactic(auto)]

pub mod changes;
pub mod find;
pub mod heard;
pub mod profiles;
pub mod report;
pub mod requests;
pub mod timers;
pub mod validation;
