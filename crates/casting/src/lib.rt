// The rules of broadcasts as definitions, and what a scan asks of one broadcast.
#![tactic(auto)]

pub mod heads;
