// The rules on one unicast: what a call makes of it.
#![tactic(auto)]

pub mod rules;
