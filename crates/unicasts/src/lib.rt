// The calls on the lent table of unicasts with a known next hop.
#![tactic(auto)]

pub mod calls;
