// The rules on one broadcast: its copies, their reports and its end.
#![tactic(auto)]

pub mod turns;
