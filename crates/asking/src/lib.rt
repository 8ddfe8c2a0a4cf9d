// The rules on the head of one unicast: what a scan, a sweep or a fold asks of it.
#![tactic(auto)]

pub mod rules;
