// The calls on the lent table of broadcasts: what is asked of it, and what changes it.
#![tactic(auto)]

pub mod asks;
pub mod moves;
