// What is asked of the lent table of unicasts: scans and folds over it, and the source-match sets.
#![tactic(auto)]

pub mod asks;
pub mod sets;
