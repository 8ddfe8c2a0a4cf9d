// The calls over lent tables, changed where they lie, that lend a send to the radio and take its report. The tables lie as in
// the crate `doing`.
#![tactic(auto)]

pub mod radio;
