// The calls over lent tables, changed where they lie, that neither admit a send nor lend one: what devices do, cancel, the timer
// pass, abandon, and the lists. The tables lie as in the crate `doing`.
#![tactic(auto)]

pub mod devices;
pub mod ends;
pub mod lists;
