// The calls over lent tables, changed where they lie, that admit a send: the four enqueues, and a route for those that wait on
// one. The tables lie as in the crate `doing`.
#![tactic(auto)]

pub mod enqueues;
pub mod routes;
