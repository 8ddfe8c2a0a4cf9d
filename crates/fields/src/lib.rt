// The fields of a record's body: numbers out of bytes, and the parts that may be outside their form.
#![tactic(auto)]

pub mod numbers;
pub mod parts;
