// A trace cut into records: kinds and body lengths, and what stands at a place of it.
#![tactic(auto)]

pub mod kinds;
pub mod reader;

// What stands at a place of a trace: a record, with its kind, where its body starts and where the next one does; a kind of no
// event; a record that the trace's end cuts; or that end.
#[derive(Clone, Copy)]
pub enum Standing {
    Record { kind: u8, start: usize, next: usize },
    Unknown,
    Cut,
    End,
}
