// What the calls of the send tables take and answer, by value. Their meaning is in specs/, over lists of records.
#![tactic(auto)]

use records::{Address, Confirm, Priority, Refusal, Schedule};

// A unicast with a known next hop, as it is handed in; with a poll address it waits for its device to poll.
#[derive(Clone, Copy)]
pub struct NewUnicast {
    pub frame: u32,
    pub waiter: u32,
    pub priority: Priority,
    pub confirm: Confirm,
    pub next_hop: u16,
    pub poll_address: Address,
}

// A unicast that waits for a route to its destination.
#[derive(Clone, Copy)]
pub struct NewUnrouted {
    pub frame: u32,
    pub waiter: u32,
    pub priority: Priority,
    pub confirm: Confirm,
    pub destination: u16,
}

#[derive(Clone, Copy)]
pub struct NewBroadcast {
    pub frame: u32,
    pub waiter: u32,
    pub priority: Priority,
    pub schedule: Schedule,
}

// What a route found for one send: its next hop and the address its device polls under, or the caller's code.
pub type Resolved = Result<(u16, Address), u16>;

// The two tables that lend to the radio, as a report names them.
#[derive(Clone, Copy)]
pub enum Lender {
    FromUnicasts,
    FromBroadcasts,
}

// How a frame goes out: to a next hop, and whether another frame is pending for the device; or to all. (As in the Rust; an Option
// would leave the second way without a name.)
#[derive(Clone, Copy)]
pub enum Transmit {
    Unicasting(u16, bool),
    Broadcasting,
}

// What a call answers: why it is denied; that it is done; the id of the new send; yes or no; that nothing is queued; or the
// send that goes to the radio, with its frame. (No Result: a denial is one of the answers, and theorems as denied-exactly speak of
// it among them.)
#[derive(Clone, Copy)]
pub enum Answer {
    Denied(Refusal),
    Accepted,
    Issued(u32),
    Replied(bool),
    NothingQueued,
    InFlight(u32, u32, Transmit),
}

// The next id, and how many records each table holds.
#[derive(Clone, Copy)]
pub struct Counts {
    pub next_id: u32,
    pub unicasts: usize,
    pub unrouted: usize,
    pub held: usize,
    pub broadcasts: usize,
}

// What a call on lent tables gives back: the counts after it, its answer, and how many actions it told.
#[derive(Clone, Copy)]
pub struct Did {
    pub counts: Counts,
    pub answer: Answer,
    pub told: usize,
}

// The three tables of sends behind one id space, and the destinations held for discovery, by value.
#[derive(Clone, Copy)]
pub struct Sends {
    pub counts: Counts,
    pub unicasts: [u64; 320],
    pub unrouted: [u64; 112],
    pub held: [u64; 32],
    pub broadcasts: [u64; 112],
}

// What a call on tables by value gives back.
#[derive(Clone, Copy)]
pub struct Answered {
    pub sends: Sends,
    pub answer: Answer,
    pub told: usize,
}

// What an abandon of lent tables gives back: the counts after it, and how many sends it listed.
#[derive(Clone, Copy)]
pub struct Abandoned {
    pub counts: Counts,
    pub listed: usize,
}

// What an abandon of tables by value gives back.
#[derive(Clone, Copy)]
pub struct Emptied {
    pub sends: Sends,
    pub listed: usize,
}
