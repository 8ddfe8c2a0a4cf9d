// The plain data of the send tables, by value: what a send, its record and its verdict are made of, with the names of the Rust.
#![tactic(auto)]

pub mod blanks;
pub mod numbers;
pub mod priorities;
pub mod times;

// The address that a device polls under.
#[derive(Clone, Copy, PartialEq, Eq)]
pub enum Address {
    Absent,
    Short(u16),
    Extended(u64),
}

// Transmit priority, lowest first.
#[derive(Clone, Copy, PartialEq, Eq, PartialOrd, Ord)]
pub enum Priority {
    Background,
    UserLow,
    UserNormal,
    UserHigh,
    UserCritical,
    StackCritical,
}

// What an end-to-end ack is matched on.
#[derive(Clone, Copy, PartialEq, Eq)]
pub struct AckKey {
    pub src: u16,
    pub destination_endpoint: Option<u8>,
    pub cluster_id: Option<u16>,
    pub profile_id: Option<u16>,
    pub source_endpoint: Option<u8>,
    pub counter: u8,
}

// What settles a unicast: its handoff, or an ack with that key, waited for that long after the handoff. (As in the Rust; an Option
// would leave the first without a name.)
#[derive(Clone, Copy, PartialEq, Eq)]
pub enum Confirm {
    OnHandoff,
    ApsAck(AckKey, u32),
}

// Where a unicast stands. In the radio it keeps whether its ack has come; a retry keeps the time at which it is due.
#[derive(Clone, Copy, PartialEq, Eq)]
pub enum Stage {
    Queued,
    Transmitting(bool),
    Retrying(u64),
    AwaitingPoll,
    AwaitingApsAck,
}

// A unicast with a known next hop. The handle of its frame stays here while the frame is in the radio.
#[derive(Clone, Copy, PartialEq, Eq)]
pub struct Unicast {
    pub id: u32,
    pub frame: u32,
    pub waiter: u32,
    pub priority: Priority,
    pub confirm: Confirm,
    pub next_hop: u16,
    pub poll_address: Address,
    pub attempts_remaining: u8,
    pub stage: Stage,
    pub deadline: u64,
    pub copy_of: Option<u32>,
}

// A unicast that waits for a route to its destination.
#[derive(Clone, Copy, PartialEq, Eq)]
pub struct Unrouted {
    pub id: u32,
    pub frame: u32,
    pub waiter: u32,
    pub priority: Priority,
    pub confirm: Confirm,
    pub destination: u16,
    pub deadline: u64,
}

// A destination whose route is being discovered, and how often that may be started again.
#[derive(Clone, Copy, PartialEq, Eq)]
pub struct Destination {
    pub address: u16,
    pub retries: u8,
}

// What a quorum is reported for.
#[derive(Clone, Copy, PartialEq, Eq)]
pub struct QuorumKey {
    pub src: u16,
    pub sequence: u8,
}

// How a broadcast is repeated: copies left, and when the next is due.
#[derive(Clone, Copy, PartialEq, Eq)]
pub enum Schedule {
    Once,
    PassiveAck {
        key: QuorumKey,
        copies_remaining: u8,
        next_attempt: u64,
    },
    FixedInterval {
        interval: u32,
        copies_remaining: u8,
        next_attempt: u64,
    },
}

// Where a broadcast's copy stands.
#[derive(Clone, Copy, PartialEq, Eq)]
pub enum CopyState {
    Idle,
    CopyQueued,
    CopyTransmitting,
}

#[derive(Clone, Copy, PartialEq, Eq)]
pub struct Broadcast {
    pub id: u32,
    pub frame: u32,
    pub waiter: u32,
    pub priority: Priority,
    pub schedule: Schedule,
    pub copy: CopyState,
    pub handed_off: bool,
    pub quorum_heard: bool,
    pub last_error: Option<u16>,
    pub deadline: u64,
}

// The settings that a call reads: two times in milliseconds, a unicast's retries, and a destination's discoveries.
#[derive(Clone, Copy, PartialEq, Eq)]
pub struct Settings {
    pub handoff_timeout: u32,
    pub persistence_time: u32,
    pub unicast_retries: u8,
    pub discovery_attempts: u8,
}

// What the radio reports of a transmit: it went out, or the radio's code.
pub type TxResult = Result<(), u16>;

// A failure that a table decides on.
#[derive(Clone, Copy, PartialEq, Eq)]
pub enum SendFailure {
    HandoffTimeout,
    ApsAckTimeout,
    IndirectExpired(Address),
    RouteDiscoveryTimeout,
    BroadcastQuorumNotReached,
    Cancelled,
}

// How a send ended: well, by a failure of the tables, or with the radio's or the resolver's code.
#[derive(Clone, Copy, PartialEq, Eq)]
pub enum Verdict {
    Success,
    Failure(SendFailure),
    Code(u16),
}

// What a send is known by for its whole life: its id and the two handles that it came with.
#[derive(Clone, Copy, PartialEq, Eq)]
pub struct Entry {
    pub id: u32,
    pub waiter: u32,
    pub frame: u32,
}

// What the driver must do after a call: tell the waiter of a send, by id, that the mesh took it; or that it is over, and at
// which next hop its attempts ran out.
#[derive(Clone, Copy, PartialEq, Eq)]
pub enum Action {
    HandedOff(u32, u32),
    Settled(Entry, Verdict, Option<u16>),
}

// Why a call or a trace is refused, in the order of the numbers 1 to 16.
#[derive(Clone, Copy, PartialEq, Eq)]
pub enum Refusal {
    TimeTooLate,
    IdsExhausted,
    NoCopies,
    NoPlace,
    NoSuchSend,
    InTheRadio,
    NotInTheRadio,
    OtherFrame,
    DestinationNotHeld,
    ResultsMismatch,
    MapMalformed,
    UnknownKind,
    RecordCut,
    FieldMalformed,
    AnswersDoNotFit,
    TraceTooLong,
}
