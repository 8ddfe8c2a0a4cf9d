// The parts of a record as numbers, and back: optional numbers, levels, addresses, stages, schedules and what confirms a send. For
// the layouts of records and actions in words alone: a tag is a digit of a word in fixed memory, and becomes an enum here.
#![tactic(auto)]

ghost use Rattle.std.specs.Prelude.{◌≡◌, ℕ, ◌<◌, ◌≤◌, ◌*◌, ◌%◌};
ghost use Rattle.codes.specs.Codes.{opt_word, opt_from, priority_from, address_tag, address_from, stage_tag, stage_time, stage_from, copy_tag, copy_from, schedule_tag, schedule_next, schedule_from, quorum_word, quorum_from, ack_key_from, confirm_from, Coded, CodedAddress, CodedCopies, CodedSchedule, CodedConfirm};
ghost use Rattle.codes.specs.Types.{ApsAck};
ghost use Rattle.std.proofs.Common.{rules, mod-eq_of_lt};

use records::{AckKey, Address, Confirm, CopyState, Priority, QuorumKey, Schedule, Stage};

// ---- optional numbers: 0 where absent, else one more

// A number of which one more still fits a word. `number` is what it is, and `value` the one that a word says.
pub trait Narrow: Copy {
    ghost size: { ℕ };

    ghost number: { Self → ℕ };

    ghost value: { ℕ → Self };

    fn widen(self) -> u64
        ensures is { result ≡ number self }
        ensures low { result < size };

    fn narrow(x: u64) -> Self
        ensures { result ≡ value x };

    ghost some: { 0 < size };

    ghost fits: { size ≤ 4294967296 };

    ghost back: { (x : Self) → number x < size → value (number x) ≡ x };
}

impl Narrow for u8 {
    ghost size = { 256 };

    ghost number = { λ x. x };

    ghost value = { λ x. x % 256 };

    fn widen(self) -> u64 {
        self as u64
    }

    fn narrow(x: u64) -> u8 {
        (x % 256) as u8
    }

    ghost some = { Prim.search rules };

    ghost fits = { Prim.search rules };

    ghost back = { λ x h. mod-eq_of_lt h };
}

impl Narrow for u16 {
    ghost size = { 65536 };

    ghost number = { λ x. x };

    ghost value = { λ x. x % 65536 };

    fn widen(self) -> u64 {
        self as u64
    }

    fn narrow(x: u64) -> u16 {
        (x % 65536) as u16
    }

    ghost some = { Prim.search rules };

    ghost fits = { Prim.search rules };

    ghost back = { λ x h. mod-eq_of_lt h };
}

impl Narrow for u32 {
    ghost size = { 4294967296 };

    ghost number = { λ x. x };

    ghost value = { λ x. x % 4294967296 };

    fn widen(self) -> u64 {
        self as u64
    }

    fn narrow(x: u64) -> u32 {
        (x % 4294967296) as u32
    }

    ghost some = { Prim.search rules };

    ghost fits = { Prim.search rules };

    ghost back = { λ x h. mod-eq_of_lt h };
}

pub fn opt_word<T: Narrow>(o: Option<T>) -> u64
    ensures { Coded (opt_word T.number) (opt_from T.value) (2 * T.size) o result }
{
    match o {
        None => 0,
        Some(x) => x.widen() + 1,
    }
}

pub fn opt_of<T: Narrow>(x: u64) -> Option<T>
    ensures { result ≡ opt_from T.value x }
{
    if x == 0 { None } else { Some(T::narrow(x - 1)) }
}

// ---- levels

pub fn priority_of(rank: u64) -> Priority
    ensures { result ≡ priority_from rank }
{
    match rank {
        0 => Priority::Background,
        1 => Priority::UserLow,
        2 => Priority::UserNormal,
        3 => Priority::UserHigh,
        4 => Priority::UserCritical,
        _ => Priority::StackCritical,
    }
}

// ---- addresses: a tag and a word

pub fn address_tag(a: Address) -> u64
    ensures { result ≡ address_tag a }
{
    match a {
        Address::Absent => 0,
        Address::Short(_) => 1,
        Address::Extended(_) => 2,
    }
}

pub fn address_word(a: Address) -> u64
    ensures { CodedAddress a result }
{
    match a {
        Address::Absent => 0,
        Address::Short(x) => x as u64,
        Address::Extended(x) => x,
    }
}

pub fn address_of(tag: u64, x: u64) -> Address
    ensures { result ≡ address_from tag x }
{
    match tag {
        0 => Address::Absent,
        1 => Address::Short((x % 65536) as u16),
        _ => Address::Extended(x),
    }
}

// ---- stages: a tag and a time

pub fn stage_tag(s: Stage) -> u64
    ensures { result ≡ stage_tag s }
{
    match s {
        Stage::Queued => 0,
        Stage::Transmitting(acked) => if acked { 2 } else { 1 },
        Stage::Retrying(_) => 3,
        Stage::AwaitingPoll => 4,
        Stage::AwaitingApsAck => 5,
    }
}

pub fn stage_time(s: Stage) -> u64
    ensures { result ≡ stage_time s }
{
    match s {
        Stage::Retrying(at) => at,
        _ => 0,
    }
}

pub fn stage_of(tag: u64, at: u64) -> Stage
    ensures { result ≡ stage_from tag at }
{
    match tag {
        0 => Stage::Queued,
        1 => Stage::Transmitting(false),
        2 => Stage::Transmitting(true),
        3 => Stage::Retrying(at),
        4 => Stage::AwaitingPoll,
        _ => Stage::AwaitingApsAck,
    }
}

// ---- copies and schedules

pub fn copy_tag(c: CopyState) -> u64
    ensures { result ≡ copy_tag c }
{
    match c {
        CopyState::Idle => 0,
        CopyState::CopyQueued => 1,
        CopyState::CopyTransmitting => 2,
    }
}

pub fn copy_of(tag: u64) -> CopyState
    ensures { result ≡ copy_from tag }
{
    match tag {
        0 => CopyState::Idle,
        1 => CopyState::CopyQueued,
        _ => CopyState::CopyTransmitting,
    }
}

pub fn schedule_tag(s: Schedule) -> u64
    ensures { result ≡ schedule_tag s }
{
    match s {
        Schedule::Once => 0,
        Schedule::PassiveAck { .. } => 1,
        Schedule::FixedInterval { .. } => 2,
    }
}

pub fn schedule_copies(s: Schedule) -> u64
    ensures { CodedCopies s result }
{
    match s {
        Schedule::Once => 0,
        Schedule::PassiveAck {
            copies_remaining,
            ..
        }
        | Schedule::FixedInterval {
            copies_remaining,
            ..
        } => copies_remaining as u64,
    }
}

pub fn schedule_next(s: Schedule) -> u64
    ensures { result ≡ schedule_next s }
{
    match s {
        Schedule::Once => 0,
        Schedule::PassiveAck { next_attempt, .. } | Schedule::FixedInterval { next_attempt, .. } =>
            next_attempt,
    }
}

pub fn quorum_word(k: QuorumKey) -> u64
    ensures { Coded quorum_word quorum_from 16777216 k result }
{
    k.src as u64 + 65536 * (k.sequence as u64)
}

// The key, or the interval.
pub fn schedule_what(s: Schedule) -> u64
    ensures { CodedSchedule s result }
{
    match s {
        Schedule::Once => 0,
        Schedule::PassiveAck { key, .. } => quorum_word(key),
        Schedule::FixedInterval { interval, .. } => interval as u64,
    }
}

pub fn quorum_of(what: u64) -> QuorumKey
    ensures { result ≡ quorum_from what }
{
    QuorumKey {
        src: (what % 65536) as u16,
        sequence: (what / 65536 % 256) as u8,
    }
}

pub fn schedule_of(tag: u64, copies: u64, what: u64, next: u64) -> Schedule
    ensures { result ≡ schedule_from tag copies what next }
{
    match tag {
        0 => Schedule::Once,
        1 => Schedule::PassiveAck {
            key: quorum_of(what),
            copies_remaining: (copies % 256) as u8,
            next_attempt: next,
        },
        _ => Schedule::FixedInterval {
            interval: (what % 4294967296) as u32,
            copies_remaining: (copies % 256) as u8,
            next_attempt: next,
        },
    }
}

// ---- what confirms a send: two words

#[derive(Clone, Copy)]
pub struct Two {
    pub first: u64,
    pub second: u64,
}

pub fn ack_words(k: AckKey, wait: u32) -> Two
    ensures { CodedConfirm (ApsAck k wait) result }
{
    Two {
        first: k.src as u64
            + 65536
                * (opt_word(k.destination_endpoint)
                    + 512 * (opt_word(k.cluster_id) + 131072 * opt_word(k.profile_id))),
        second: 1
            + 2 * (opt_word(k.source_endpoint) + 512 * (k.counter as u64 + 256 * (wait as u64))),
    }
}

pub fn confirm_words(c: Confirm) -> Two
    ensures { CodedConfirm c result }
{
    match c {
        Confirm::OnHandoff => Two {
            first: 0,
            second: 0,
        },
        Confirm::ApsAck(k, wait) => ack_words(k, wait),
    }
}

pub fn ack_key_of(first: u64, second: u64) -> AckKey
    ensures { result ≡ ack_key_from first second }
{
    AckKey {
        src: (first % 65536) as u16,
        destination_endpoint: opt_of(first / 65536 % 512),
        cluster_id: opt_of(first / 33554432 % 131072),
        profile_id: opt_of(first / 4398046511104 % 131072),
        source_endpoint: opt_of(second / 2 % 512),
        counter: (second / 1024 % 256) as u8,
    }
}

pub fn confirm_of(first: u64, second: u64) -> Confirm
    ensures { result ≡ confirm_from first second }
{
    if second % 2 == 0 {
        return Confirm::OnHandoff;
    }
    Confirm::ApsAck(
        ack_key_of(first, second),
        (second / 262144 % 4294967296) as u32,
    )
}
