// The rules on one broadcast.
ghost use Rattle.std.specs.Prelude.{◌≡◌, ◌≤◌, Ok, Err};
ghost use Rattle.records.specs.Limits.{last_time};
ghost use Rattle.casting.specs.Rules.{first_copy, admitted_of, no_copies, in_radio, lent, cancel_turn, result_verdict, repeat_turn, report_turn, delivered_turn, over_verdict, last_verdict, over_turn, lapse_turn, due_turn, idle_turn, tick_turn};

use records::{Broadcast, CopyState, Priority, Schedule, SendFailure, TxResult, Verdict};
use rows::Turn;

fn first_copy(s: Schedule) -> CopyState
    ensures { result ≡ first_copy s }
{
    match s {
        Schedule::Once => CopyState::CopyQueued,
        Schedule::PassiveAck { .. } | Schedule::FixedInterval { .. } => CopyState::Idle,
    }
}

// A broadcast as it is admitted.
pub fn admitted(
    id: u32,
    frame: u32,
    waiter: u32,
    priority: Priority,
    schedule: Schedule,
    clock: u64,
    handoff: u32,
) -> Broadcast
    requires { clock ≤ last_time }
    ensures { result ≡ admitted_of id frame waiter priority schedule clock handoff }
{
    Broadcast {
        id,
        frame,
        waiter,
        priority,
        schedule,
        copy: first_copy(schedule),
        handed_off: false,
        quorum_heard: false,
        last_error: None,
        deadline: clock + u64::from(handoff),
    }
}

// Refusal 3: a repeating broadcast must have a copy to send.
pub fn no_copies(s: Schedule) -> bool
    ensures { result ≡ no_copies s }
{
    match s {
        Schedule::Once => false,
        Schedule::PassiveAck {
            copies_remaining,
            ..
        }
        | Schedule::FixedInterval {
            copies_remaining,
            ..
        } => copies_remaining == 0,
    }
}

pub fn in_radio(c: CopyState) -> bool
    ensures { result ≡ in_radio c }
{
    matches!(c, CopyState::CopyTransmitting)
}

// A queued copy goes to the radio.
pub fn dequeued(b: Broadcast) -> Broadcast
    ensures { result ≡ lent b }
{
    Broadcast {
        copy: CopyState::CopyTransmitting,
        ..b
    }
}

pub fn cancel(b: Broadcast) -> Turn<Broadcast>
    ensures { result ≡ cancel_turn b }
{
    Turn::Settles(b.handed_off, Verdict::Failure(SendFailure::Cancelled), None)
}

fn result_verdict(x: TxResult) -> Verdict
    ensures { result ≡ result_verdict x }
{
    match x {
        Ok(()) => Verdict::Success,
        Err(code) => Verdict::Code(code),
    }
}

// A copy is on the air: the first one is the handoff, unless quorum was heard already, which ends it.
fn repeat_sent(b: Broadcast, schedule: Schedule) -> Turn<Broadcast>
    ensures { result ≡ repeat_turn b schedule (Ok tt) }
{
    if b.quorum_heard {
        return Turn::Settles(true, Verdict::Success, None);
    }
    let next = Broadcast {
        schedule,
        copy: CopyState::Idle,
        handed_off: true,
        ..b
    };
    if b.handed_off {
        Turn::Keeps(next)
    } else {
        Turn::HandsOff(next)
    }
}

// A lost copy ends nothing: its error is kept for the case that none is handed off.
fn repeat_failed(b: Broadcast, schedule: Schedule, code: u16) -> Turn<Broadcast>
    ensures { result ≡ repeat_turn b schedule (Err code) }
{
    if b.quorum_heard && b.handed_off {
        return Turn::Settles(true, Verdict::Success, None);
    }
    Turn::Keeps(Broadcast {
        schedule,
        copy: CopyState::Idle,
        last_error: Some(code),
        ..b
    })
}

fn repeat(b: Broadcast, schedule: Schedule, x: TxResult) -> Turn<Broadcast>
    ensures { result ≡ repeat_turn b schedule x }
{
    match x {
        Ok(()) => repeat_sent(b, schedule),
        Err(code) => repeat_failed(b, schedule, code),
    }
}

// The radio reports on the copy that it had. `delay` spaces the next copy of a passive-ack broadcast from this one.
pub fn report(b: Broadcast, x: TxResult, clock: u64, delay: u32) -> Turn<Broadcast>
    requires { clock ≤ last_time }
    ensures { result ≡ report_turn x clock delay b }
{
    match b.schedule {
        Schedule::Once => Turn::Settles(b.handed_off, result_verdict(x), None),
        Schedule::PassiveAck {
            key,
            copies_remaining,
            ..
        } => {
            let next = Schedule::PassiveAck {
                key,
                copies_remaining,
                next_attempt: clock + u64::from(delay),
            };
            repeat(b, next, x)
        }
        Schedule::FixedInterval {
            interval,
            copies_remaining,
            ..
        } => {
            let next = Schedule::FixedInterval {
                interval,
                copies_remaining,
                next_attempt: clock + u64::from(interval),
            };
            repeat(b, next, x)
        }
    }
}

// The quorum for its key was heard. A broadcast is never delivered before a copy of it was on the air.
pub fn delivered(b: Broadcast) -> Turn<Broadcast>
    ensures { result ≡ delivered_turn b }
{
    if in_radio(b.copy) || !b.handed_off {
        return Turn::Keeps(Broadcast {
            quorum_heard: true,
            ..b
        });
    }
    Turn::Settles(true, Verdict::Success, None)
}

// Nothing confirms a fixed-interval broadcast: one copy on the air completes it.
fn over_verdict(s: Schedule) -> Verdict
    ensures { result ≡ over_verdict s }
{
    match s {
        Schedule::Once => Verdict::Failure(SendFailure::HandoffTimeout),
        Schedule::PassiveAck { .. } => Verdict::Failure(SendFailure::BroadcastQuorumNotReached),
        Schedule::FixedInterval { .. } => Verdict::Success,
    }
}

fn last_verdict(e: Option<u16>) -> Verdict
    ensures { result ≡ last_verdict e }
{
    Verdict::Code(e.unwrap_or(0))
}

// No copy is left.
fn over(b: Broadcast) -> Turn<Broadcast>
    ensures { result ≡ over_turn b }
{
    if b.handed_off {
        Turn::Settles(true, over_verdict(b.schedule), None)
    } else {
        Turn::Settles(false, last_verdict(b.last_error), None)
    }
}

// It is not over: it fails at its deadline.
fn lapse(b: Broadcast, clock: u64) -> Turn<Broadcast>
    ensures { result ≡ lapse_turn clock b }
{
    if clock < b.deadline {
        return Turn::Keeps(b);
    }
    if b.handed_off {
        Turn::Settles(true, over_verdict(b.schedule), None)
    } else {
        Turn::Settles(false, Verdict::Failure(SendFailure::HandoffTimeout), None)
    }
}

// It is idle, and its next copy comes at `next`: where that is due and one of `copies` is left, the schedule goes on as `left`.
fn tick_repeating(
    b: Broadcast,
    left: Schedule,
    copies: u8,
    next: u64,
    clock: u64,
) -> Turn<Broadcast>
    ensures { result ≡ due_turn clock b left copies next }
{
    if clock < next {
        return lapse(b, clock);
    }
    if copies == 0 {
        return over(b);
    }
    let queued = Broadcast {
        schedule: left,
        copy: CopyState::CopyQueued,
        ..b
    };
    lapse(queued, clock)
}

// It is idle: a copy may be due.
fn tick_idle(b: Broadcast, clock: u64) -> Turn<Broadcast>
    ensures { result ≡ idle_turn clock b b.schedule }
{
    match b.schedule {
        Schedule::Once => lapse(b, clock),
        Schedule::PassiveAck {
            key,
            copies_remaining,
            next_attempt,
        } => {
            let fewer = copies_remaining.saturating_sub(1);
            let left = Schedule::PassiveAck {
                key,
                copies_remaining: fewer,
                next_attempt,
            };
            tick_repeating(b, left, copies_remaining, next_attempt, clock)
        }
        Schedule::FixedInterval {
            interval,
            copies_remaining,
            next_attempt,
        } => {
            let fewer = copies_remaining.saturating_sub(1);
            let left = Schedule::FixedInterval {
                interval,
                copies_remaining: fewer,
                next_attempt,
            };
            tick_repeating(b, left, copies_remaining, next_attempt, clock)
        }
    }
}

// What time does to it.
pub fn tick(b: Broadcast, clock: u64) -> Turn<Broadcast>
    ensures { result ≡ tick_turn clock b }
{
    match b.copy {
        CopyState::Idle => tick_idle(b, clock),
        CopyState::CopyQueued => lapse(b, clock),
        CopyState::CopyTransmitting => Turn::Keeps(b),
    }
}
