// The rules on one send: what a call makes of it.
ghost use Rattle.std.specs.Prelude.{◌≡◌, ◌≤◌};
ghost use Rattle.records.specs.Limits.{last_time};
ghost use Rattle.sending.specs.Rules.{with_stage, stage_for, sent_by, polled_by, deadline_for, admitted_of, is_queued, is_awaiting, is_sending, is_acking, polled_of, keyed_by, ack_turn, hand_off, fail_held, fail_unheld, fail_by, report_sent, report_turn, cancel_turn};

use records::{
    AckKey, Address, Confirm, Priority, SendFailure, Settings, Stage, TxResult, Unicast, Verdict,
};
use rows::Turn;

pub fn staged(u: Unicast, stage: Stage) -> Unicast
    ensures { result ≡ with_stage u stage }
{
    Unicast { stage, ..u }
}

// ---- admission

fn stage_for(a: Address) -> Stage
    ensures { result ≡ stage_for a }
{
    match a {
        Address::Absent => Stage::Queued,
        Address::Short(_) | Address::Extended(_) => Stage::AwaitingPoll,
    }
}

fn sent_by(d: u64, given: Option<u64>) -> u64
    ensures { result ≡ sent_by d given }
{
    given.unwrap_or(d)
}

fn polled_by(d: u64, given: Option<u64>) -> u64
    ensures { result ≡ polled_by d given }
{
    match given {
        None => d,
        Some(t) => t.min(d),
    }
}

fn deadline_for(s: Settings, clock: u64, given: Option<u64>, a: Address) -> u64
    requires { clock ≤ last_time }
    ensures { result ≡ deadline_for s clock given a }
{
    match a {
        Address::Absent => sent_by(clock + u64::from(s.handoff_timeout), given),
        Address::Short(_) | Address::Extended(_) => {
            polled_by(clock + u64::from(s.persistence_time), given)
        }
    }
}

// A send as it is admitted: now, or earlier with the deadline given then.
pub fn admitted(
    id: u32,
    frame: u32,
    waiter: u32,
    priority: Priority,
    confirm: Confirm,
    hop: u16,
    address: Address,
    copy: Option<u32>,
    s: Settings,
    clock: u64,
    given: Option<u64>,
) -> Unicast
    requires { clock ≤ last_time }
    ensures { result ≡ admitted_of id frame waiter priority confirm hop address copy s clock given }
{
    Unicast {
        id,
        frame,
        waiter,
        priority,
        confirm,
        next_hop: hop,
        poll_address: address,
        attempts_remaining: s.unicast_retries,
        stage: stage_for(address),
        deadline: deadline_for(s, clock, given, address),
        copy_of: copy,
    }
}

// ---- stages

pub fn is_queued(s: Stage) -> bool
    ensures { result ≡ is_queued s }
{
    matches!(s, Stage::Queued)
}

pub fn is_awaiting(s: Stage) -> bool
    ensures { result ≡ is_awaiting s }
{
    matches!(s, Stage::AwaitingPoll)
}

pub fn is_sending(s: Stage) -> bool
    ensures { result ≡ is_sending s }
{
    matches!(s, Stage::Transmitting(_))
}

pub fn is_acking(s: Stage) -> bool
    ensures { result ≡ is_acking s }
{
    matches!(s, Stage::AwaitingApsAck)
}

// ---- dequeue, poll, cancel

// A poll is answered ahead of everything else.
pub fn polled(u: Unicast) -> Unicast
    ensures { result ≡ polled_of u }
{
    Unicast {
        priority: Priority::StackCritical,
        stage: Stage::Queued,
        ..u
    }
}

pub fn cancel_turn(u: Unicast) -> Turn<Unicast>
    ensures { result ≡ cancel_turn u }
{
    Turn::Settles(
        is_acking(u.stage),
        Verdict::Failure(SendFailure::Cancelled),
        None,
    )
}

// ---- ack

// Whether an ack with that key confirms the send.
pub fn is_keyed(c: Confirm, key: AckKey) -> bool
    ensures { result ≡ keyed_by key c }
{
    matches!(c, Confirm::ApsAck(k, _) if k == key)
}

// In the radio it is marked, and its report settles it.
pub fn ack_turn(u: Unicast) -> Turn<Unicast>
    ensures { result ≡ ack_turn u }
{
    match u.stage {
        Stage::Queued | Stage::Retrying(_) | Stage::AwaitingPoll => {
            Turn::Settles(false, Verdict::Success, None)
        }
        Stage::Transmitting(_) => Turn::Keeps(staged(u, Stage::Transmitting(true))),
        Stage::AwaitingApsAck => Turn::Settles(true, Verdict::Success, None),
    }
}

// ---- report

fn hand_off(u: Unicast, acked: bool, clock: u64) -> Turn<Unicast>
    requires { clock ≤ last_time }
    ensures { result ≡ hand_off u acked clock }
{
    match u.confirm {
        Confirm::ApsAck(_, wait) if !acked => Turn::HandsOff(Unicast {
            stage: Stage::AwaitingApsAck,
            deadline: clock + u64::from(wait),
            ..u
        }),
        Confirm::OnHandoff | Confirm::ApsAck(..) => Turn::Settles(false, Verdict::Success, None),
    }
}

// 802.15.4, 6.7.3: a frame is extracted once acknowledged, so a failed one awaits the next poll and keeps its deadline.
fn fail_held(u: Unicast, code: u16, clock: u64) -> Turn<Unicast>
    ensures { result ≡ fail_held u code clock }
{
    if clock < u.deadline {
        Turn::Keeps(staged(u, Stage::AwaitingPoll))
    } else {
        Turn::Settles(false, Verdict::Code(code), None)
    }
}

fn fail_unheld(u: Unicast, code: u16, clock: u64, delay: u32) -> Turn<Unicast>
    requires { clock ≤ last_time }
    ensures { result ≡ fail_unheld u code clock delay }
{
    if u.attempts_remaining == 0 {
        return Turn::Settles(false, Verdict::Code(code), Some(u.next_hop));
    }
    Turn::Keeps(Unicast {
        attempts_remaining: u.attempts_remaining - 1,
        stage: Stage::Retrying(clock + u64::from(delay)),
        ..u
    })
}

fn fail_turn(u: Unicast, code: u16, clock: u64, delay: u32) -> Turn<Unicast>
    requires { clock ≤ last_time }
    ensures { result ≡ fail_by u code clock delay u.poll_address }
{
    match u.poll_address {
        Address::Absent => fail_unheld(u, code, clock, delay),
        Address::Short(_) | Address::Extended(_) => fail_held(u, code, clock),
    }
}

fn sent_turn(u: Unicast, acked: bool, res: TxResult, clock: u64, delay: u32) -> Turn<Unicast>
    requires { clock ≤ last_time }
    ensures { result ≡ report_sent u acked res clock delay }
{
    match res {
        Err(code) if !acked => fail_turn(u, code, clock, delay),
        Ok(()) | Err(_) => hand_off(u, acked, clock),
    }
}

// What a report makes of a send in the radio; any other stays.
pub fn report_turn(u: Unicast, res: TxResult, clock: u64, delay: u32) -> Turn<Unicast>
    requires { clock ≤ last_time }
    ensures { result ≡ report_turn res clock delay u }
{
    match u.stage {
        Stage::Transmitting(acked) => sent_turn(u, acked, res, clock, delay),
        Stage::Queued | Stage::Retrying(_) | Stage::AwaitingPoll | Stage::AwaitingApsAck => {
            Turn::Keeps(u)
        }
    }
}
