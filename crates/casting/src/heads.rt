// What a scan asks of one broadcast, by its head or by a part of it.
ghost use Rattle.std.specs.Prelude.{◌≡◌};
ghost use Rattle.casting.specs.Rules.{attempt_by, wake_head, stirs_head, attempt_due, ready_by, better, keyed_by, awaited_head};

use records::times::sooner_of;
use records::{CopyState, QuorumKey, Schedule};
use tables::broadcast_rows::BroadcastHead;

fn sooner_attempt(deadline: u64, s: Schedule) -> u64
    ensures { result ≡ attempt_by deadline s }
{
    match s {
        Schedule::Once => deadline,
        Schedule::PassiveAck { next_attempt, .. } | Schedule::FixedInterval { next_attempt, .. } =>
            next_attempt.min(deadline),
    }
}

// The sooner of what it wakes for and another time.
pub fn wake(h: BroadcastHead, o: Option<u64>) -> Option<u64>
    ensures { result ≡ wake_head h o }
{
    match h.copy {
        CopyState::Idle => sooner_of(sooner_attempt(h.deadline, h.schedule), o),
        CopyState::CopyQueued => sooner_of(h.deadline, o),
        CopyState::CopyTransmitting => o,
    }
}

// Whether a tick finds something to do.
pub fn stirs(h: BroadcastHead, clock: u64) -> bool
    ensures { result ≡ stirs_head clock h }
{
    match h.copy {
        CopyState::Idle => sooner_attempt(h.deadline, h.schedule) <= clock,
        CopyState::CopyQueued => h.deadline <= clock,
        CopyState::CopyTransmitting => false,
    }
}

// Whether the next attempt has come.
pub fn attempt_due(s: Schedule, clock: u64) -> bool
    ensures { result ≡ attempt_due clock s }
{
    match s {
        Schedule::Once => false,
        Schedule::PassiveAck { next_attempt, .. } | Schedule::FixedInterval { next_attempt, .. } =>
            next_attempt <= clock,
    }
}

// Whether a broadcast in this state is queued, and its deadline has not come.
pub fn is_ready(c: CopyState, deadline: u64, clock: u64) -> bool
    ensures { result ≡ ready_by clock c deadline }
{
    matches!(c, CopyState::CopyQueued) && clock < deadline
}

// The better of one with this id and rank, and the best of those with higher ids.
pub fn better_of(id: u32, rank: u8, o: Option<(u32, u8)>) -> Option<(u32, u8)>
    ensures { result ≡ better id rank o }
{
    match o {
        None => Some((id, rank)),
        Some((_, s)) => if s <= rank { Some((id, rank)) } else { o },
    }
}

// Whether it is repeated until the quorum for that key is heard.
pub fn is_keyed(s: Schedule, k: QuorumKey) -> bool
    ensures { result ≡ keyed_by k s }
{
    matches!(s, Schedule::PassiveAck { key, .. } if key == k)
}

// The key whose quorum it waits for.
pub fn awaited(h: BroadcastHead) -> Option<QuorumKey>
    ensures { result ≡ awaited_head h }
{
    match h.schedule {
        Schedule::PassiveAck { key, .. } if !h.quorum_heard => Some(key),
        _ => None,
    }
}
