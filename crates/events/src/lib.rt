// The events of a trace: an event out of a record's body.
#![tactic(auto)]

use model::{Lender, NewBroadcast, NewUnicast, NewUnrouted};
use records::{AckKey, Address, QuorumKey, Settings, TxResult};

pub mod arrivals;
pub mod decode;
pub mod routes;
pub mod signals;

// An event by its kind, 1 to 22, with what its call takes; or that its record is outside its form, which is refusal 14. The
// sixteen results of a route stand beside it (routes::route_results).
#[derive(Clone, Copy)]
pub enum Event {
    OnSettings(Settings),
    OnUnicast(u64, NewUnicast),
    OnCopy(u32, u64, NewUnicast),
    OnUnrouted(u64, NewUnrouted),
    OnBroadcast(u64, NewBroadcast),
    OnDequeue(u64),
    OnReport {
        from: Lender,
        id: u32,
        frame: u32,
        result: TxResult,
        clock: u64,
        delay: u32,
    },
    OnPoll(u64, Option<u64>, Option<u16>),
    OnAck(AckKey),
    OnRetry(u16),
    OnFail(u16),
    OnRoute(u64, u16, usize),
    OnDelivered(QuorumKey),
    OnDrop(Option<u64>, u16),
    OnCancel(u32),
    OnTick(u64),
    OnAbandon,
    OnNextWake,
    OnPair(u64, u16),
    OnLists,
    OnHasUnrouted(u16),
    OnHasAwaiting(Address),
    Malformed,
}
