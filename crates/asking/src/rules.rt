// The rules on one send: what a scan, a sweep or a fold asks of its head.
ghost use Rattle.std.specs.Prelude.{◌≡◌, true, false};
ghost use Rattle.records.specs.declared.SendFailure.TheVariants.{ApsAckTimeout};
ghost use Rattle.sending.specs.declared.Due.TheVariants.{Leave};
ghost use Rattle.sending.specs.Rules.{unsent, under, copies_by, pending_head, pends_head, beside_head, sent_copy_head, sought_head, lapse_due, retry_due, tick_due, drop_due, copy_due, due_head, better_of, wake_head};

use records::{Address, Priority, SendFailure, Stage, times};
use sending::{Due, Sought, Which};
use tables::unicast_rows::UnicastHead;

// ---- what a scan asks

pub fn is_under(a: Address, eui: Option<u64>, nwk: Option<u16>) -> bool
    ensures { result ≡ under eui nwk a }
{
    match (a, eui, nwk) {
        (Address::Short(n), _, Some(m)) => n == m,
        (Address::Extended(n), Some(m), _) => n == m,
        _ => false,
    }
}

fn is_copy(o: Option<u32>, id: u32) -> bool
    ensures { result ≡ copies_by id o }
{
    matches!(o, Some(j) if j == id)
}

// The address that the send keeps a frame pending for.
pub fn pending_for(h: UnicastHead) -> Address
    ensures { result ≡ pending_head h }
{
    match h.stage {
        Stage::Queued | Stage::Transmitting(_) | Stage::AwaitingPoll => h.poll_address,
        Stage::Retrying(_) | Stage::AwaitingApsAck => Address::Absent,
    }
}

// A match, and no `==`: with that a scan for an address takes up to 1.7 times as long (docs/DESIGN-PASS.md).
fn is_pending(h: UnicastHead, a: Address) -> bool
    ensures { result ≡ pends_head a h }
{
    match (pending_for(h), a) {
        (Address::Short(m), Address::Short(n)) => m == n,
        (Address::Extended(x), Address::Extended(y)) => x == y,
        _ => false,
    }
}

fn is_beside(h: UnicastHead, id: u32, a: Address) -> bool
    ensures { result ≡ beside_head id a h }
{
    h.id != id && is_pending(h, a)
}

fn is_sent_copy(h: UnicastHead, id: u32) -> bool
    ensures { result ≡ sent_copy_head id h }
{
    is_copy(h.copy_of, id) && turning::rules::is_sending(h.stage)
}

pub fn is_sought(h: UnicastHead, what: Sought) -> bool
    ensures { result ≡ sought_head what h }
{
    match what {
        Sought::Pending(a) => is_pending(h, a),
        Sought::Beside(id, a) => is_beside(h, id, a),
        Sought::SentCopy(id) => is_sent_copy(h, id),
    }
}

// ---- what a sweep makes of a send

// The failure of a send that was never handed off.
fn unsent_failure(a: Address) -> SendFailure
    ensures { result ≡ unsent a }
{
    match a {
        Address::Absent => SendFailure::HandoffTimeout,
        held @ (Address::Short(_) | Address::Extended(_)) => SendFailure::IndirectExpired(held),
    }
}

// A deadline that has come fails a send that was never handed off; otherwise d. The failure, which has the address in it, is made only then.
fn lapse_unsent(h: UnicastHead, clock: u64, d: Due) -> Due
    ensures { result ≡ lapse_due clock h (unsent h.poll_address) false d }
{
    if h.deadline <= clock {
        Due::Finish(false, unsent_failure(h.poll_address))
    } else {
        d
    }
}

// A deadline that has come fails a send that awaits its ack.
fn lapse_acking(h: UnicastHead, clock: u64) -> Due
    ensures { result ≡ lapse_due clock h ApsAckTimeout true Leave }
{
    if h.deadline <= clock {
        Due::Finish(true, SendFailure::ApsAckTimeout)
    } else {
        Due::Leave
    }
}

fn retry_due(at: u64, clock: u64) -> Due
    ensures { result ≡ retry_due at clock }
{
    if at <= clock {
        Due::Requeue
    } else {
        Due::Leave
    }
}

fn tick_due(h: UnicastHead, clock: u64) -> Due
    ensures { result ≡ tick_due clock h h.stage }
{
    match h.stage {
        Stage::Queued | Stage::AwaitingPoll => lapse_unsent(h, clock, Due::Leave),
        Stage::Transmitting(_) => Due::Leave,
        Stage::Retrying(at) => lapse_unsent(h, clock, retry_due(at, clock)),
        Stage::AwaitingApsAck => lapse_acking(h, clock),
    }
}

fn drop_due(h: UnicastHead, eui: Option<u64>, nwk: u16) -> Due
    ensures { result ≡ drop_due eui nwk h }
{
    if turning::rules::is_awaiting(h.stage) && is_under(h.poll_address, eui, Some(nwk)) {
        Due::Finish(false, unsent_failure(h.poll_address))
    } else {
        Due::Leave
    }
}

fn copy_due(h: UnicastHead, id: u32) -> Due
    ensures { result ≡ copy_due id h }
{
    if is_copy(h.copy_of, id) {
        Due::Finish(turning::rules::is_acking(h.stage), SendFailure::Cancelled)
    } else {
        Due::Leave
    }
}

pub fn due_of(h: UnicastHead, which: Which) -> Due
    ensures { result ≡ due_head which h }
{
    match which {
        Which::Lapsed(clock) => tick_due(h, clock),
        Which::Dropped(eui, nwk) => drop_due(h, eui, nwk),
        Which::CopyOf(id) => copy_due(h, id),
    }
}

// ---- the turns of a fold

// The better of a send and the best of those with a higher id.
pub fn better_of(h: UnicastHead, b: Option<(u32, Priority)>) -> Option<(u32, Priority)>
    ensures { result ≡ better_of h b }
{
    match b {
        Some((_, q)) if h.priority < q => b,
        None | Some((..)) => Some((h.id, h.priority)),
    }
}

pub fn wake_with(h: UnicastHead, o: Option<u64>) -> Option<u64>
    ensures { result ≡ wake_head h o }
{
    match h.stage {
        Stage::Queued | Stage::AwaitingPoll | Stage::AwaitingApsAck => {
            times::sooner_of(h.deadline, o)
        }
        Stage::Transmitting(_) => o,
        Stage::Retrying(at) => times::sooner_of(at.min(h.deadline), o),
    }
}
