// The calls over the send tables by value: each takes the tables and gives them back with its answer, its actions told into a lent
// buffer. No logic: each lends its tables to the call of `lent` with its name. They look alike since only the call and its contract differ,
// which is what callers rely on by name.
#![tactic(auto)]

ghost use Rattle.std.specs.Prelude.{◌≡◌};
ghost use Rattle.model.specs.Model.{model_of, answered_of};
ghost use Rattle.model.specs.Calls.{enqueue_unicast_of, enqueue_copy_of, enqueue_unrouted_of, enqueue_broadcast_of, dequeue_of, transmitted_of, poll_of, ack_of, retry_of, fail_of, route_of, delivered_of, drop_of, cancel_of, tick_of};
ghost use Rattle.model.specs.Sound.{Sound, Leaving};
ghost use Rattle.sends.specs.Lists.{answered_by};

use admitting::{enqueues, routes};
use lending::radio;
use lent::{devices, ends};
use model::{Answered, Did, Lender, NewBroadcast, NewUnicast, NewUnrouted, Resolved, Sends};
use records::{AckKey, QuorumKey, Settings, TxResult};

pub mod asks;
pub mod lists;

// What a call on lent tables gave back, with the tables.
// The calls take the state apart by a pattern: a table lent as a part of the state has the whole copied once more (docs/DESIGN-PASS.md).
fn answered(
    x: Did,
    unicasts: [u64; 320],
    unrouted: [u64; 112],
    held: [u64; 32],
    broadcasts: [u64; 112],
) -> Answered
    ensures { result ≡ answered_by x unicasts unrouted held broadcasts }
{
    Answered {
        sends: Sends {
            counts: x.counts,
            unicasts,
            unrouted,
            held,
            broadcasts,
        },
        answer: x.answer,
        told: x.told,
    }
}

// A unicast with a known next hop: refused with 1, 2 or 4, or its id is issued.
pub fn enqueue_unicast(
    s: Sends,
    told: &mut [u64; 560],
    settings: Settings,
    u: NewUnicast,
    clock: u64,
) -> Answered
    requires { Sound s }
    ensures value { result ≡ answered_of (enqueue_unicast_of (model_of s) settings u clock) }
    ensures leaving { Leaving (enqueue_unicast_of (model_of s) settings u clock) told.old told.new result }
{
    let Sends {
        counts,
        mut unicasts,
        mut unrouted,
        mut held,
        mut broadcasts,
    } = s;
    let x = enqueues::enqueue_unicast(
        counts,
        &mut unicasts,
        &mut unrouted,
        &mut held,
        &mut broadcasts,
        told,
        settings,
        u,
        clock,
    );
    answered(x, unicasts, unrouted, held, broadcasts)
}

// A broadcast's copy for one sleepy child; it may name any id.
pub fn enqueue_broadcast_copy(
    s: Sends,
    told: &mut [u64; 560],
    settings: Settings,
    broadcast: u32,
    u: NewUnicast,
    clock: u64,
) -> Answered
    requires { Sound s }
    ensures value { result ≡ answered_of (enqueue_copy_of (model_of s) settings broadcast u clock) }
    ensures leaving { Leaving (enqueue_copy_of (model_of s) settings broadcast u clock) told.old told.new result }
{
    let Sends {
        counts,
        mut unicasts,
        mut unrouted,
        mut held,
        mut broadcasts,
    } = s;
    let x = enqueues::enqueue_broadcast_copy(
        counts,
        &mut unicasts,
        &mut unrouted,
        &mut held,
        &mut broadcasts,
        told,
        settings,
        broadcast,
        u,
        clock,
    );
    answered(x, unicasts, unrouted, held, broadcasts)
}

// A unicast with no route yet, held until its destination's discovery ends. The caller starts that discovery if the destination
// was not held.
pub fn enqueue_unrouted_unicast(
    s: Sends,
    told: &mut [u64; 560],
    settings: Settings,
    u: NewUnrouted,
    clock: u64,
) -> Answered
    requires { Sound s }
    ensures value { result ≡ answered_of (enqueue_unrouted_of (model_of s) settings u clock) }
    ensures leaving { Leaving (enqueue_unrouted_of (model_of s) settings u clock) told.old told.new result }
{
    let Sends {
        counts,
        mut unicasts,
        mut unrouted,
        mut held,
        mut broadcasts,
    } = s;
    let x = enqueues::enqueue_unrouted_unicast(
        counts,
        &mut unicasts,
        &mut unrouted,
        &mut held,
        &mut broadcasts,
        told,
        settings,
        u,
        clock,
    );
    answered(x, unicasts, unrouted, held, broadcasts)
}

// A broadcast, sent once or repeated on its schedule: refused with 1, 3, 2 or 4, or its id is issued.
pub fn enqueue_broadcast(
    s: Sends,
    told: &mut [u64; 560],
    settings: Settings,
    u: NewBroadcast,
    clock: u64,
) -> Answered
    requires { Sound s }
    ensures value { result ≡ answered_of (enqueue_broadcast_of (model_of s) settings u clock) }
    ensures leaving { Leaving (enqueue_broadcast_of (model_of s) settings u clock) told.old told.new result }
{
    let Sends {
        counts,
        mut unicasts,
        mut unrouted,
        mut held,
        mut broadcasts,
    } = s;
    let x = enqueues::enqueue_broadcast(
        counts,
        &mut unicasts,
        &mut unrouted,
        &mut held,
        &mut broadcasts,
        told,
        settings,
        u,
        clock,
    );
    answered(x, unicasts, unrouted, held, broadcasts)
}

// Lends the unexpired queued send of highest priority, and of these the oldest, to the radio; `transmitted` must report on it.
pub fn dequeue(s: Sends, told: &mut [u64; 560], clock: u64) -> Answered
    requires { Sound s }
    ensures value { result ≡ answered_of (dequeue_of (model_of s) clock) }
    ensures leaving { Leaving (dequeue_of (model_of s) clock) told.old told.new result }
{
    let Sends {
        counts,
        mut unicasts,
        mut unrouted,
        mut held,
        mut broadcasts,
    } = s;
    let x = radio::dequeue(
        counts,
        &mut unicasts,
        &mut unrouted,
        &mut held,
        &mut broadcasts,
        told,
        clock,
    );
    answered(x, unicasts, unrouted, held, broadcasts)
}

// The radio's report on a lent send: refused with 1, 5, 7 or 8. `from` names the table that lent it; `delay` is how long a failed
// unicast waits for its next attempt, and a passive-ack broadcast for its next copy.
pub fn transmitted(
    s: Sends,
    told: &mut [u64; 560],
    from: Lender,
    id: u32,
    frame: u32,
    x: TxResult,
    clock: u64,
    delay: u32,
) -> Answered
    requires { Sound s }
    ensures value { result ≡ answered_of (transmitted_of (model_of s) from id frame x clock delay) }
    ensures leaving { Leaving (transmitted_of (model_of s) from id frame x clock delay) told.old told.new result }
{
    let Sends {
        counts,
        mut unicasts,
        mut unrouted,
        mut held,
        mut broadcasts,
    } = s;
    let x = radio::transmitted(
        counts,
        &mut unicasts,
        &mut unrouted,
        &mut held,
        &mut broadcasts,
        told,
        from,
        id,
        frame,
        x,
        clock,
        delay,
    );
    answered(x, unicasts, unrouted, held, broadcasts)
}

// A device polls, under either address: its oldest frame is queued ahead of everything else. Answers whether there was one.
pub fn poll(
    s: Sends,
    told: &mut [u64; 560],
    eui: Option<u64>,
    nwk: Option<u16>,
    clock: u64,
) -> Answered
    requires { Sound s }
    ensures value { result ≡ answered_of (poll_of (model_of s) eui nwk clock) }
    ensures leaving { Leaving (poll_of (model_of s) eui nwk clock) told.old told.new result }
{
    let Sends {
        counts,
        mut unicasts,
        mut unrouted,
        mut held,
        mut broadcasts,
    } = s;
    let x = devices::poll(
        counts,
        &mut unicasts,
        &mut unrouted,
        &mut held,
        &mut broadcasts,
        told,
        eui,
        nwk,
        clock,
    );
    answered(x, unicasts, unrouted, held, broadcasts)
}

// An end-to-end ack came: it goes to the oldest unicast with that key.
pub fn aps_ack_received(s: Sends, told: &mut [u64; 560], key: AckKey) -> Answered
    requires { Sound s }
    ensures value { result ≡ answered_of (ack_of (model_of s) key) }
    ensures leaving { Leaving (ack_of (model_of s) key) told.old told.new result }
{
    let Sends {
        counts,
        mut unicasts,
        mut unrouted,
        mut held,
        mut broadcasts,
    } = s;
    let x = devices::aps_ack_received(
        counts,
        &mut unicasts,
        &mut unrouted,
        &mut held,
        &mut broadcasts,
        told,
        key,
    );
    answered(x, unicasts, unrouted, held, broadcasts)
}

// A destination's discovery lapsed: answers whether the caller is to start it again. Refused with 9 where it is not held.
pub fn retry_discovery(s: Sends, told: &mut [u64; 560], destination: u16) -> Answered
    requires { Sound s }
    ensures value { result ≡ answered_of (retry_of (model_of s) destination) }
    ensures leaving { Leaving (retry_of (model_of s) destination) told.old told.new result }
{
    let Sends {
        counts,
        mut unicasts,
        mut unrouted,
        mut held,
        mut broadcasts,
    } = s;
    let x = routes::retry_discovery(
        counts,
        &mut unicasts,
        &mut unrouted,
        &mut held,
        &mut broadcasts,
        told,
        destination,
    );
    answered(x, unicasts, unrouted, held, broadcasts)
}

// A destination's discovery ended without a route: its sends fail.
pub fn fail_unrouted(s: Sends, told: &mut [u64; 560], destination: u16) -> Answered
    requires { Sound s }
    ensures value { result ≡ answered_of (fail_of (model_of s) destination) }
    ensures leaving { Leaving (fail_of (model_of s) destination) told.old told.new result }
{
    let Sends {
        counts,
        mut unicasts,
        mut unrouted,
        mut held,
        mut broadcasts,
    } = s;
    let x = routes::fail_unrouted(
        counts,
        &mut unicasts,
        &mut unrouted,
        &mut held,
        &mut broadcasts,
        told,
        destination,
    );
    answered(x, unicasts, unrouted, held, broadcasts)
}

// A route to a destination is known: its sends, in id order, have the first n results. Refused with 1, 10 or 4.
pub fn route_unicasts(
    s: Sends,
    told: &mut [u64; 560],
    settings: Settings,
    destination: u16,
    clock: u64,
    results: [Resolved; 16],
    n: usize,
) -> Answered
    requires { Sound s }
    ensures value { result ≡ answered_of (route_of (model_of s) settings destination clock n results) }
    ensures leaving { Leaving (route_of (model_of s) settings destination clock n results) told.old told.new result }
{
    let Sends {
        counts,
        mut unicasts,
        mut unrouted,
        mut held,
        mut broadcasts,
    } = s;
    let x = routes::route_unicasts(
        counts,
        &mut unicasts,
        &mut unrouted,
        &mut held,
        &mut broadcasts,
        told,
        settings,
        destination,
        clock,
        results,
        n,
    );
    answered(x, unicasts, unrouted, held, broadcasts)
}

// The quorum for a broadcast was heard: it goes to the oldest with that key.
pub fn broadcast_delivered(s: Sends, told: &mut [u64; 560], key: QuorumKey) -> Answered
    requires { Sound s }
    ensures value { result ≡ answered_of (delivered_of (model_of s) key) }
    ensures leaving { Leaving (delivered_of (model_of s) key) told.old told.new result }
{
    let Sends {
        counts,
        mut unicasts,
        mut unrouted,
        mut held,
        mut broadcasts,
    } = s;
    let x = devices::broadcast_delivered(
        counts,
        &mut unicasts,
        &mut unrouted,
        &mut held,
        &mut broadcasts,
        told,
        key,
    );
    answered(x, unicasts, unrouted, held, broadcasts)
}

// A device is no child any more: what awaits its poll fails.
pub fn drop_indirect_unicasts(
    s: Sends,
    told: &mut [u64; 560],
    eui: Option<u64>,
    nwk: u16,
) -> Answered
    requires { Sound s }
    ensures value { result ≡ answered_of (drop_of (model_of s) eui nwk) }
    ensures leaving { Leaving (drop_of (model_of s) eui nwk) told.old told.new result }
{
    let Sends {
        counts,
        mut unicasts,
        mut unrouted,
        mut held,
        mut broadcasts,
    } = s;
    let x = devices::drop_indirect_unicasts(
        counts,
        &mut unicasts,
        &mut unrouted,
        &mut held,
        &mut broadcasts,
        told,
        eui,
        nwk,
    );
    answered(x, unicasts, unrouted, held, broadcasts)
}

// A send is cancelled, a broadcast with its copies: refused with 5 where no table has it, with 6 where it or a copy is in the
// radio.
pub fn cancel(s: Sends, told: &mut [u64; 560], id: u32) -> Answered
    requires { Sound s }
    ensures value { result ≡ answered_of (cancel_of (model_of s) id) }
    ensures leaving { Leaving (cancel_of (model_of s) id) told.old told.new result }
{
    let Sends {
        counts,
        mut unicasts,
        mut unrouted,
        mut held,
        mut broadcasts,
    } = s;
    let x = ends::cancel(
        counts,
        &mut unicasts,
        &mut unrouted,
        &mut held,
        &mut broadcasts,
        told,
        id,
    );
    answered(x, unicasts, unrouted, held, broadcasts)
}

// The timer pass: what is due is queued again, and what is past its deadline fails.
pub fn tick(s: Sends, told: &mut [u64; 560], clock: u64) -> Answered
    requires { Sound s }
    ensures value { result ≡ answered_of (tick_of (model_of s) clock) }
    ensures leaving { Leaving (tick_of (model_of s) clock) told.old told.new result }
{
    let Sends {
        counts,
        mut unicasts,
        mut unrouted,
        mut held,
        mut broadcasts,
    } = s;
    let x = ends::tick(
        counts,
        &mut unicasts,
        &mut unrouted,
        &mut held,
        &mut broadcasts,
        told,
        clock,
    );
    answered(x, unicasts, unrouted, held, broadcasts)
}
