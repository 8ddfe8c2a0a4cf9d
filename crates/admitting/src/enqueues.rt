// The four enqueues: refused with 1, 3, 2 or 4, or the send enters and its id is issued.
ghost use Rattle.std.specs.Prelude.{◌≡◌, ◌+◌, ◌≤◌, ◌<◌};
ghost use Rattle.records.specs.Limits.{last_time};
ghost use Rattle.records.specs.Records.{unicast_id, broadcast_id};
ghost use Rattle.rows.specs.Lists.{insert_by};
ghost use Rattle.rows.specs.Tables.{live, Held, Holds};
ghost use Rattle.tables.specs.Layouts.{unicast_table, broadcast_table};
ghost use Rattle.model.specs.Model.{lent_model, SoundTables, Does};
ghost use Rattle.model.specs.Calls.{attempt_late, enqueue_of, enqueue_unicast_of, enqueue_copy_of, enqueue_unrouted_of, enqueue_broadcast_of};
ghost use Rattle.doing.specs.Parts.{unicast_as, unrouted_as, broadcast_as, drawn_by};

use model::{Answer, Counts, Did, NewBroadcast, NewUnicast, NewUnrouted};
use records::{Broadcast, Refusal, Schedule, Settings, Unicast, Unrouted};
use repeating::turns;
use turning::rules;

// The send as it is admitted.
fn unicast_as(id: u32, u: NewUnicast, copy: Option<u32>, s: Settings, clock: u64) -> Unicast
    requires { clock ≤ last_time }
    ensures { result ≡ unicast_as id u copy s clock }
{
    rules::admitted(
        id,
        u.frame,
        u.waiter,
        u.priority,
        u.confirm,
        u.next_hop,
        u.poll_address,
        copy,
        s,
        clock,
        None,
    )
}

fn unrouted_as(id: u32, u: NewUnrouted, s: Settings, clock: u64) -> Unrouted
    requires { clock ≤ last_time }
    ensures { result ≡ unrouted_as id u s clock }
{
    unrouted::admitted(
        id,
        u.frame,
        u.waiter,
        u.priority,
        u.confirm,
        u.destination,
        clock,
        s.handoff_timeout,
    )
}

fn broadcast_as(id: u32, u: NewBroadcast, s: Settings, clock: u64) -> Broadcast
    requires { clock ≤ last_time }
    ensures { result ≡ broadcast_as id u s clock }
{
    turns::admitted(
        id,
        u.frame,
        u.waiter,
        u.priority,
        u.schedule,
        clock,
        s.handoff_timeout,
    )
}

// The send enters under its id, where a place is free.
pub(crate) fn enter_unicast(w: &mut [u64; 320], n: usize, u: Unicast) -> usize
    requires held { Held unicast_table w.old n }
    requires n_bound { n < 32 }
    ensures { Holds unicast_table w.new result (insert_by unicast_id u (live unicast_table w.old n)) }
{
    match tables::insert(w, n, u) {
        None => n,
        Some(m) => m,
    }
}

fn enter_broadcast(w: &mut [u64; 112], n: usize, u: Broadcast) -> usize
    requires held { Held broadcast_table w.old n }
    requires n_bound { n < 16 }
    ensures { Holds broadcast_table w.new result (insert_by broadcast_id u (live broadcast_table w.old n)) }
{
    match tables::insert(w, n, u) {
        None => n,
        Some(m) => m,
    }
}

// The next id is drawn: c counts what the tables hold with the new send.
fn issued(c: Counts) -> Did
    requires { c.next_id < 4294967295 }
    ensures { result ≡ drawn_by c c.unicasts c.unrouted c.held c.broadcasts }
{
    let after = Counts {
        next_id: c.next_id + 1,
        ..c
    };
    doing::quiet(after, Answer::Issued(c.next_id))
}

// A unicast, or a broadcast's copy.
fn enqueue(
    c: Counts,
    w: &mut [u64; 320],
    v: &mut [u64; 112],
    d: &mut [u64; 32],
    b: &mut [u64; 112],
    told: &mut [u64; 560],
    s: Settings,
    u: NewUnicast,
    copy: Option<u32>,
    clock: u64,
) -> Did
    requires { SoundTables c w.old v.old d.old b.old }
    ensures { Does (enqueue_of (lent_model c w.old v.old d.old b.old) s u copy clock) told.old w.new v.new d.new b.new told.new result }
{
    if doing::too_late(clock) {
        return doing::denied(c, Refusal::TimeTooLate);
    }
    if c.next_id == 4294967295 {
        return doing::denied(c, Refusal::IdsExhausted);
    }
    if 32 <= c.unicasts {
        return doing::denied(c, Refusal::NoPlace);
    }
    let x = unicast_as(c.next_id, u, copy, s, clock);
    let unicasts = enter_unicast(w, c.unicasts, x);
    issued(Counts { unicasts, ..c })
}

// A unicast with a known next hop.
pub fn enqueue_unicast(
    c: Counts,
    w: &mut [u64; 320],
    v: &mut [u64; 112],
    d: &mut [u64; 32],
    b: &mut [u64; 112],
    told: &mut [u64; 560],
    s: Settings,
    u: NewUnicast,
    clock: u64,
) -> Did
    requires { SoundTables c w.old v.old d.old b.old }
    ensures { Does (enqueue_unicast_of (lent_model c w.old v.old d.old b.old) s u clock) told.old w.new v.new d.new b.new told.new result }
{
    enqueue(c, w, v, d, b, told, s, u, None, clock)
}

// A broadcast's copy for one sleepy child.
pub fn enqueue_broadcast_copy(
    c: Counts,
    w: &mut [u64; 320],
    v: &mut [u64; 112],
    d: &mut [u64; 32],
    b: &mut [u64; 112],
    told: &mut [u64; 560],
    s: Settings,
    broadcast: u32,
    u: NewUnicast,
    clock: u64,
) -> Did
    requires { SoundTables c w.old v.old d.old b.old }
    ensures { Does (enqueue_copy_of (lent_model c w.old v.old d.old b.old) s broadcast u clock) told.old w.new v.new d.new b.new told.new result }
{
    enqueue(c, w, v, d, b, told, s, u, Some(broadcast), clock)
}

// A unicast with no route yet, held until its destination's discovery ends.
pub fn enqueue_unrouted_unicast(
    c: Counts,
    w: &mut [u64; 320],
    v: &mut [u64; 112],
    d: &mut [u64; 32],
    b: &mut [u64; 112],
    told: &mut [u64; 560],
    s: Settings,
    u: NewUnrouted,
    clock: u64,
) -> Did
    requires { SoundTables c w.old v.old d.old b.old }
    ensures { Does (enqueue_unrouted_of (lent_model c w.old v.old d.old b.old) s u clock) told.old w.new v.new d.new b.new told.new result }
{
    if doing::too_late(clock) {
        return doing::denied(c, Refusal::TimeTooLate);
    }
    if c.next_id == 4294967295 {
        return doing::denied(c, Refusal::IdsExhausted);
    }
    let x = unrouted_as(c.next_id, u, s, clock);
    match unrouted::enqueue(v, c.unrouted, d, c.held, x, s.discovery_attempts) {
        None => doing::denied(c, Refusal::NoPlace),
        Some((unrouted, held)) => issued(Counts {
            unrouted,
            held,
            ..c
        }),
    }
}

// A repeating broadcast hands in the time of its next attempt.
fn attempt_late(s: Schedule) -> bool
    ensures { result ≡ attempt_late s }
{
    match s {
        Schedule::Once => false,
        Schedule::PassiveAck { next_attempt, .. } | Schedule::FixedInterval { next_attempt, .. } =>
            { doing::too_late(next_attempt) }
    }
}

// A broadcast: sent once, or repeated on its schedule.
pub fn enqueue_broadcast(
    c: Counts,
    w: &mut [u64; 320],
    v: &mut [u64; 112],
    d: &mut [u64; 32],
    b: &mut [u64; 112],
    told: &mut [u64; 560],
    s: Settings,
    u: NewBroadcast,
    clock: u64,
) -> Did
    requires { SoundTables c w.old v.old d.old b.old }
    ensures { Does (enqueue_broadcast_of (lent_model c w.old v.old d.old b.old) s u clock) told.old w.new v.new d.new b.new told.new result }
{
    if doing::too_late(clock) || attempt_late(u.schedule) {
        return doing::denied(c, Refusal::TimeTooLate);
    }
    if turns::no_copies(u.schedule) {
        return doing::denied(c, Refusal::NoCopies);
    }
    if c.next_id == 4294967295 {
        return doing::denied(c, Refusal::IdsExhausted);
    }
    if 16 <= c.broadcasts {
        return doing::denied(c, Refusal::NoPlace);
    }
    let x = broadcast_as(c.next_id, u, s, clock);
    let broadcasts = enter_broadcast(b, c.broadcasts, x);
    issued(Counts { broadcasts, ..c })
}
