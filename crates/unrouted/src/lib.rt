// The rules of unicasts with no route yet: on one send, and on the two lent tables of sends and of held destinations.
#![tactic(auto)]

ghost use Rattle.std.specs.Prelude.{◌≡◌, false, ◌+◌, ◌*◌, ◌-◌, ◌≤◌, ◌<◌, get_or, None};
ghost use Rattle.records.specs.Limits.{last_time};
ghost use Rattle.records.specs.Pick.{bit};
ghost use Rattle.records.specs.Records.{unrouted_id, unrouted_entry, blank_unrouted, blank_destination, destination_address};
ghost use Rattle.records.specs.declared.Verdict.TheVariants.{Failure};
ghost use Rattle.rows.specs.Lists.{insert_by};
ghost use Rattle.rows.specs.Tables.{rows_of, live, Held, Holds};
ghost use Rattle.rows.specs.Moves.{first_at, any_of, count, has_id};
ghost use Rattle.rows.specs.declared.Turn.TheVariants.{Settles};
ghost use Rattle.tables.specs.Layouts.{unrouted_table, destination_table};
ghost use Rattle.actions.specs.Calls.{Swept, Turned, Played};
ghost use Rattle.unrouted.specs.Rules.{admitted_of, chosen_head, failure_of, sweep_turn, cancel_turn, goes_to, left_to, left_head, wake_of, is_held, newly_held};
ghost use Rattle.unrouted.specs.Calls.{Enqueued, Retried, FailedAll, Taken, Abandoned};

use records::times::sooner_of;
use records::{Confirm, Destination, Entry, Priority, SendFailure, Unrouted, Verdict};
use tables::unrouted_rows::UnroutedHead;
use tables::{Counts, unrouted_rows};

// The sends that a sweep settles: those whose deadline has come by a time, or those to a destination.
#[derive(Clone, Copy)]
pub enum Which {
    Lapsed(u64),
    Bound(u16),
}

// How many sends and held destinations are left, and the next place in the buffer.
#[derive(Clone, Copy)]
pub struct Failed {
    pub sends: usize,
    pub held: usize,
    pub told: usize,
}

// What a lapsed discovery is answered.
#[derive(Clone, Copy)]
pub enum Retry {
    NotHeld,
    Declined,
    Granted,
}

// ---- on one send

// A send as it is admitted.
pub fn admitted(
    id: u32,
    frame: u32,
    waiter: u32,
    priority: Priority,
    confirm: Confirm,
    destination: u16,
    clock: u64,
    handoff: u32,
) -> Unrouted
    requires { clock ≤ last_time }
    ensures { result ≡ admitted_of id frame waiter priority confirm destination clock handoff }
{
    Unrouted {
        id,
        frame,
        waiter,
        priority,
        confirm,
        destination,
        deadline: clock + u64::from(handoff),
    }
}

fn chosen(h: UnroutedHead, which: Which) -> bool
    ensures { result ≡ chosen_head which h }
{
    match which {
        Which::Lapsed(clock) => h.deadline <= clock,
        Which::Bound(d) => h.destination == d,
    }
}

fn failure(which: Which) -> SendFailure
    ensures { result ≡ failure_of which }
{
    match which {
        Which::Lapsed(_) => SendFailure::HandoffTimeout,
        Which::Bound(_) => SendFailure::RouteDiscoveryTimeout,
    }
}

// ---- on the table of sends

// The send at place i is taken out, and told as failed.
fn drop_at(
    w: &mut [u64; 112],
    n: usize,
    told: &mut [u64; 560],
    m: usize,
    i: usize,
    f: SendFailure,
) -> usize
    requires held { Held unrouted_table w.old n }
    requires i_lt_n { i < n }
    requires m_bound { m < 112 }
    ensures { Played unrouted_table unrouted_entry (Settles false (Failure f) None) i (get_or (rows_of unrouted_table w.old) i blank_unrouted) w.old n told.old m w.new (n - 1) told.new result }
{
    let u = tables::load::<Unrouted>(w, i);
    let e = Entry::from(u);
    let next = actions::settle(told, m, e, Verdict::Failure(f), None);
    tables::remove_at::<Unrouted>(w, n, i);
    next
}

// Every chosen send is settled: a tick, and a failed discovery. The loop is no `for`, since the send that follows one that is
// taken out then stands in its place.
pub fn sweep(
    w: &mut [u64; 112],
    sends: usize,
    told: &mut [u64; 560],
    at: usize,
    which: Which,
) -> Counts
    requires held { Held unrouted_table w.old sends }
    requires sends_bound { at + sends * 2 ≤ 112 }
    ensures { Swept unrouted_table unrouted_entry (sweep_turn which) w.old sends told.old at w.new result.sends told.new result.told }
{
    let mut n = sends;
    let mut m = at;
    let mut i = 0;
    while i < n {
        if chosen(unrouted_rows::head(w, i), which) {
            m = drop_at(w, n, told, m, i, failure(which));
            n -= 1;
        } else {
            i += 1;
        }
    }
    Counts { sends: n, told: m }
}

// Where the oldest send to a destination stands.
pub fn first_to(w: &[u64; 112], n: usize, destination: u16) -> Option<usize>
    requires { Held unrouted_table w.now n }
    ensures { result ≡ first_at (goes_to destination) (live unrouted_table w.now n) }
{
    let which = Which::Bound(destination);
    (0..n).find(|i| chosen(unrouted_rows::head(w, *i), which))
}

// Whether a send waits for a destination's route.
pub fn waits(w: &[u64; 112], n: usize, destination: u16) -> bool
    requires { Held unrouted_table w.now n }
    ensures { result ≡ any_of (goes_to destination) (live unrouted_table w.now n) }
{
    let which = Which::Bound(destination);
    (0..n).any(|i| chosen(unrouted_rows::head(w, i), which))
}

fn is_left(h: UnroutedHead, destination: u16, clock: u64) -> bool
    ensures { bit result ≡ left_head destination clock h }
{
    h.destination == destination && clock < h.deadline
}

// How many sends to a destination a tick would leave.
pub fn left_to(w: &[u64; 112], n: usize, destination: u16, clock: u64) -> usize
    requires { Held unrouted_table w.now n }
    ensures { result ≡ count (left_to clock destination) (live unrouted_table w.now n) }
{
    (0..n)
        .filter(|i| is_left(unrouted_rows::head(w, *i), destination, clock))
        .count()
}

// The least deadline.
pub fn next_wake(w: &[u64; 112], n: usize) -> Option<u64>
    requires { Held unrouted_table w.now n }
    ensures { result ≡ wake_of (live unrouted_table w.now n) }
{
    (0..n).rev().fold(
        None,
        |wake, i| sooner_of(unrouted_rows::head(w, i).deadline, wake),
    )
}

// Takes the oldest send to a destination out, for a route to go on with.
pub fn take(w: &mut [u64; 112], n: usize, destination: u16) -> Option<Unrouted>
    requires { Held unrouted_table w.old n }
    ensures { Taken destination w.old n w.new result }
{
    let i = first_to(w, n, destination)?;
    let u = tables::load::<Unrouted>(w, i);
    tables::remove_at::<Unrouted>(w, n, i);
    Some(u)
}

// The send with that id is settled as cancelled; its destination stays held.
pub fn cancel(w: &mut [u64; 112], n: usize, told: &mut [u64; 560], m: usize, id: u32) -> Counts
    requires held { Held unrouted_table w.old n }
    requires m_bound { m < 112 }
    ensures { Turned unrouted_table unrouted_entry (has_id unrouted_entry id) cancel_turn w.old n told.old m w.new result.sends told.new result.told }
{
    match tables::find::<Unrouted>(w, n, id) {
        None => Counts { sends: n, told: m },
        Some(i) => {
            let next = drop_at(w, n, told, m, i, SendFailure::Cancelled);
            Counts {
                sends: n - 1,
                told: next,
            }
        }
    }
}

// ---- with the held destinations

pub fn is_held(d: &[u64; 32], k: usize, destination: u16) -> bool
    requires { Held destination_table d.now k }
    ensures { result ≡ is_held destination (live destination_table d.now k) }
{
    tables::find::<Destination>(d, k, destination as u32).is_some()
}

// The held destination at a place; they rise from place to place.
pub fn destination_at(d: &[u64; 32], i: usize) -> u16
    requires { i < 16 }
    ensures { result ≡ (get_or (rows_of destination_table d.now) i blank_destination).address }
{
    tables::load::<Destination>(d, i).address
}

// The send enters under its id, where a place is free.
fn enter(w: &mut [u64; 112], n: usize, u: Unrouted) -> usize
    requires held { Held unrouted_table w.old n }
    requires n_bound { n < 16 }
    ensures { Holds unrouted_table w.new result (insert_by unrouted_id u (live unrouted_table w.old n)) }
{
    tables::insert(w, n, u).unwrap_or(n)
}

// A new destination is held, with a restart for each attempt after the first, where a place is free.
fn hold(d: &mut [u64; 32], k: usize, destination: u16, attempts: u8) -> usize
    requires held { Held destination_table d.old k }
    requires k_bound { k < 16 }
    ensures { Holds destination_table d.new result (insert_by destination_address (newly_held attempts destination) (live destination_table d.old k)) }
{
    let h = Destination {
        address: destination,
        retries: attempts.saturating_sub(1),
    };
    tables::insert(d, k, h).unwrap_or(k)
}

// The send is enqueued and its destination held, or nothing is done.
pub fn enqueue(
    w: &mut [u64; 112],
    n: usize,
    d: &mut [u64; 32],
    k: usize,
    u: Unrouted,
    attempts: u8,
) -> Option<(usize, usize)>
    requires held { Held unrouted_table w.old n }
    requires held_2 { Held destination_table d.old k }
    ensures { Enqueued attempts u w.old n d.old k w.new d.new result }
{
    if 16 <= n {
        return None;
    }
    if is_held(d, k, u.destination) {
        let sends = enter(w, n, u);
        return Some((sends, k));
    }
    if 16 <= k {
        return None;
    }
    let held = hold(d, k, u.destination, attempts);
    let sends = enter(w, n, u);
    Some((sends, held))
}

// A destination's discovery lapsed: one restart of it is spent, if one is left and a send waits.
pub fn retry_discovery(
    w: &[u64; 112],
    n: usize,
    d: &mut [u64; 32],
    k: usize,
    destination: u16,
) -> Retry
    requires held { Held unrouted_table w.now n }
    requires held_2 { Held destination_table d.old k }
    ensures { Retried destination w.now n d.old k d.new result }
{
    match tables::find::<Destination>(d, k, destination as u32) {
        None => Retry::NotHeld,
        Some(i) => {
            let h = tables::load::<Destination>(d, i);
            if h.retries == 0 || !waits(w, n, destination) {
                return Retry::Declined;
            }
            let spent = Destination {
                retries: h.retries - 1,
                ..h
            };
            tables::store(d, k, i, spent);
            Retry::Granted
        }
    }
}

// A destination's discovery is over without a route: it is dropped, and its sends fail.
pub fn fail(
    w: &mut [u64; 112],
    n: usize,
    d: &mut [u64; 32],
    k: usize,
    told: &mut [u64; 560],
    m: usize,
    destination: u16,
) -> Failed
    requires held { Held unrouted_table w.old n }
    requires held_2 { Held destination_table d.old k }
    requires n_bound { m + n * 2 ≤ 112 }
    ensures { FailedAll destination w.old n d.old k told.old m w.new d.new told.new result }
{
    let held = tables::remove::<Destination>(d, k, destination as u32);
    let counts = sweep(w, n, told, m, Which::Bound(destination));
    Failed {
        sends: counts.sends,
        held,
        told: counts.told,
    }
}

// Both tables are emptied.
pub fn abandon(w: &mut [u64; 112], d: &mut [u64; 32])
    ensures { Abandoned w.new d.new }
{
    *w = tables::fresh::<Unrouted, 112>();
    *d = tables::fresh::<Destination, 32>();
}
