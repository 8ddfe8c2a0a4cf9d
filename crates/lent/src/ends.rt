// Cancel, the timer pass, and when it must next run; abandon.
ghost use Rattle.std.specs.Prelude.{◌≡◌};
ghost use Rattle.model.specs.Model.{lent_model, SoundTables, Does};
ghost use Rattle.model.specs.Calls.{soonest, wake_of, cancel_of, cancel_unrouted, tick_of};
ghost use Rattle.doing.specs.Parts.{cancel_in, cancel_cast, AbandonedAll};

use crate::lists;
use broadcasts::moves;
use model::{Abandoned, Answer, Counts, Did};
use records::{Broadcast, Refusal, Unicast, Unrouted, times};
use scanning::asks;
use unicasts::calls;
use unrouted::Which;

// A unicast is cancelled, a broadcast's copy too: alone.
fn cancel_unicast(
    c: Counts,
    w: &mut [u64; 320],
    v: &mut [u64; 112],
    d: &mut [u64; 32],
    b: &mut [u64; 112],
    told: &mut [u64; 560],
    id: u32,
) -> Did
    requires { SoundTables c w.old v.old d.old b.old }
    ensures { Does (cancel_in (lent_model c w.old v.old d.old b.old) id) told.old w.new v.new d.new b.new told.new result }
{
    match calls::cancel(w, c.unicasts, told, 0, id) {
        Err(e) => doing::denied(c, e),
        Ok(x) => Did {
            counts: doing::with_unicasts(c, x.sends),
            answer: Answer::Accepted,
            told: x.told,
        },
    }
}

// An unrouted send is cancelled; its destination stays held.
fn cancel_unrouted(
    c: Counts,
    w: &mut [u64; 320],
    v: &mut [u64; 112],
    d: &mut [u64; 32],
    b: &mut [u64; 112],
    told: &mut [u64; 560],
    id: u32,
) -> Did
    requires { SoundTables c w.old v.old d.old b.old }
    ensures { Does (cancel_unrouted (lent_model c w.old v.old d.old b.old) id) told.old w.new v.new d.new b.new told.new result }
{
    let x = unrouted::cancel(v, c.unrouted, told, 0, id);
    Did {
        counts: Counts {
            unrouted: x.sends,
            ..c
        },
        answer: Answer::Accepted,
        told: x.told,
    }
}

// A broadcast is cancelled, and then its copies; or nothing, where it or one of them is in the radio.
fn cancel_broadcast(
    c: Counts,
    w: &mut [u64; 320],
    v: &mut [u64; 112],
    d: &mut [u64; 32],
    b: &mut [u64; 112],
    told: &mut [u64; 560],
    id: u32,
) -> Did
    requires { SoundTables c w.old v.old d.old b.old }
    ensures { Does (cancel_cast (lent_model c w.old v.old d.old b.old) id) told.old w.new v.new d.new b.new told.new result }
{
    if asks::copy_in_radio(w, c.unicasts, id) {
        return match tables::find::<Broadcast>(b, c.broadcasts, id) {
            None => doing::denied(c, Refusal::NoSuchSend),
            Some(_) => doing::denied(c, Refusal::InTheRadio),
        };
    }
    match moves::cancel(b, c.broadcasts, told, 0, id) {
        Err(e) => doing::denied(c, e),
        Ok(x) => {
            let y = calls::cancel_copies(w, c.unicasts, told, x.told, id);
            Did {
                counts: Counts {
                    unicasts: y.sends,
                    broadcasts: x.sends,
                    ..c
                },
                answer: Answer::Accepted,
                told: y.told,
            }
        }
    }
}

// The send with that id, in whichever table, is settled as cancelled.
pub fn cancel(
    c: Counts,
    w: &mut [u64; 320],
    v: &mut [u64; 112],
    d: &mut [u64; 32],
    b: &mut [u64; 112],
    told: &mut [u64; 560],
    id: u32,
) -> Did
    requires { SoundTables c w.old v.old d.old b.old }
    ensures { Does (cancel_of (lent_model c w.old v.old d.old b.old) id) told.old w.new v.new d.new b.new told.new result }
{
    match tables::find::<Unicast>(w, c.unicasts, id) {
        Some(_) => cancel_unicast(c, w, v, d, b, told, id),
        None => match tables::find::<Unrouted>(v, c.unrouted, id) {
            Some(_) => cancel_unrouted(c, w, v, d, b, told, id),
            None => cancel_broadcast(c, w, v, d, b, told, id),
        },
    }
}

// What is due is queued again, and what is past its deadline fails.
pub fn tick(
    c: Counts,
    w: &mut [u64; 320],
    v: &mut [u64; 112],
    d: &mut [u64; 32],
    b: &mut [u64; 112],
    told: &mut [u64; 560],
    clock: u64,
) -> Did
    requires { SoundTables c w.old v.old d.old b.old }
    ensures { Does (tick_of (lent_model c w.old v.old d.old b.old) clock) told.old w.new v.new d.new b.new told.new result }
{
    if doing::too_late(clock) {
        return doing::denied(c, Refusal::TimeTooLate);
    }
    let x = calls::tick(w, c.unicasts, told, 0, clock);
    let y = unrouted::sweep(v, c.unrouted, told, x.told, Which::Lapsed(clock));
    let z = moves::tick(b, c.broadcasts, told, y.told, clock);
    Did {
        counts: Counts {
            unicasts: x.sends,
            unrouted: y.sends,
            broadcasts: z.sends,
            ..c
        },
        answer: Answer::Accepted,
        told: z.told,
    }
}

fn soonest_of(a: Option<u64>, o: Option<u64>) -> Option<u64>
    ensures { result ≡ soonest a o }
{
    match a {
        None => o,
        Some(t) => times::sooner_of(t, o),
    }
}

// When a tick next has something to do.
pub fn next_wake(
    c: Counts,
    w: &[u64; 320],
    v: &[u64; 112],
    d: &[u64; 32],
    b: &[u64; 112],
) -> Option<u64>
    requires { SoundTables c w.now v.now d.now b.now }
    ensures { result ≡ wake_of (lent_model c w.now v.now d.now b.now) }
{
    let x = asks::next_wake(w, c.unicasts);
    let y = unrouted::next_wake(v, c.unrouted);
    let z = broadcasts::asks::next_wake(b, c.broadcasts);
    soonest_of(x, soonest_of(y, z))
}

// Every table is emptied, and each live send is listed with its waiter: two words, from the list's start on. The next id stays.
pub fn abandon(
    c: Counts,
    w: &mut [u64; 320],
    v: &mut [u64; 112],
    d: &mut [u64; 32],
    b: &mut [u64; 112],
    list: &mut [u64; 128],
) -> Abandoned
    requires { SoundTables c w.old v.old d.old b.old }
    ensures { AbandonedAll (lent_model c w.old v.old d.old b.old) list.old w.new v.new d.new b.new list.new result }
{
    let x = lists::list_unicasts(w, c.unicasts, list, 0);
    let y = lists::list_unrouted(v, c.unrouted, list, x);
    let z = lists::list_broadcasts(b, c.broadcasts, list, y);
    calls::abandon(w);
    unrouted::abandon(v, d);
    moves::abandon(b);
    Abandoned {
        counts: Counts {
            unicasts: 0,
            unrouted: 0,
            held: 0,
            broadcasts: 0,
            ..c
        },
        listed: z,
    }
}
