// The calls that change the lent table: w holds n broadcasts, and what is told goes into `told` from place m on.
ghost use Rattle.std.specs.Prelude.{◌≡◌, ◌+◌, ◌*◌, ◌≤◌, ◌<◌, [], get_or};
ghost use Rattle.records.specs.Limits.{last_time};
ghost use Rattle.records.specs.Records.{blank_broadcast, broadcast_entry};
ghost use Rattle.rows.specs.Tables.{rows_of, live, Held, Holds, Entered};
ghost use Rattle.rows.specs.Moves.{first_at};
ghost use Rattle.tables.specs.Layouts.{broadcast_table};
ghost use Rattle.actions.specs.Calls.{Swept, Turned, Played};
ghost use Rattle.casting.specs.Rules.{admitted_of, keyed, report_turn, report_bar, delivered_turn, cancel_turn, cancel_bar, tick_turn};
ghost use Rattle.broadcasts.specs.Calls.{Plays, Answered, Dequeued};

use crate::asks;
use casting::heads;
use records::{Broadcast, Entry, Priority, QuorumKey, Refusal, Schedule, TxResult};
use repeating::turns;
use rows::Turn;
use tables::{Counts, broadcast_rows};

// The broadcast at place i, which is u, has this turn.
fn play(
    w: &mut [u64; 112],
    n: usize,
    told: &mut [u64; 560],
    m: usize,
    i: usize,
    u: Broadcast,
    t: Turn<Broadcast>,
) -> Counts
    requires held { Held broadcast_table w.old n }
    requires plays { Plays w.old n m i u t }
    ensures { Played broadcast_table broadcast_entry t i u w.old n told.old m w.new result.sends told.new result.told }
{
    let e = Entry::from(u);
    match t {
        Turn::Keeps(b) => {
            tables::store(w, n, i, b);
            Counts { sends: n, told: m }
        }
        Turn::HandsOff(b) => {
            tables::store(w, n, i, b);
            let next = actions::hand_off(told, m, e);
            Counts {
                sends: n,
                told: next,
            }
        }
        Turn::Settles(again, v, hop) => {
            let next = actions::settle_again(told, m, e, again, v, hop);
            tables::remove_at::<Broadcast>(w, n, i);
            Counts {
                sends: n - 1,
                told: next,
            }
        }
    }
}

// A broadcast is admitted, unless every place is taken.
pub fn enqueue(
    w: &mut [u64; 112],
    n: usize,
    id: u32,
    frame: u32,
    waiter: u32,
    priority: Priority,
    schedule: Schedule,
    clock: u64,
    handoff: u32,
) -> Option<usize>
    requires held { Held broadcast_table w.old n }
    requires clock_le_last_time { clock ≤ last_time }
    ensures { Entered broadcast_table w.old n (admitted_of id frame waiter priority schedule clock handoff) w.new result }
{
    let b = turns::admitted(id, frame, waiter, priority, schedule, clock, handoff);
    tables::insert(w, n, b)
}

// The broadcast with that id, the best queued one, goes to the radio: answers its frame.
pub fn dequeue(w: &mut [u64; 112], n: usize, id: u32) -> Option<u32>
    requires { Held broadcast_table w.old n }
    ensures { Dequeued id w.old n w.new result }
{
    let i = tables::find::<Broadcast>(w, n, id)?;
    let u = tables::load::<Broadcast>(w, i);
    tables::store(w, n, i, turns::dequeued(u));
    Some(u.frame)
}

// The radio reports on the copy of the broadcast with that id.
pub fn report(
    w: &mut [u64; 112],
    n: usize,
    told: &mut [u64; 560],
    m: usize,
    id: u32,
    frame: u32,
    x: TxResult,
    clock: u64,
    delay: u32,
) -> Result<Counts, Refusal>
    requires held { Held broadcast_table w.old n }
    requires m_bound { m + 2 ≤ 112 }
    requires clock_le_last_time { clock ≤ last_time }
    ensures { Answered id (report_bar frame) (report_turn x clock delay) w.old n told.old m w.new told.new result }
{
    match tables::find::<Broadcast>(w, n, id) {
        None => Err(Refusal::NoSuchSend),
        Some(i) => {
            let u = tables::load::<Broadcast>(w, i);
            if !turns::in_radio(u.copy) {
                return Err(Refusal::NotInTheRadio);
            }
            if u.frame != frame {
                return Err(Refusal::OtherFrame);
            }
            let t = turns::report(u, x, clock, delay);
            Ok(play(w, n, told, m, i, u, t))
        }
    }
}

// The broadcast with that id is settled as cancelled.
pub fn cancel(
    w: &mut [u64; 112],
    n: usize,
    told: &mut [u64; 560],
    m: usize,
    id: u32,
) -> Result<Counts, Refusal>
    requires held { Held broadcast_table w.old n }
    requires m_bound { m + 2 ≤ 112 }
    ensures { Answered id cancel_bar cancel_turn w.old n told.old m w.new told.new result }
{
    match tables::find::<Broadcast>(w, n, id) {
        None => Err(Refusal::NoSuchSend),
        Some(i) => {
            let u = tables::load::<Broadcast>(w, i);
            if turns::in_radio(u.copy) {
                return Err(Refusal::InTheRadio);
            }
            let t = turns::cancel(u);
            Ok(play(w, n, told, m, i, u, t))
        }
    }
}

// Where the oldest broadcast that waits for that quorum stands.
pub fn first_keyed(w: &[u64; 112], n: usize, key: QuorumKey) -> Option<usize>
    requires { Held broadcast_table w.now n }
    ensures { result ≡ first_at (keyed key) (live broadcast_table w.now n) }
{
    (0..n).find(|i| heads::is_keyed(broadcast_rows::schedule(w, *i), key))
}

// The quorum for that key was heard.
pub fn delivered(
    w: &mut [u64; 112],
    n: usize,
    told: &mut [u64; 560],
    m: usize,
    key: QuorumKey,
) -> Counts
    requires held { Held broadcast_table w.old n }
    requires m_bound { m + 2 ≤ 112 }
    ensures { Turned broadcast_table broadcast_entry (keyed key) delivered_turn w.old n told.old m w.new result.sends told.new result.told }
{
    match first_keyed(w, n, key) {
        None => Counts { sends: n, told: m },
        Some(i) => {
            let u = tables::load::<Broadcast>(w, i);
            let t = turns::delivered(u);
            play(w, n, told, m, i, u, t)
        }
    }
}

// What time does to the broadcast at place i.
fn tick_at(
    w: &mut [u64; 112],
    n: usize,
    told: &mut [u64; 560],
    m: usize,
    i: usize,
    clock: u64,
) -> Counts
    requires held { Held broadcast_table w.old n }
    requires i_lt_n { (i < n) × (m + 2 ≤ 112) }
    ensures { Played broadcast_table broadcast_entry (tick_turn clock (get_or (rows_of broadcast_table w.old) i blank_broadcast)) i (get_or (rows_of broadcast_table w.old) i blank_broadcast) w.old n told.old m w.new result.sends told.new result.told }
{
    let u = tables::load::<Broadcast>(w, i);
    let t = turns::tick(u, clock);
    play(w, n, told, m, i, u, t)
}

// What time does to every broadcast, place by place. The loop is no `for`, since the broadcast that follows one that is settled
// then stands in its place.
fn tick_each(
    w: &mut [u64; 112],
    sends: usize,
    told: &mut [u64; 560],
    at: usize,
    clock: u64,
) -> Counts
    requires held { Held broadcast_table w.old sends }
    requires sends_bound { at + sends * 2 ≤ 112 }
    ensures { Swept broadcast_table broadcast_entry (tick_turn clock) w.old sends told.old at w.new result.sends told.new result.told }
{
    let mut n = sends;
    let mut m = at;
    let mut i = 0;
    while i < n {
        if heads::stirs(broadcast_rows::head(w, i), clock) {
            let c = tick_at(w, n, told, m, i, clock);
            // the place of a settled one is the next one's
            i = i + 1 + c.sends - n;
            n = c.sends;
            m = c.told;
        } else {
            i += 1;
        }
    }
    Counts { sends: n, told: m }
}

// Copies that are due are queued; what is over or past its deadline is settled. Most ticks find every broadcast at rest: then none is
// given its turn.
pub fn tick(
    w: &mut [u64; 112],
    sends: usize,
    told: &mut [u64; 560],
    at: usize,
    clock: u64,
) -> Counts
    requires held { Held broadcast_table w.old sends }
    requires sends_bound { at + sends * 2 ≤ 112 }
    ensures { Swept broadcast_table broadcast_entry (tick_turn clock) w.old sends told.old at w.new result.sends told.new result.told }
{
    if asks::any_stirs(w, sends, clock) {
        return tick_each(w, sends, told, at, clock);
    }
    Counts { sends, told: at }
}

// The table is emptied.
pub fn abandon(w: &mut [u64; 112])
    ensures { Holds broadcast_table w.new 0 [] }
{
    *w = tables::fresh::<Broadcast, 112>();
}
