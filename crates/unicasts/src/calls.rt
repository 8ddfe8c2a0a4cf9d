// The calls that change the lent table, in place; what they tell goes to the lent buffer.
ghost use Rattle.std.specs.Prelude.{◌≡◌, ◌+◌, ◌*◌, ◌-◌, ◌≤◌, ◌<◌, [], get_or, set};
ghost use Rattle.records.specs.declared.Stage.TheVariants.{Queued};
ghost use Rattle.records.specs.Limits.{last_time};
ghost use Rattle.records.specs.Records.{unicast_entry, blank_unicast};
ghost use Rattle.rows.specs.Tables.{rows_of, live, Held, Holds, Entered};
ghost use Rattle.rows.specs.declared.Turn.TheVariants.{Settles};
ghost use Rattle.rows.specs.Moves.{Same};
ghost use Rattle.tables.specs.Layouts.{unicast_table};
ghost use Rattle.actions.specs.Calls.{Swept, Turned, Played};
ghost use Rattle.sending.specs.Rules.{with_stage, keyed, ack_turn, report_turn, cancel_turn, tick_turn, drop_turn, copy_turn, sweep_turn};
ghost use Rattle.sending.specs.Lists.{report_bar, cancel_bar};
ghost use Rattle.unicasts.specs.Calls.{PolledOne, Dequeued, Called};

use records::{AckKey, Entry, Refusal, Stage, TxResult, Unicast, Verdict};
use rows::Turn;
use scanning::asks;
use sending::{Due, Which};
use tables::{Counts, unicast_rows};

// The send at place i is taken out, and told as over.
fn finish(
    w: &mut [u64; 320],
    n: usize,
    told: &mut [u64; 560],
    m: usize,
    i: usize,
    again: bool,
    v: Verdict,
    hop: Option<u16>,
) -> usize
    requires held { Held unicast_table w.old n }
    requires i_lt_n { i < n }
    requires m_bound { m + 2 ≤ 112 }
    ensures { Played unicast_table unicast_entry (Settles again v hop) i (get_or (rows_of unicast_table w.old) i blank_unicast) w.old n told.old m w.new (n - 1) told.new result }
{
    let u = tables::load::<Unicast>(w, i);
    let e = Entry::from(u);
    let next = actions::settle_again(told, m, e, again, v, hop);
    tables::remove_at::<Unicast>(w, n, i);
    next
}

// The send u, at place i, has its turn.
fn play(
    w: &mut [u64; 320],
    n: usize,
    told: &mut [u64; 560],
    m: usize,
    i: usize,
    u: Unicast,
    t: Turn<Unicast>,
) -> Counts
    requires held { Held unicast_table w.old n }
    requires i_lt_n { i < n }
    requires u_value { u ≡ get_or (rows_of unicast_table w.old) i blank_unicast }
    requires same { Same unicast_entry u t }
    requires m_bound { m + 2 ≤ 112 }
    ensures { Played unicast_table unicast_entry t i u w.old n told.old m w.new result.sends told.new result.told }
{
    match t {
        Turn::Keeps(v) => {
            tables::store(w, n, i, v);
            Counts { sends: n, told: m }
        }
        Turn::HandsOff(v) => {
            let e = Entry::from(u);
            let next = actions::hand_off(told, m, e);
            tables::store(w, n, i, v);
            Counts {
                sends: n,
                told: next,
            }
        }
        Turn::Settles(again, v, hop) => {
            let next = finish(w, n, told, m, i, again, v, hop);
            Counts {
                sends: n - 1,
                told: next,
            }
        }
    }
}

// A send enters under its id.
pub fn enqueue(w: &mut [u64; 320], n: usize, u: Unicast) -> Option<usize>
    requires { Held unicast_table w.old n }
    ensures { Entered unicast_table w.old n u w.new result }
{
    tables::insert(w, n, u)
}

// A device polls: its oldest frame is queued ahead of everything else.
pub fn poll(w: &mut [u64; 320], n: usize, eui: Option<u64>, nwk: Option<u16>, clock: u64) -> bool
    requires { Held unicast_table w.old n }
    ensures { PolledOne eui nwk clock w.old n w.new result }
{
    let Some(i) = asks::first_awaited(w, n, eui, nwk, clock) else {
        return false;
    };
    let u = tables::load::<Unicast>(w, i);
    let v = turning::rules::polled(u);
    tables::store(w, n, i, v);
    true
}

// The send with that id goes to the radio.
pub fn dequeue(w: &mut [u64; 320], n: usize, id: u32) -> Option<(u32, u16, bool)>
    requires { Held unicast_table w.old n }
    ensures { Dequeued id w.old n w.new result }
{
    let i = tables::find::<Unicast>(w, n, id)?;
    let u = tables::load::<Unicast>(w, i);
    let pending = asks::frame_pending(w, n, id, u.poll_address);
    let v = turning::rules::staged(u, Stage::Transmitting(false));
    tables::store(w, n, i, v);
    Some((u.frame, u.next_hop, pending))
}

// An ack came: it goes to the oldest send with that key.
pub fn ack(w: &mut [u64; 320], n: usize, told: &mut [u64; 560], m: usize, key: AckKey) -> Counts
    requires held { Held unicast_table w.old n }
    requires m_bound { m + 2 ≤ 112 }
    ensures { Turned unicast_table unicast_entry (keyed key) ack_turn w.old n told.old m w.new result.sends told.new result.told }
{
    let Some(i) = asks::first_keyed(w, n, key) else {
        return Counts { sends: n, told: m };
    };
    let u = tables::load::<Unicast>(w, i);
    let t = turning::rules::ack_turn(u);
    play(w, n, told, m, i, u, t)
}

// The radio reports on the send with that id: refused where there is none, it is not in the radio, or has another frame.
pub fn report(
    w: &mut [u64; 320],
    n: usize,
    told: &mut [u64; 560],
    m: usize,
    id: u32,
    frame: u32,
    res: TxResult,
    clock: u64,
    delay: u32,
) -> Result<Counts, Refusal>
    requires held { Held unicast_table w.old n }
    requires m_bound { m + 2 ≤ 112 }
    requires clock_le_last_time { clock ≤ last_time }
    ensures { Called (report_bar frame) (report_turn res clock delay) id w.old n told.old m w.new told.new result }
{
    let Some(i) = tables::find::<Unicast>(w, n, id) else {
        return Err(Refusal::NoSuchSend);
    };
    let u = tables::load::<Unicast>(w, i);
    if !turning::rules::is_sending(u.stage) {
        return Err(Refusal::NotInTheRadio);
    }
    if u.frame != frame {
        return Err(Refusal::OtherFrame);
    }
    let t = turning::rules::report_turn(u, res, clock, delay);
    Ok(play(w, n, told, m, i, u, t))
}

// The send with that id is settled as cancelled: refused where there is none, or it is in the radio.
pub fn cancel(
    w: &mut [u64; 320],
    n: usize,
    told: &mut [u64; 560],
    m: usize,
    id: u32,
) -> Result<Counts, Refusal>
    requires held { Held unicast_table w.old n }
    requires m_bound { m + 2 ≤ 112 }
    ensures { Called cancel_bar cancel_turn id w.old n told.old m w.new told.new result }
{
    let Some(i) = tables::find::<Unicast>(w, n, id) else {
        return Err(Refusal::NoSuchSend);
    };
    let u = tables::load::<Unicast>(w, i);
    if turning::rules::is_sending(u.stage) {
        return Err(Refusal::InTheRadio);
    }
    let t = turning::rules::cancel_turn(u);
    Ok(play(w, n, told, m, i, u, t))
}

// The retry at place i is queued.
fn requeue(w: &mut [u64; 320], n: usize, i: usize)
    requires held { Held unicast_table w.old n }
    requires i_lt_n { i < n }
    ensures { Holds unicast_table w.new n (set (live unicast_table w.old n) i (with_stage (get_or (rows_of unicast_table w.old) i blank_unicast) Queued)) }
{
    let u = tables::load::<Unicast>(w, i);
    let v = turning::rules::staged(u, Stage::Queued);
    tables::store(w, n, i, v);
}

// Every send has its turn.
fn sweep(w: &mut [u64; 320], sends: usize, told: &mut [u64; 560], at: usize, which: Which) -> Counts
    requires held { Held unicast_table w.old sends }
    requires sends_bound { at + sends * 2 ≤ 112 }
    ensures { Swept unicast_table unicast_entry (sweep_turn which) w.old sends told.old at w.new result.sends told.new result.told }
{
    let mut n = sends;
    let mut m = at;
    let mut i = 0;
    // A `while`, since a send that is taken out leaves the next one at its place.
    while i < n {
        match asking::rules::due_of(unicast_rows::head(w, i), which) {
            Due::Leave => i += 1,
            Due::Requeue => {
                requeue(w, n, i);
                i += 1;
            }
            Due::Finish(again, f) => {
                m = finish(w, n, told, m, i, again, Verdict::Failure(f), None);
                n -= 1;
            }
        }
    }
    Counts { sends: n, told: m }
}

// Retries that are due are queued, and what has lapsed fails. Most ticks find every send at rest: then none is given its turn.
pub fn tick(w: &mut [u64; 320], n: usize, told: &mut [u64; 560], m: usize, clock: u64) -> Counts
    requires held { Held unicast_table w.old n }
    requires n_bound { m + n * 2 ≤ 112 }
    ensures { Swept unicast_table unicast_entry (tick_turn clock) w.old n told.old m w.new result.sends told.new result.told }
{
    if asks::any_stirs(w, n, clock) {
        sweep(w, n, told, m, Which::Lapsed(clock))
    } else {
        Counts { sends: n, told: m }
    }
}

// A device is no child any more: what awaits its poll fails.
pub fn drop_indirect(
    w: &mut [u64; 320],
    n: usize,
    told: &mut [u64; 560],
    m: usize,
    eui: Option<u64>,
    nwk: u16,
) -> Counts
    requires held { Held unicast_table w.old n }
    requires n_bound { m + n * 2 ≤ 112 }
    ensures { Swept unicast_table unicast_entry (drop_turn eui nwk) w.old n told.old m w.new result.sends told.new result.told }
{
    sweep(w, n, told, m, Which::Dropped(eui, nwk))
}

// The copies of a broadcast are settled as cancelled.
pub fn cancel_copies(
    w: &mut [u64; 320],
    n: usize,
    told: &mut [u64; 560],
    m: usize,
    id: u32,
) -> Counts
    requires held { Held unicast_table w.old n }
    requires n_bound { m + n * 2 ≤ 112 }
    ensures { Swept unicast_table unicast_entry (copy_turn id) w.old n told.old m w.new result.sends told.new result.told }
{
    sweep(w, n, told, m, Which::CopyOf(id))
}

// The table is emptied.
pub fn abandon(w: &mut [u64; 320])
    ensures { Holds unicast_table w.new 0 [] }
{
    *w = tables::fresh::<Unicast, 320>();
}
