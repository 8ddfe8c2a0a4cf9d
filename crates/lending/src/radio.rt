// What goes to the radio, and the radio's report on it.
ghost use Rattle.std.specs.Prelude.{◌≡◌, ◌≤◌};
ghost use Rattle.records.specs.Limits.{last_time};
ghost use Rattle.model.specs.Model.{lent_model, SoundTables, Does};
ghost use Rattle.model.specs.Calls.{unicast_first, flight_of, cast_of, lend_unicast, lend_broadcast, dequeue_of, report_in, transmitted_of};
ghost use Rattle.model.specs.declared.Lender.TheVariants.{FromUnicasts, FromBroadcasts};
ghost use Rattle.lending.specs.Choices.{chosen_of};

use broadcasts::moves;
use model::{Answer, Counts, Did, Lender, Transmit};
use records::{Priority, Refusal, TxResult};
use unicasts::calls;

// The send that goes to the radio, if one does.
#[derive(Clone, Copy)]
pub(crate) enum Chosen {
    NoSend,
    OneUnicast(u32),
    OneBroadcast(u32),
}

// Whether the unicast i of rank p goes before the broadcast j of rank q.
fn unicast_first(i: u32, p: u8, j: u32, q: u8) -> bool
    ensures { result ≡ unicast_first i p j q }
{
    if p == q { i < j } else { q < p }
}

// Which of the best queued of either table goes first: the one of higher priority, and of equals the older.
fn choose(x: Option<(u32, Priority)>, y: Option<(u32, u8)>) -> Chosen
    ensures { result ≡ chosen_of x y }
{
    match (x, y) {
        (None, None) => Chosen::NoSend,
        (None, Some((j, _))) => Chosen::OneBroadcast(j),
        (Some((i, _)), None) => Chosen::OneUnicast(i),
        (Some((i, p)), Some((j, q))) => {
            if unicast_first(i, u8::from(p), j, q) {
                Chosen::OneUnicast(i)
            } else {
                Chosen::OneBroadcast(j)
            }
        }
    }
}

fn flight(id: u32, x: Option<(u32, u16, bool)>) -> Answer
    ensures { result ≡ flight_of id x }
{
    match x {
        None => Answer::NothingQueued,
        Some((frame, hop, pending)) => {
            Answer::InFlight(id, frame, Transmit::Unicasting(hop, pending))
        }
    }
}

fn cast(id: u32, x: Option<u32>) -> Answer
    ensures { result ≡ cast_of id x }
{
    match x {
        None => Answer::NothingQueued,
        Some(frame) => Answer::InFlight(id, frame, Transmit::Broadcasting),
    }
}

// Here and at the reports the two tables have functions of their own: over both one would take the calls as closures over six lent
// arrays.

// The unicast with that id goes to the radio.
fn lend_unicast(
    c: Counts,
    w: &mut [u64; 320],
    v: &mut [u64; 112],
    d: &mut [u64; 32],
    b: &mut [u64; 112],
    told: &mut [u64; 560],
    id: u32,
) -> Did
    requires { SoundTables c w.old v.old d.old b.old }
    ensures { Does (lend_unicast (lent_model c w.old v.old d.old b.old) id) told.old w.new v.new d.new b.new told.new result }
{
    let x = calls::dequeue(w, c.unicasts, id);
    doing::quiet(c, flight(id, x))
}

// The broadcast with that id goes to the radio.
fn lend_broadcast(
    c: Counts,
    w: &mut [u64; 320],
    v: &mut [u64; 112],
    d: &mut [u64; 32],
    b: &mut [u64; 112],
    told: &mut [u64; 560],
    id: u32,
) -> Did
    requires { SoundTables c w.old v.old d.old b.old }
    ensures { Does (lend_broadcast (lent_model c w.old v.old d.old b.old) id) told.old w.new v.new d.new b.new told.new result }
{
    let x = moves::dequeue(b, c.broadcasts, id);
    doing::quiet(c, cast(id, x))
}

// Of both tables the unexpired queued send of highest priority, and of these the oldest, is lent to the radio.
pub fn dequeue(
    c: Counts,
    w: &mut [u64; 320],
    v: &mut [u64; 112],
    d: &mut [u64; 32],
    b: &mut [u64; 112],
    told: &mut [u64; 560],
    clock: u64,
) -> Did
    requires { SoundTables c w.old v.old d.old b.old }
    ensures { Does (dequeue_of (lent_model c w.old v.old d.old b.old) clock) told.old w.new v.new d.new b.new told.new result }
{
    if doing::too_late(clock) {
        return doing::denied(c, Refusal::TimeTooLate);
    }
    let x = scanning::asks::best_queued(w, c.unicasts, clock);
    let y = broadcasts::asks::best_queued(b, c.broadcasts, clock);
    match choose(x, y) {
        Chosen::NoSend => doing::quiet(c, Answer::NothingQueued),
        Chosen::OneUnicast(i) => lend_unicast(c, w, v, d, b, told, i),
        Chosen::OneBroadcast(j) => lend_broadcast(c, w, v, d, b, told, j),
    }
}

// The radio reports on a unicast.
fn report_unicast(
    c: Counts,
    w: &mut [u64; 320],
    v: &mut [u64; 112],
    d: &mut [u64; 32],
    b: &mut [u64; 112],
    told: &mut [u64; 560],
    id: u32,
    frame: u32,
    x: TxResult,
    clock: u64,
    delay: u32,
) -> Did
    requires sound_tables { SoundTables c w.old v.old d.old b.old }
    requires clock_le_last_time { clock ≤ last_time }
    ensures { Does (report_in (lent_model c w.old v.old d.old b.old) FromUnicasts id frame x clock delay) told.old w.new v.new d.new b.new told.new result }
{
    match calls::report(w, c.unicasts, told, 0, id, frame, x, clock, delay) {
        Err(e) => doing::denied(c, e),
        Ok(left) => Did {
            counts: doing::with_unicasts(c, left.sends),
            answer: Answer::Accepted,
            told: left.told,
        },
    }
}

// The radio reports on a broadcast's copy.
fn report_broadcast(
    c: Counts,
    w: &mut [u64; 320],
    v: &mut [u64; 112],
    d: &mut [u64; 32],
    b: &mut [u64; 112],
    told: &mut [u64; 560],
    id: u32,
    frame: u32,
    x: TxResult,
    clock: u64,
    delay: u32,
) -> Did
    requires sound_tables { SoundTables c w.old v.old d.old b.old }
    requires clock_le_last_time { clock ≤ last_time }
    ensures { Does (report_in (lent_model c w.old v.old d.old b.old) FromBroadcasts id frame x clock delay) told.old w.new v.new d.new b.new told.new result }
{
    match moves::report(b, c.broadcasts, told, 0, id, frame, x, clock, delay) {
        Err(e) => doing::denied(c, e),
        Ok(left) => Did {
            counts: doing::with_broadcasts(c, left.sends),
            answer: Answer::Accepted,
            told: left.told,
        },
    }
}

// The radio's report on the send that it was lent: `from` names the table. `delay` is how long a failed unicast waits for its
// next attempt, and a passive-ack broadcast for its next copy.
pub fn transmitted(
    c: Counts,
    w: &mut [u64; 320],
    v: &mut [u64; 112],
    d: &mut [u64; 32],
    b: &mut [u64; 112],
    told: &mut [u64; 560],
    from: Lender,
    id: u32,
    frame: u32,
    x: TxResult,
    clock: u64,
    delay: u32,
) -> Did
    requires { SoundTables c w.old v.old d.old b.old }
    ensures { Does (transmitted_of (lent_model c w.old v.old d.old b.old) from id frame x clock delay) told.old w.new v.new d.new b.new told.new result }
{
    if doing::too_late(clock) {
        return doing::denied(c, Refusal::TimeTooLate);
    }
    match from {
        Lender::FromUnicasts => report_unicast(c, w, v, d, b, told, id, frame, x, clock, delay),
        Lender::FromBroadcasts => {
            report_broadcast(c, w, v, d, b, told, id, frame, x, clock, delay)
        }
    }
}
