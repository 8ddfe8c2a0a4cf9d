// Devices poll and leave, acks come in, and a quorum is heard.
ghost use Rattle.model.specs.Model.{lent_model, SoundTables, Does};
ghost use Rattle.model.specs.Calls.{poll_of, ack_of, drop_of, delivered_of};

use broadcasts::moves;
use model::{Answer, Counts, Did};
use records::{AckKey, QuorumKey, Refusal};
use unicasts::calls;

// A device polls, under either address: its oldest frame is queued. Answers whether there was one.
pub fn poll(
    c: Counts,
    w: &mut [u64; 320],
    v: &mut [u64; 112],
    d: &mut [u64; 32],
    b: &mut [u64; 112],
    told: &mut [u64; 560],
    eui: Option<u64>,
    nwk: Option<u16>,
    clock: u64,
) -> Did
    requires { SoundTables c w.old v.old d.old b.old }
    ensures { Does (poll_of (lent_model c w.old v.old d.old b.old) eui nwk clock) told.old w.new v.new d.new b.new told.new result }
{
    if doing::too_late(clock) {
        return doing::denied(c, Refusal::TimeTooLate);
    }
    let found = calls::poll(w, c.unicasts, eui, nwk, clock);
    doing::quiet(c, Answer::Replied(found))
}

// An end-to-end ack came.
pub fn aps_ack_received(
    c: Counts,
    w: &mut [u64; 320],
    v: &mut [u64; 112],
    d: &mut [u64; 32],
    b: &mut [u64; 112],
    told: &mut [u64; 560],
    key: AckKey,
) -> Did
    requires { SoundTables c w.old v.old d.old b.old }
    ensures { Does (ack_of (lent_model c w.old v.old d.old b.old) key) told.old w.new v.new d.new b.new told.new result }
{
    let x = calls::ack(w, c.unicasts, told, 0, key);
    Did {
        counts: doing::with_unicasts(c, x.sends),
        answer: Answer::Accepted,
        told: x.told,
    }
}

// A device is no child any more: what awaits its poll fails.
pub fn drop_indirect_unicasts(
    c: Counts,
    w: &mut [u64; 320],
    v: &mut [u64; 112],
    d: &mut [u64; 32],
    b: &mut [u64; 112],
    told: &mut [u64; 560],
    eui: Option<u64>,
    nwk: u16,
) -> Did
    requires { SoundTables c w.old v.old d.old b.old }
    ensures { Does (drop_of (lent_model c w.old v.old d.old b.old) eui nwk) told.old w.new v.new d.new b.new told.new result }
{
    let x = calls::drop_indirect(w, c.unicasts, told, 0, eui, nwk);
    Did {
        counts: doing::with_unicasts(c, x.sends),
        answer: Answer::Accepted,
        told: x.told,
    }
}

// The quorum for a broadcast was heard.
pub fn broadcast_delivered(
    c: Counts,
    w: &mut [u64; 320],
    v: &mut [u64; 112],
    d: &mut [u64; 32],
    b: &mut [u64; 112],
    told: &mut [u64; 560],
    key: QuorumKey,
) -> Did
    requires { SoundTables c w.old v.old d.old b.old }
    ensures { Does (delivered_of (lent_model c w.old v.old d.old b.old) key) told.old w.new v.new d.new b.new told.new result }
{
    let x = moves::delivered(b, c.broadcasts, told, 0, key);
    Did {
        counts: doing::with_broadcasts(c, x.sends),
        answer: Answer::Accepted,
        told: x.told,
    }
}
