// The questions to the lent table, which change nothing: scans for the first, and folds over every send. What is asked most reads a
// send's stage and deadline alone where these decide.
ghost use Rattle.std.specs.Prelude.{◌≡◌, ◌<◌, get_or};
ghost use Rattle.records.specs.Records.{blank_unicast};
ghost use Rattle.rows.specs.Tables.{rows_of, live, Held};
ghost use Rattle.rows.specs.Moves.{first_at, any_of};
ghost use Rattle.tables.specs.Layouts.{unicast_table};
ghost use Rattle.sending.specs.Rules.{keyed, awaits, stirs, sought, pends, beside, sent_copy};
ghost use Rattle.sending.specs.Lists.{best_step, best_of, wake_of};

use records::{AckKey, Address, Priority, Stage};
use sending::Sought;
use tables::unicast_rows;

// Where the oldest send stands that an ack with that key confirms, in whatever stage.
pub fn first_keyed(w: &[u64; 320], n: usize, key: AckKey) -> Option<usize>
    requires { Held unicast_table w.now n }
    ensures { result ≡ first_at (keyed key) (live unicast_table w.now n) }
{
    (0..n).find(|i| turning::rules::is_keyed(unicast_rows::confirm(w, *i), key))
}

// Whether the send at a place awaits a poll of the device with these addresses.
fn awaited_at(w: &[u64; 320], at: usize, eui: Option<u64>, nwk: Option<u16>, clock: u64) -> bool
    requires { at < 32 }
    ensures { result ≡ awaits eui nwk clock (get_or (rows_of unicast_table w.now) at blank_unicast) }
{
    turning::rules::is_awaiting(unicast_rows::stage(w, at))
        && clock < unicast_rows::deadline(w, at)
        && asking::rules::is_under(unicast_rows::address(w, at), eui, nwk)
}

// Where the oldest send stands that awaits a poll of the device.
pub fn first_awaited(
    w: &[u64; 320],
    n: usize,
    eui: Option<u64>,
    nwk: Option<u16>,
    clock: u64,
) -> Option<usize>
    requires { Held unicast_table w.now n }
    ensures { result ≡ first_at (awaits eui nwk clock) (live unicast_table w.now n) }
{
    // a `for`: the place that is answered stands by itself, so that a slip there is a slip of value (edit poll_takes_another)
    for k in 0..n {
        if awaited_at(w, k, eui, nwk, clock) {
            return Some(k);
        }
    }
    None
}

// Whether a tick may change the send at a place.
fn stirs_at(w: &[u64; 320], i: usize, clock: u64) -> bool
    requires { i < 32 }
    ensures { result ≡ stirs clock (get_or (rows_of unicast_table w.now) i blank_unicast) }
{
    unicast_rows::deadline(w, i) <= clock
        || matches!(unicast_rows::stage(w, i), Stage::Retrying(at) if at <= clock)
}

// Whether there is a send that a tick may change.
pub fn any_stirs(w: &[u64; 320], n: usize, clock: u64) -> bool
    requires { Held unicast_table w.now n }
    ensures { result ≡ any_of (stirs clock) (live unicast_table w.now n) }
{
    (0..n).any(|i| stirs_at(w, i, clock))
}

fn any_such(w: &[u64; 320], n: usize, what: Sought) -> bool
    requires { Held unicast_table w.now n }
    ensures { result ≡ any_of (sought what) (live unicast_table w.now n) }
{
    (0..n).any(|i| asking::rules::is_sought(unicast_rows::head(w, i), what))
}

// Whether a send awaits, is queued or in the radio for a device under that address.
pub fn has_awaiting(w: &[u64; 320], n: usize, a: Address) -> bool
    requires { Held unicast_table w.now n }
    ensures { result ≡ any_of (pends a) (live unicast_table w.now n) }
{
    any_such(w, n, Sought::Pending(a))
}

// Whether a send other than that one keeps a frame pending for the address. None is pending for no address.
pub fn frame_pending(w: &[u64; 320], n: usize, id: u32, a: Address) -> bool
    requires { Held unicast_table w.now n }
    ensures { result ≡ any_of (beside id a) (live unicast_table w.now n) }
{
    match a {
        Address::Absent => false,
        Address::Short(_) | Address::Extended(_) => any_such(w, n, Sought::Beside(id, a)),
    }
}

// Whether a copy of that broadcast is in the radio.
pub fn copy_in_radio(w: &[u64; 320], n: usize, id: u32) -> bool
    requires { Held unicast_table w.now n }
    ensures { result ≡ any_of (sent_copy id) (live unicast_table w.now n) }
{
    any_such(w, n, Sought::SentCopy(id))
}

// The better of the send at a place and the best of those behind it.
fn best_at(
    w: &[u64; 320],
    i: usize,
    clock: u64,
    best: Option<(u32, Priority)>,
) -> Option<(u32, Priority)>
    requires { i < 32 }
    ensures { result ≡ best_step clock (get_or (rows_of unicast_table w.now) i blank_unicast) best }
{
    if turning::rules::is_queued(unicast_rows::stage(w, i))
        && clock < unicast_rows::deadline(w, i)
    {
        asking::rules::better_of(unicast_rows::head(w, i), best)
    } else {
        best
    }
}

// The queued, unexpired send of highest priority, and of these the oldest.
pub fn best_queued(w: &[u64; 320], n: usize, clock: u64) -> Option<(u32, Priority)>
    requires { Held unicast_table w.now n }
    ensures { result ≡ best_of clock (live unicast_table w.now n) }
{
    (0..n)
        .rev()
        .fold(None, |best, i| best_at(w, i, clock, best))
}

// When the next deadline or retry is due.
pub fn next_wake(w: &[u64; 320], n: usize) -> Option<u64>
    requires { Held unicast_table w.now n }
    ensures { result ≡ wake_of (live unicast_table w.now n) }
{
    (0..n).rev().fold(None, |wake, i| {
        asking::rules::wake_with(unicast_rows::head(w, i), wake)
    })
}
