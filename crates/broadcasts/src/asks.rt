// The questions about the lent table: w holds n broadcasts. What is asked most reads the state of a copy and a deadline alone where
// these decide.
ghost use Rattle.std.specs.Prelude.{◌≡◌, ◌<◌, get_or};
ghost use Rattle.records.specs.Records.{blank_broadcast};
ghost use Rattle.rows.specs.Tables.{rows_of, live, Held};
ghost use Rattle.rows.specs.Moves.{any_of};
ghost use Rattle.tables.specs.Layouts.{broadcast_table, broadcast_head};
ghost use Rattle.casting.specs.Rules.{best_head, best_of, may_stir, wake_of, is_transmitting, awaited_head};

use casting::heads;
use records::{Broadcast, CopyState, QuorumKey};
use repeating::turns;
use tables::broadcast_rows;

// The better of the broadcast at a place and the best of those with higher ids. One that is not ready is not read further.
fn best_at(w: &[u64; 112], i: usize, clock: u64, best: Option<(u32, u8)>) -> Option<(u32, u8)>
    requires { i < 16 }
    ensures { result ≡ best_head clock (broadcast_head (get_or (rows_of broadcast_table w.now) i blank_broadcast)) best }
{
    let copy = broadcast_rows::copy(w, i);
    let deadline = broadcast_rows::deadline(w, i);
    if !heads::is_ready(copy, deadline, clock) {
        return best;
    }
    let h = broadcast_rows::head(w, i);
    heads::better_of(h.id, u8::from(h.priority), best)
}

// The best queued one: of the highest priority, and then of the lowest id. One past its deadline is left for the tick.
pub fn best_queued(w: &[u64; 112], n: usize, clock: u64) -> Option<(u32, u8)>
    requires { Held broadcast_table w.now n }
    ensures { result ≡ best_of clock (live broadcast_table w.now n) }
{
    (0..n)
        .rev()
        .fold(None, |best, i| best_at(w, i, clock, best))
}

// Whether a tick may change the broadcast at a place.
fn may_stir_at(w: &[u64; 112], i: usize, clock: u64) -> bool
    requires { i < 16 }
    ensures { result ≡ may_stir clock (get_or (rows_of broadcast_table w.now) i blank_broadcast) }
{
    let due = broadcast_rows::deadline(w, i) <= clock;
    due || (matches!(broadcast_rows::copy(w, i), CopyState::Idle)
        && heads::attempt_due(broadcast_rows::schedule(w, i), clock))
}

// Whether there is a broadcast that a tick may change.
pub fn any_stirs(w: &[u64; 112], n: usize, clock: u64) -> bool
    requires { Held broadcast_table w.now n }
    ensures { result ≡ any_of (may_stir clock) (live broadcast_table w.now n) }
{
    (0..n).any(|i| may_stir_at(w, i, clock))
}

// When a tick next has something to do.
pub fn next_wake(w: &[u64; 112], n: usize) -> Option<u64>
    requires { Held broadcast_table w.now n }
    ensures { result ≡ wake_of (live broadcast_table w.now n) }
{
    (0..n).rev().fold(
        None,
        |wake, i| heads::wake(broadcast_rows::head(w, i), wake),
    )
}

// Whether the broadcast with that id is in the radio.
pub fn is_transmitting(w: &[u64; 112], n: usize, id: u32) -> bool
    requires { Held broadcast_table w.now n }
    ensures { result ≡ is_transmitting id (live broadcast_table w.now n) }
{
    match tables::find::<Broadcast>(w, n, id) {
        None => false,
        Some(i) => {
            let h = broadcast_rows::head(w, i);
            turns::in_radio(h.copy)
        }
    }
}

// The key whose quorum the broadcast at a place waits for.
pub fn awaited_at(w: &[u64; 112], i: usize) -> Option<QuorumKey>
    requires { i < 16 }
    ensures { result ≡ awaited_head (broadcast_head (get_or (rows_of broadcast_table w.now) i blank_broadcast)) }
{
    heads::awaited(broadcast_rows::head(w, i))
}
