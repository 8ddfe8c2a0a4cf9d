// Fresh tables by value, and the questions to tables by value, which change nothing.
ghost use Rattle.std.specs.Prelude.{◌≡◌};
ghost use Rattle.rows.specs.Moves.{any_of};
ghost use Rattle.sending.specs.Rules.{pends};
ghost use Rattle.unrouted.specs.Rules.{is_held};
ghost use Rattle.model.specs.Model.{fresh_of, model_of, sends_of};
ghost use Rattle.model.specs.Calls.{wake_of};
ghost use Rattle.model.specs.Sound.{Sound};

use lent::ends;
use model::{Counts, Sends};
use records::{Address, Broadcast, Destination, Unicast, Unrouted};
use scanning::asks;

// Tables with no send; the first id they issue is given.
pub fn fresh(first: u32) -> Sends
    ensures value { result ≡ sends_of (fresh_of first) }
    ensures sound { Sound result }
{
    Sends {
        counts: Counts {
            next_id: first,
            unicasts: 0,
            unrouted: 0,
            held: 0,
            broadcasts: 0,
        },
        unicasts: tables::fresh::<Unicast, 320>(),
        unrouted: tables::fresh::<Unrouted, 112>(),
        held: tables::fresh::<Destination, 32>(),
        broadcasts: tables::fresh::<Broadcast, 112>(),
    }
}

// When a tick next has something to do, if ever.
pub fn next_wake(s: Sends) -> Option<u64>
    requires { Sound s }
    ensures { result ≡ wake_of (model_of s) }
{
    ends::next_wake(s.counts, &s.unicasts, &s.unrouted, &s.held, &s.broadcasts)
}

// Below and in `lists` a question takes the table that it asks out of the state: one lent as a part of the state has the whole copied.

// Whether the destination is held: its discovery is under way.
pub fn has_unrouted(s: Sends, destination: u16) -> bool
    requires { Sound s }
    ensures { result ≡ is_held destination (model_of s).held }
{
    let Sends { counts, held, .. } = s;
    unrouted::is_held(&held, counts.held, destination)
}

// Whether a send awaits a poll of that address, is queued for it or in the radio.
pub fn has_unicast_awaiting_poll(s: Sends, a: Address) -> bool
    requires { Sound s }
    ensures { result ≡ any_of (pends a) (model_of s).unicasts }
{
    let Sends {
        counts,
        unicasts,
        ..
    } = s;
    asks::has_awaiting(&unicasts, counts.unicasts, a)
}
