// What the calls over lent tables share: w holds the unicasts, v the unrouted sends, d the held destinations, b the broadcasts,
// each as many as the counts say. Each call checks its own input; refused, it leaves every lent word as it came.
#![tactic(auto)]

ghost use Rattle.std.specs.Prelude.{◌≡◌};
ghost use Rattle.model.specs.Calls.{late};
ghost use Rattle.doing.specs.Parts.{denied_by, quietly, with_unicast_count, with_broadcast_count};

use model::{Answer, Counts, Did};
use records::Refusal;

// A time past 2^62 is not taken.
pub fn too_late(clock: u64) -> bool
    ensures { result ≡ late clock }
{
    4611686018427387904 < clock
}

// Nothing is altered, nothing is told.
pub fn denied(c: Counts, x: Refusal) -> Did
    ensures { result ≡ denied_by c x }
{
    quiet(c, Answer::Denied(x))
}

// Nothing is told.
pub fn quiet(c: Counts, a: Answer) -> Did
    ensures { result ≡ quietly c a }
{
    Did {
        counts: c,
        answer: a,
        told: 0,
    }
}

pub fn with_unicasts(c: Counts, n: usize) -> Counts
    ensures { result ≡ with_unicast_count c n }
{
    Counts { unicasts: n, ..c }
}

pub fn with_broadcasts(c: Counts, n: usize) -> Counts
    ensures { result ≡ with_broadcast_count c n }
{
    Counts { broadcasts: n, ..c }
}
