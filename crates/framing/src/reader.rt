// The reader: what stands at a place of a lent trace, and the body of a record as that very stretch of it.
ghost use Rattle.std.specs.Prelude.{◌≡◌, ◌-◌, ◌≤◌, length, take, drop};
ghost use Rattle.framing.specs.Reader.{stands_at};

use crate::{Standing, kinds};

pub fn stands_at(trace: &[u8], at: usize) -> Standing
    ensures { result ≡ stands_at trace.now at }
{
    if trace.len() <= at {
        return Standing::End;
    }
    let kind = trace[at];
    if kind == 0 || 22 < kind {
        return Standing::Unknown;
    }
    let start = at + 1;
    let next = start + usize::from(kinds::body_length(kind));
    if trace.len() < next {
        return Standing::Cut;
    }
    Standing::Record { kind, start, next }
}

pub fn record_at(trace: &[u8], start: usize, next: usize) -> &[u8]
    requires { (start ≤ next) × (next ≤ length trace.now) }
    ensures { result.now ≡ take (next - start) (drop start trace.now) }
{
    &trace[start..next]
}
