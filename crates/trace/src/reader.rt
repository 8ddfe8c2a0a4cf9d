// A reader holds a lent trace and a place in it; each function over one only passes on what framing::reader does. `standing_at` and
// `body_at` make a reader of plain parameters and ask it.
ghost use Rattle.std.specs.Prelude.{◌≡◌, ◌-◌, ◌≤◌, length, take, drop};
ghost use Rattle.framing.specs.Reader.{stands_at};
ghost use Rattle.trace.specs.Reading.{records_in};

use framing::{Standing, reader};

#[derive(Clone, Copy)]
pub struct Reader<'a> {
    pub trace: &'a [u8],
    pub at: usize,
}

// A trace is read from its first byte.
pub fn opened<'a>(trace: &'a [u8]) -> Reader<'a>
    ensures { (result.trace ≡ trace.entry) × (result.at ≡ 0) }
{
    Reader { trace, at: 0 }
}

// What stands here.
pub fn stands<'a>(r: Reader<'a>) -> Standing
    ensures { result ≡ stands_at r.entry.trace.now r.entry.at }
{
    reader::stands_at(r.trace, r.at)
}

// A record's body: that very stretch of the trace, which outlives the reader.
pub fn body<'a>(r: Reader<'a>, start: usize, next: usize) -> &'a [u8]
    requires { (start ≤ next) × (next ≤ length r.trace.now) }
    ensures { result.now ≡ take (next - start) (drop start r.entry.trace.now) }
{
    reader::record_at(r.trace, start, next)
}

// The same trace, read from another place on.
pub fn moved<'a>(r: Reader<'a>, next: usize) -> Reader<'a>
    ensures { (result.trace ≡ r.entry.trace) × (result.at ≡ next) }
{
    Reader { at: next, ..r }
}

// ---- with plain parameters

pub fn standing_at(trace: &[u8], at: usize) -> Standing
    ensures { result ≡ stands_at trace.now at }
{
    stands(moved(opened(trace), at))
}

pub fn body_at(trace: &[u8], start: usize, next: usize) -> &[u8]
    requires { (start ≤ next) × (next ≤ length trace.now) }
    ensures { result.now ≡ take (next - start) (drop start trace.now) }
{
    body(opened(trace), start, next)
}

// How many whole records stand before the trace ends, is cut or has a kind of no event.
pub fn count_records(trace: &[u8]) -> usize
    ensures { result ≡ records_in trace.now }
{
    let mut at = 0;
    let mut n = 0;
    // a while: each record says where the next one starts
    while let Standing::Record { next, .. } = standing_at(trace, at) {
        at = next;
        n += 1;
    }
    n
}
