// The walk over a trace's records: one after the other, on fresh tables, their answers into a lent output, and last the end.
#![tactic(auto)]

ghost use Rattle.std.specs.Prelude.{◌≡◌, ◌+◌, ◌≤◌, length};
ghost use Rattle.model.specs.Model.{fresh_of, counts_of};
ghost use Rattle.answers.specs.Bytes.{Written};
ghost use Rattle.answers.specs.Items.{end_bytes};
ghost use Rattle.runs.specs.Run.{Ran};

use framing::{Standing, reader};
use model::Counts;
use records::{Broadcast, Destination, Settings, Unicast, Unrouted};

// No send is there, and the first id is 0.
fn no_sends() -> Counts
    ensures { result ≡ counts_of (fresh_of 0) }
{
    Counts {
        next_id: 0,
        unicasts: 0,
        unrouted: 0,
        held: 0,
        broadcasts: 0,
    }
}

// The end record.
pub fn end(out: &mut [u8], at: usize, status: u8, consumed: usize) -> usize
    requires at_in_bounds { at + 6 ≤ length out.old }
    requires consumed_bound { consumed ≤ 65536 }
    ensures { Written at (end_bytes status consumed) out.old out.new result }
{
    answers::parts::put_end(out, at, status, consumed as u32)
}

// The tables, settings and map stand here and are lent to each turn; an event whose answers do not fit ends the run, and with it
// what the turn did to them.
pub fn walk(trace: &[u8], out: &mut [u8]) -> usize
    requires in_bounds { 6 ≤ length out.old }
    requires trace_len_bound { length trace.now ≤ 65536 }
    ensures { Ran trace.now out.old result out.new }
{
    let mut w = tables::fresh::<Unicast, 320>();
    let mut v = tables::fresh::<Unrouted, 112>();
    let mut d = tables::fresh::<Destination, 32>();
    let mut b = tables::fresh::<Broadcast, 112>();
    let mut told = [0; 560];
    let mut eui = [0; 32];
    let mut nwk = [0; 32];
    let mut c = no_sends();
    let mut s = Settings::default();
    let mut pairs = 0;
    let mut at = 0;
    let mut o = 0;
    // nothing is counted: each record says where the next one starts, and the loop ends where none does
    loop {
        match reader::stands_at(trace, at) {
            Standing::End => return end(out, o, 0, at),
            Standing::Unknown => return end(out, o, 12, at),
            Standing::Cut => return end(out, o, 13, at),
            Standing::Record { kind, start, next } => {
                let body = reader::record_at(trace, start, next);
                let t = if exchange::is_own(kind) {
                    exchange::serve(
                        c, &mut w, &mut v, &mut d, &mut b, &mut told, s, &mut eui, &mut nwk, pairs,
                        out, o, kind, body,
                    )
                } else {
                    exchange::call(
                        c, &mut w, &mut v, &mut d, &mut b, &mut told, s, &mut eui, &mut nwk, pairs,
                        out, o, kind, body,
                    )
                };
                if t.wrote == 0 {
                    return end(out, o, 15, at);
                }
                c = t.counts;
                s = t.settings;
                pairs = t.pairs;
                o = t.wrote;
                at = next;
            }
        }
    }
}
