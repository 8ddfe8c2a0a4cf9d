// The lists that a call gives: live sends as they are abandoned; and into a lent array, whose numbers past those given stay as
// they came, the held destinations, the awaited keys, and the members of a source-match set.
ghost use Rattle.std.specs.Prelude.{◌+◌, ◌≤◌, ◌<◌, [], ◌∷◌, map};
ghost use Rattle.records.specs.Records.{unicast_entry, unrouted_entry, broadcast_entry, destination_address};
ghost use Rattle.codes.specs.Codes.{quorum_word};
ghost use Rattle.rows.specs.Tables.{live, Held};
ghost use Rattle.tables.specs.Layouts.{unicast_table, unrouted_table, destination_table, broadcast_table};
ghost use Rattle.casting.specs.Rules.{listed, awaited_of};
ghost use Rattle.model.specs.Steps.{members_of};
ghost use Rattle.doing.specs.Parts.{Listed};
ghost use Rattle.lent.specs.Fills.{Filled, Matching};

use broadcasts::asks;
use records::{Broadcast, Entry, QuorumKey, Unicast, Unrouted};
use scanning::sets;
use sending::Book;

// Lists one send: its id and its waiter.
fn list_one(list: &mut [u64; 128], at: usize, e: Entry)
    requires { at < 64 }
    ensures { Listed at (e ∷ []) list.old list.new (at + 1) }
{
    let k = at * 2;
    list[k] = u64::from(e.id);
    list[k + 1] = u64::from(e.waiter);
}

// Lists the unicasts from place `at` on.
pub(crate) fn list_unicasts(w: &[u64; 320], n: usize, list: &mut [u64; 128], at: usize) -> usize
    requires held { Held unicast_table w.now n }
    requires n_bound { at + n ≤ 64 }
    ensures { Listed at (map unicast_entry (live unicast_table w.now n)) list.old list.new result }
{
    for i in 0..n {
        let u = tables::load::<Unicast>(w, i);
        list_one(list, at + i, Entry::from(u));
    }
    at + n
}

// Lists the unrouted sends from place `at` on.
pub(crate) fn list_unrouted(w: &[u64; 112], n: usize, list: &mut [u64; 128], at: usize) -> usize
    requires held { Held unrouted_table w.now n }
    requires n_bound { at + n ≤ 64 }
    ensures { Listed at (map unrouted_entry (live unrouted_table w.now n)) list.old list.new result }
{
    for i in 0..n {
        let u = tables::load::<Unrouted>(w, i);
        list_one(list, at + i, Entry::from(u));
    }
    at + n
}

// Lists the broadcasts from place `at` on.
pub(crate) fn list_broadcasts(w: &[u64; 112], n: usize, list: &mut [u64; 128], at: usize) -> usize
    requires held { Held broadcast_table w.now n }
    requires n_bound { at + n ≤ 64 }
    ensures { Listed at (map broadcast_entry (live broadcast_table w.now n)) list.old list.new result }
{
    for i in 0..n {
        let u = tables::load::<Broadcast>(w, i);
        list_one(list, at + i, Entry::from(u));
    }
    at + n
}

// ---- questions

// The held destinations, rising.
pub fn destinations(d: &[u64; 32], k: usize, out: &mut [u16; 16]) -> usize
    requires { Held destination_table d.now k }
    ensures { Filled 0 (map destination_address (live destination_table d.now k)) out.old out.new result }
{
    for i in 0..k {
        out[i] = unrouted::destination_at(d, i);
    }
    k
}

// The key, if there is one, is put at the next place.
fn put_awaited(out: &mut [u64; 16], m: usize, x: Option<QuorumKey>) -> usize
    requires { m < 16 }
    ensures { Filled m (map quorum_word (listed x [])) out.old out.new result }
{
    match x {
        None => m,
        Some(k) => {
            out[m] = codes::quorum_word(k);
            m + 1
        }
    }
}

// The keys, by the broadcast's id, whose quorum is awaited, each as one word.
pub fn awaiting_quorum(b: &[u64; 112], n: usize, out: &mut [u64; 16]) -> usize
    requires { Held broadcast_table b.now n }
    ensures { Filled 0 (map quorum_word (awaited_of (live broadcast_table b.now n))) out.old out.new result }
{
    let mut m = 0;
    for i in 0..n {
        m = put_awaited(out, m, asks::awaited_at(b, i));
    }
    m
}

// The members of a source-match set, rising, each once.
fn members(
    w: &[u64; 320],
    n: usize,
    book: Book,
    eui: &[u64],
    nwk: &[u16],
    out: &mut [u64; 32],
) -> usize
    requires { Held unicast_table w.now n }
    ensures { Filled 0 (members_of book eui.now nwk.now (live unicast_table w.now n)) out.old out.new result }
{
    let mut last = None;
    for m in 0..32 {
        match sets::next_member(w, n, book, eui, nwk, last) {
            None => return m,
            Some(x) => {
                out[m] = x;
                last = Some(x);
            }
        }
    }
    32
}

// The members of a source-match set, refused where the slices are no address map.
pub fn poll_addresses(
    w: &[u64; 320],
    n: usize,
    book: Book,
    eui: &[u64],
    nwk: &[u16],
    out: &mut [u64; 32],
) -> Option<usize>
    requires { Held unicast_table w.now n }
    ensures { Matching book eui.now nwk.now (live unicast_table w.now n) out.old out.new result }
{
    if sets::map_fits(eui, nwk) {
        Some(members(w, n, book, eui, nwk, out))
    } else {
        None
    }
}
