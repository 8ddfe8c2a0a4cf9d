// Event 20: the held destinations, the keys that await their quorum, the short and the extended source-match set, in this order.
ghost use Rattle.std.specs.Prelude.{◌≡◌, ◌+◌, ◌≤◌, length, take};
ghost use Rattle.rows.specs.Tables.{live, Held};
ghost use Rattle.tables.specs.Layouts.{unicast_table, destination_table, broadcast_table};
ghost use Rattle.lent.specs.Fills.{Filled};
ghost use Rattle.answers.specs.Bytes.{Written};
ghost use Rattle.answers.specs.Items.{items_bytes};
ghost use Rattle.listings.specs.Maps.{MapSound};
ghost use Rattle.model.specs.Steps.{members_of};
ghost use Rattle.exchange.specs.Answering.{Answering};
ghost use Rattle.exchange.specs.Gathered.{Gathered, Few, Roomy, gathered_items, gathered_long, listed_items};

use lent::lists;
use model::Counts;
use sending::Book;

// How many there are of each.
#[derive(Clone, Copy)]
pub struct Sizes {
    pub destinations: usize,
    pub keys: usize,
    pub shorts: usize,
    pub longs: usize,
}

// One source-match set: the map is in order, so the call bars nothing.
fn members(
    w: &[u64; 320],
    n: usize,
    book: Book,
    eui: &[u64; 32],
    nwk: &[u16; 32],
    pairs: usize,
    set: &mut [u64; 32],
) -> usize
    requires held { Held unicast_table w.now n }
    requires map_sound { MapSound eui.now nwk.now pairs }
    ensures { Filled 0 (members_of book (take pairs eui.now) (take pairs nwk.now) (live unicast_table w.now n)) set.old set.new result }
{
    lists::poll_addresses(w, n, book, &eui[..pairs], &nwk[..pairs], set).unwrap_or(0)
}

// Each list into its array.
fn gather(
    c: Counts,
    w: &[u64; 320],
    d: &[u64; 32],
    b: &[u64; 112],
    eui: &[u64; 32],
    nwk: &[u16; 32],
    pairs: usize,
    ds: &mut [u16; 16],
    ks: &mut [u64; 16],
    ss: &mut [u64; 32],
    ls: &mut [u64; 32],
) -> Sizes
    requires held { Held unicast_table w.now c.unicasts }
    requires held_2 { Held destination_table d.now c.held }
    requires held_3 { Held broadcast_table b.now c.broadcasts }
    requires map_sound { MapSound eui.now nwk.now pairs }
    ensures { Gathered (live unicast_table w.now c.unicasts) (live destination_table d.now c.held) (live broadcast_table b.now c.broadcasts) (take pairs eui.now) (take pairs nwk.now) ds.old ks.old ss.old ls.old ds.new ks.new ss.new ls.new result }
{
    let destinations = lists::destinations(d, c.held, ds);
    let keys = lists::awaiting_quorum(b, c.broadcasts, ks);
    let shorts = members(w, c.unicasts, Book::Shorts, eui, nwk, pairs, ss);
    let longs = members(w, c.unicasts, Book::Longs, eui, nwk, pairs, ls);
    Sizes {
        destinations,
        keys,
        shorts,
        longs,
    }
}

// The gathered lists, and 129.
fn put_gathered(
    out: &mut [u8],
    at: usize,
    ds: &[u16; 16],
    ks: &[u64; 16],
    ss: &[u64; 32],
    ls: &[u64; 32],
    n: Sizes,
) -> usize
    requires roomy { Roomy ds.now ks.now ss.now ls.now n }
    requires n_in_bounds { at + length (items_bytes (gathered_items ds.now ks.now ss.now ls.now n)) ≤ length out.old }
    ensures { Written at (items_bytes (gathered_items ds.now ks.now ss.now ls.now n)) out.old out.new result }
{
    let k = listings::put_destinations(out, at, ds, n.destinations);
    let s = listings::put_keys(out, k, ks, n.keys);
    let l = listings::put_shorts(out, s, ss, n.shorts);
    let last = listings::put_longs(out, l, ls, n.longs);
    answers::put_done(out, last)
}

// How many bytes they take.
fn gathered_length(n: Sizes) -> usize
    requires { Few n }
    ensures { result ≡ gathered_long n }
{
    n.destinations * 3 + n.keys * 4 + n.shorts * 3 + n.longs * 9 + 1
}

pub(crate) fn answer_lists(
    out: &mut [u8],
    at: usize,
    c: Counts,
    w: &[u64; 320],
    d: &[u64; 32],
    b: &[u64; 112],
    eui: &[u64; 32],
    nwk: &[u16; 32],
    pairs: usize,
) -> usize
    requires held { Held unicast_table w.now c.unicasts }
    requires held_2 { Held destination_table d.now c.held }
    requires held_3 { Held broadcast_table b.now c.broadcasts }
    requires map_sound { MapSound eui.now nwk.now pairs }
    requires at_in_bounds { at + 6 ≤ length out.old }
    ensures { Answering (listed_items (live unicast_table w.now c.unicasts) (live destination_table d.now c.held) (live broadcast_table b.now c.broadcasts) (take pairs eui.now) (take pairs nwk.now)) at out.old out.new result }
{
    let mut ds = [0; 16];
    let mut ks = [0; 16];
    let mut ss = [0; 32];
    let mut ls = [0; 32];
    let n = gather(
        c, w, d, b, eui, nwk, pairs, &mut ds, &mut ks, &mut ss, &mut ls,
    );
    let long = gathered_length(n);
    if out.len() - at - 6 < long {
        return 0;
    }
    put_gathered(out, at, &ds, &ks, &ss, &ls, n)
}
