// What a trace answers beside the tables' calls: a list of numbers out of a lent array, one item for each of its first n places.
// Each writer answers the next place; all else of the output stays. One loop for all would take a closure that writes the output and
// a list of items in its contract; two lines for each are plainer.
#![tactic(auto)]

ghost use Rattle.std.specs.Prelude.{◌+◌, ◌*◌, ◌≤◌, length};
ghost use Rattle.answers.specs.Bytes.{Written};
ghost use Rattle.answers.specs.Items.{items_bytes};
ghost use Rattle.listings.specs.Listings.{short_items, long_items, destination_items, key_items, abandoned_items, wake_items};

use answers::parts;

pub mod maps;

// 136 for each: the members of the short set.
pub fn put_shorts(out: &mut [u8], at: usize, xs: &[u64; 32], n: usize) -> usize
    requires n_bound { n ≤ 32 }
    requires n_in_bounds { n ≤ length xs.now }
    requires n_in_bounds_2 { at + length (items_bytes (short_items xs.now n)) ≤ length out.old }
    ensures { Written at (items_bytes (short_items xs.now n)) out.old out.new result }
{
    let mut next = at;
    for x in &xs[..n] {
        next = answers::put_short(out, next, (*x % 65536) as u16);
    }
    next
}

// 137 for each: the members of the extended set.
pub fn put_longs(out: &mut [u8], at: usize, xs: &[u64; 32], n: usize) -> usize
    requires n_bound { n ≤ 32 }
    requires n_in_bounds { n ≤ length xs.now }
    requires n_in_bounds_2 { at + length (items_bytes (long_items xs.now n)) ≤ length out.old }
    ensures { Written at (items_bytes (long_items xs.now n)) out.old out.new result }
{
    let mut next = at;
    for x in &xs[..n] {
        next = answers::put_extended(out, next, *x);
    }
    next
}

// 140 for each: the held destinations.
pub fn put_destinations(out: &mut [u8], at: usize, xs: &[u16; 16], n: usize) -> usize
    requires n_bound { n ≤ 16 }
    requires n_in_bounds { n ≤ length xs.now }
    requires n_in_bounds_2 { at + length (items_bytes (destination_items xs.now n)) ≤ length out.old }
    ensures { Written at (items_bytes (destination_items xs.now n)) out.old out.new result }
{
    let mut next = at;
    for x in &xs[..n] {
        next = answers::put_destination(out, next, *x);
    }
    next
}

// 138 for each: the keys whose quorum is awaited, each out of one word.
pub fn put_keys(out: &mut [u8], at: usize, xs: &[u64; 16], n: usize) -> usize
    requires n_bound { n ≤ 16 }
    requires n_in_bounds { n ≤ length xs.now }
    requires n_in_bounds_2 { at + length (items_bytes (key_items xs.now n)) ≤ length out.old }
    ensures { Written at (items_bytes (key_items xs.now n)) out.old out.new result }
{
    let mut next = at;
    for x in &xs[..n] {
        next = parts::put_key(out, next, codes::quorum_of(*x));
    }
    next
}

// 139 for each: the sends that an abandon listed, id and waiter out of two words.
pub fn put_abandoned(out: &mut [u8], at: usize, xs: &[u64; 128], n: usize) -> usize
    requires n_bound { n ≤ 64 }
    requires n_in_bounds { n * 2 ≤ length xs.now }
    requires n_in_bounds_2 { at + length (items_bytes (abandoned_items xs.now n)) ≤ length out.old }
    ensures { Written at (items_bytes (abandoned_items xs.now n)) out.old out.new result }
{
    let mut next = at;
    for i in 0..n {
        let id = (xs[i * 2] % 4294967296) as u32;
        let waiter = (xs[i * 2 + 1] % 4294967296) as u32;
        next = answers::put_abandonment(out, next, id, waiter);
    }
    next
}

// 135 with the time of the next wake, or nothing.
pub fn put_wake(out: &mut [u8], at: usize, o: Option<u64>) -> usize
    requires { at + length (items_bytes (wake_items o)) ≤ length out.old }
    ensures { Written at (items_bytes (wake_items o)) out.old out.new result }
{
    match o {
        None => at,
        Some(t) => answers::put_time(out, at, t),
    }
}
