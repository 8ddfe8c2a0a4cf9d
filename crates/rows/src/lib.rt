// Rows of words in a lent slice: row i is the `width` words from i * width on, and its first word is its key. One search and
// two moves that serve every table; and what a rule answers for a record of one.
#![tactic(auto)]

ghost use Rattle.std.specs.Prelude.{◌≡◌, ◌+◌, ◌*◌, ◌≤◌, ◌<◌, length};
ghost use Rattle.rows.specs.Lists.{place_of};
ghost use Rattle.rows.specs.Rows.{first_word, rows_from, itself, spot_in, place_of_spot, Searched, closed, opened, Slotted, Unslotted};

use records::Verdict;

// What becomes of one record: it stays, perhaps changed; it stays, and its handoff is told; or it is settled, its handoff told
// again first or not, with its verdict and the hop at which its attempts ran out.
#[derive(Clone, Copy)]
pub enum Turn<T> {
    Keeps(T),
    HandsOff(T),
    Settles(bool, Verdict, Option<u16>),
}

// Where a row may be written: nowhere, over the one with its key, or at a new place.
#[derive(Clone, Copy)]
pub enum Slot {
    Shut,
    Over(usize),
    New(usize),
}

// Row i of n is taken out: the later ones move down, and the last place is cleared.
pub fn close(w: &mut [u64], width: usize, n: usize, i: usize)
    requires { (i < n) × (n * width ≤ length w.old) }
    ensures { w.new ≡ closed width n i w.old }
{
    let end = n * width;
    let to = i * width;
    w.copy_within(to + width..end, to);
    w[end - width..end].fill(0);
}

// A place is made at row i of n: the rows from there on move up.
pub fn open(w: &mut [u64], width: usize, n: usize, i: usize)
    requires { (i ≤ n) × ((n + 1) * width ≤ length w.old) }
    ensures { w.new ≡ opened width n i w.old }
{
    let from = i * width;
    w.copy_within(from..n * width, from + width);
}

// How many of the first n rows have a key below `key`: where a row with that key stands, or would. A slice's own
// `partition_point` looks at elements one by one, and a row is several words, so the search is written out.
pub fn below(w: &[u64], width: usize, n: usize, key: u64) -> usize
    requires { Searched width n w.now }
    ensures { result ≡ place_of first_word key (rows_from width itself n w.now) }
{
    let mut lo = 0;
    let mut hi = n;
    while lo < hi {
        let mid = lo + (hi - lo) / 2;
        if w[mid * width] < key {
            lo = mid + 1;
        } else {
            hi = mid;
        }
    }
    lo
}

// Where among the first n rows the one with that key stands, or where it would.
pub fn find(w: &[u64], width: usize, n: usize, key: u64) -> Result<usize, usize>
    requires { Searched width n w.now }
    ensures { result ≡ spot_in key (rows_from width itself n w.now) }
{
    let at = below(w, width, n, key);
    if at < n && w[at * width] == key {
        Ok(at)
    } else {
        Err(at)
    }
}

// The same, as an answer.
pub fn seek(w: &[u64], width: usize, n: usize, key: u64) -> Option<usize>
    requires { Searched width n w.now }
    ensures { result ≡ place_of_spot (spot_in key (rows_from width itself n w.now)) }
{
    find(w, width, n, key).ok()
}

// Makes a place for a row with that key among n of `room` rows.
pub fn enter(w: &mut [u64], width: usize, room: usize, n: usize, key: u64) -> Slot
    requires searched { Searched width n w.old }
    requires n_le_room { (n ≤ room) × (room * width ≤ length w.old) }
    ensures { Slotted width room n key w.old w.new result }
{
    match find(w, width, n, key) {
        Ok(i) => Slot::Over(i),
        Err(_) if room <= n => Slot::Shut,
        Err(i) => {
            open(w, width, n, i);
            Slot::New(i)
        }
    }
}

// Takes out the row with that key; answers how many rows are left.
pub fn leave(w: &mut [u64], width: usize, n: usize, key: u64) -> usize
    requires { Searched width n w.old }
    ensures { Unslotted width n key w.old w.new result }
{
    match find(w, width, n, key) {
        Ok(i) => {
            close(w, width, n, i);
            n - 1
        }
        Err(_) => n,
    }
}
