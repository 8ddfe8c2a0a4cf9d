// Id-ordered fixed tables, held as words that are lent and changed in place: find, insert, remove, and the record at a place.
#![tactic(auto)]

ghost use Rattle.std.specs.Prelude.{◌≡◌, ◌-◌, ◌*◌, ◌<◌, ◌≤◌, ℕ, [], length, get_or, set};
ghost use Rattle.rows.specs.Lists.{find_by, remove_at, remove_by};
ghost use Rattle.rows.specs.Tables.{Table, rows_of, live, Held, Holds, Stands, Entered, Put};
ghost use Rattle.rows.proofs.Held.{Lawful};

use rows::Slot;

pub mod broadcast_rows;
pub mod destination_rows;
pub mod unicast_rows;
pub mod unrouted_rows;

// How many sends are left in a table, and the next place in the buffer of what is told.
#[derive(Clone, Copy)]
pub struct Counts {
    pub sends: usize,
    pub told: usize,
}

// A record that a table holds: its key, and how it lies in the words of a row. The functions below serve every such record.
pub trait Record: Copy {
    // The kind of table that such records are kept in.
    ghost table: { Table Self };

    ghost WIDTH: { ℕ };

    ghost ROOM: { ℕ };

    // How many words a row has.
    const WIDTH: usize;

    // How many rows a table has.
    const ROOM: usize;

    // The id or address that records are found by. They stand in rising order of it.
    fn key(&self) -> u32
        ensures { result ≡ table.key self.now };

    // The record that a row says.
    fn read(row: &[u64]) -> Self
        requires { length row.now ≡ WIDTH }
        ensures { result ≡ table.layout.record_of row.now };

    // The record is written over a row, which says it again.
    fn write(self, row: &mut [u64])
        requires { length row.old ≡ WIDTH }
        ensures words { row.new ≡ table.layout.words_of self }
        ensures back { table.layout.record_of (table.layout.words_of self) ≡ self };

    ghost lawful: { Lawful table };

    ghost width_is: { table.layout.width ≡ WIDTH };

    ghost room_is: { table.room ≡ ROOM };
}

// The table with no record, where N is what it takes.
pub fn fresh<R: Record, const N: usize>() -> [u64; N]
    ensures { N ≡ R.ROOM * R.WIDTH → Holds R.table result 0 [] }
{
    [0; N]
}

// The record at a place.
pub fn load<R: Record>(w: &[u64], i: usize) -> R
    requires there { i < R.ROOM }
    requires long { R.ROOM * R.WIDTH ≤ length w.now }
    ensures { result ≡ get_or (rows_of R.table w.now) i R.table.blank }
{
    let from = i * R::WIDTH;
    R::read(&w[from..from + R::WIDTH])
}

fn put<R: Record>(w: &mut [u64], i: usize, u: R)
    requires there { i < R.ROOM }
    requires long { R.ROOM * R.WIDTH ≤ length w.old }
    ensures { Put R.table w.old i u w.new }
{
    let from = i * R::WIDTH;
    u.write(&mut w[from..from + R::WIDTH]);
}

// The record is put in the place of the one at i, which has its key.
pub fn store<R: Record>(w: &mut [u64], n: usize, i: usize, u: R)
    requires held { Held R.table w.old n }
    requires stands { Stands R.table w.old n i u }
    ensures { Holds R.table w.new n (set (live R.table w.old n) i u) }
{
    put(w, i, u);
}

// Where the record with that key stands.
pub fn find<R: Record>(w: &[u64], n: usize, key: u32) -> Option<usize>
    requires { Held R.table w.now n }
    ensures { result ≡ find_by R.table.key key (live R.table w.now n) }
{
    rows::seek(w, R::WIDTH, n, u64::from(key))
}

// The record enters under its key, in the place of the one that has it; with no free place it is refused.
pub fn insert<R: Record>(w: &mut [u64], n: usize, u: R) -> Option<usize>
    requires { Held R.table w.old n }
    ensures { Entered R.table w.old n u w.new result }
{
    match rows::enter(w, R::WIDTH, R::ROOM, n, u64::from(u.key())) {
        Slot::Shut => None,
        Slot::Over(i) => {
            put(w, i, u);
            Some(n)
        }
        Slot::New(i) => {
            put(w, i, u);
            Some(n + 1)
        }
    }
}

// The record with that key is taken out, if there is one; answers how many are left.
pub fn remove<R: Record>(w: &mut [u64], n: usize, key: u32) -> usize
    requires { Held R.table w.old n }
    ensures { Holds R.table w.new result (remove_by R.table.key key (live R.table w.old n)) }
{
    rows::leave(w, R::WIDTH, n, u64::from(key))
}

// The record at a place is taken out.
pub fn remove_at<R: Record>(w: &mut [u64], n: usize, i: usize)
    requires held { Held R.table w.old n }
    requires i_lt_n { i < n }
    ensures { Holds R.table w.new (n - 1) (remove_at i (live R.table w.old n)) }
{
    rows::close(w, R::WIDTH, n, i);
}
