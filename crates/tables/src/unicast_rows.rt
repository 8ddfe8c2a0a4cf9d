// The table of unicasts: 32 places of ten words, by id.
ghost use Rattle.std.specs.Prelude.{◌≡◌, ◌<◌, get_or, refl};
ghost use Rattle.records.specs.Records.{blank_unicast};
ghost use Rattle.rows.specs.Tables.{rows_of};
ghost use Rattle.tables.specs.Layouts.{UnicastTagged, unicast_head, unicast_table};
ghost use Rattle.tables.specs.Laws.{unicast_lawful, unicast_width};

use crate::Record;
use records::{Address, Confirm, Priority, Stage, Unicast};

// What a scan reads of a record: all but its handles, its next hop and what confirms it.
#[derive(Clone, Copy)]
pub struct UnicastHead {
    pub id: u32,
    pub deadline: u64,
    pub priority: Priority,
    pub poll_address: Address,
    pub stage: Stage,
    pub copy_of: Option<u32>,
}

impl Record for Unicast {
    ghost table = { unicast_table };

    ghost WIDTH = { 10 };

    ghost ROOM = { 32 };

    const WIDTH: usize = 10;

    const ROOM: usize = 32;

    fn key(&self) -> u32 {
        self.id
    }

    fn read(row: &[u64]) -> Unicast {
        let tags = row[6];
        Unicast {
            id: (row[0] % 4294967296) as u32,
            frame: (row[1] % 4294967296) as u32,
            waiter: (row[2] % 4294967296) as u32,
            priority: codes::priority_of(tags / 32 % 8),
            confirm: codes::confirm_of(row[8], row[9]),
            next_hop: (tags / 65536 % 65536) as u16,
            poll_address: codes::address_of(tags / 8 % 4, row[5]),
            attempts_remaining: (tags / 256 % 256) as u8,
            stage: codes::stage_of(tags % 8, row[4]),
            deadline: row[3],
            copy_of: codes::opt_of(row[7]),
        }
    }

    fn write(self, row: &mut [u64]) {
        let two = codes::confirm_words(self.confirm);
        row[0] = u64::from(self.id);
        row[1] = u64::from(self.frame);
        row[2] = u64::from(self.waiter);
        row[3] = self.deadline;
        row[4] = codes::stage_time(self.stage);
        row[5] = codes::address_word(self.poll_address);
        row[6] = tags_of(self);
        row[7] = codes::opt_word(self.copy_of);
        row[8] = two.first;
        row[9] = two.second;
    }

    ghost lawful = { unicast_lawful };

    ghost width_is = { unicast_width };

    ghost room_is = { refl };
}

// What a scan reads of the record at a place.
pub fn head(w: &[u64; 320], i: usize) -> UnicastHead
    requires { i < 32 }
    ensures { result ≡ unicast_head (get_or (rows_of unicast_table w.now) i blank_unicast) }
{
    let k = i * 10;
    let tags = w[k + 6];
    UnicastHead {
        id: (w[k] % 4294967296) as u32,
        deadline: w[k + 3],
        priority: codes::priority_of(tags / 32 % 8),
        poll_address: codes::address_of(tags / 8 % 4, w[k + 5]),
        stage: codes::stage_of(tags % 8, w[k + 4]),
        copy_of: codes::opt_of(w[k + 7]),
    }
}

// What confirms the record at a place.
pub fn confirm(w: &[u64; 320], i: usize) -> Confirm
    requires { i < 32 }
    ensures { result ≡ (get_or (rows_of unicast_table w.now) i blank_unicast).confirm }
{
    let k = i * 10;
    codes::confirm_of(w[k + 8], w[k + 9])
}

// The stage of the record at a place.
pub fn stage(w: &[u64; 320], i: usize) -> Stage
    requires { i < 32 }
    ensures { result ≡ (get_or (rows_of unicast_table w.now) i blank_unicast).stage }
{
    let k = i * 10;
    codes::stage_of(w[k + 6] % 8, w[k + 4])
}

// The deadline of the record at a place.
pub fn deadline(w: &[u64; 320], i: usize) -> u64
    requires { i < 32 }
    ensures { result ≡ (get_or (rows_of unicast_table w.now) i blank_unicast).deadline }
{
    w[i * 10 + 3]
}

// The address that the record at a place is polled under.
pub fn address(w: &[u64; 320], i: usize) -> Address
    requires { i < 32 }
    ensures { result ≡ (get_or (rows_of unicast_table w.now) i blank_unicast).poll_address }
{
    let k = i * 10;
    codes::address_of(w[k + 6] / 8 % 4, w[k + 5])
}

fn tags_of(u: Unicast) -> u64
    ensures { UnicastTagged u result }
{
    let stage = codes::stage_tag(u.stage);
    let address = codes::address_tag(u.poll_address);
    // `as`, since the check finds alone then that the sum below fits; after `u64::from` it does not.
    let rank = u8::from(u.priority) as u64;
    let attempts = u.attempts_remaining as u64;
    let hop = u.next_hop as u64;
    stage + 8 * (address + 4 * (rank + 8 * (attempts + 256 * hop)))
}
