// The table of broadcasts: 16 places of seven words, by id.
ghost use Rattle.std.specs.Prelude.{◌≡◌, ◌<◌, get_or, refl};
ghost use Rattle.records.specs.Records.{blank_broadcast};
ghost use Rattle.rows.specs.Tables.{rows_of};
ghost use Rattle.tables.specs.Layouts.{BroadcastTagged, broadcast_head, broadcast_table};
ghost use Rattle.tables.specs.Laws.{broadcast_lawful, broadcast_width};

use crate::Record;
use records::{Broadcast, CopyState, Priority, Schedule};

// What a scan reads of a record: all but its handles, its handoff and its last error.
#[derive(Clone, Copy)]
pub struct BroadcastHead {
    pub id: u32,
    pub deadline: u64,
    pub priority: Priority,
    pub schedule: Schedule,
    pub copy: CopyState,
    pub quorum_heard: bool,
}

impl Record for Broadcast {
    ghost table = { broadcast_table };

    ghost WIDTH = { 7 };

    ghost ROOM = { 16 };

    const WIDTH: usize = 7;

    const ROOM: usize = 16;

    fn key(&self) -> u32 {
        self.id
    }

    fn read(row: &[u64]) -> Broadcast {
        let tags = row[6];
        Broadcast {
            id: (row[0] % 4294967296) as u32,
            frame: (row[1] % 4294967296) as u32,
            waiter: (row[2] % 4294967296) as u32,
            priority: codes::priority_of(tags % 8),
            schedule: codes::schedule_of(tags / 128 % 4, tags / 512 % 256, row[5], row[4]),
            copy: codes::copy_of(tags / 8 % 4),
            handed_off: tags / 32 % 2 == 1,
            quorum_heard: tags / 64 % 2 == 1,
            last_error: codes::opt_of(tags / 131072 % 131072),
            deadline: row[3],
        }
    }

    fn write(self, row: &mut [u64]) {
        row[0] = u64::from(self.id);
        row[1] = u64::from(self.frame);
        row[2] = u64::from(self.waiter);
        row[3] = self.deadline;
        row[4] = codes::schedule_next(self.schedule);
        row[5] = codes::schedule_what(self.schedule);
        row[6] = tags_of(self);
    }

    ghost lawful = { broadcast_lawful };

    ghost width_is = { broadcast_width };

    ghost room_is = { refl };
}

// What a scan reads of the record at a place.
pub fn head(w: &[u64; 112], i: usize) -> BroadcastHead
    requires { i < 16 }
    ensures { result ≡ broadcast_head (get_or (rows_of broadcast_table w.now) i blank_broadcast) }
{
    let k = i * 7;
    let tags = w[k + 6];
    BroadcastHead {
        id: (w[k] % 4294967296) as u32,
        deadline: w[k + 3],
        priority: codes::priority_of(tags % 8),
        schedule: codes::schedule_of(tags / 128 % 4, tags / 512 % 256, w[k + 5], w[k + 4]),
        copy: codes::copy_of(tags / 8 % 4),
        quorum_heard: tags / 64 % 2 == 1,
    }
}

// The schedule of the record at a place.
pub fn schedule(w: &[u64; 112], i: usize) -> Schedule
    requires { i < 16 }
    ensures { result ≡ (get_or (rows_of broadcast_table w.now) i blank_broadcast).schedule }
{
    let k = i * 7;
    let tags = w[k + 6];
    codes::schedule_of(tags / 128 % 4, tags / 512 % 256, w[k + 5], w[k + 4])
}

// The state of the copy of the record at a place.
pub fn copy(w: &[u64; 112], i: usize) -> CopyState
    requires { i < 16 }
    ensures { result ≡ (get_or (rows_of broadcast_table w.now) i blank_broadcast).copy }
{
    codes::copy_of(w[i * 7 + 6] / 8 % 4)
}

// The deadline of the record at a place.
pub fn deadline(w: &[u64; 112], i: usize) -> u64
    requires { i < 16 }
    ensures { result ≡ (get_or (rows_of broadcast_table w.now) i blank_broadcast).deadline }
{
    w[i * 7 + 3]
}

fn tags_of(b: Broadcast) -> u64
    ensures { BroadcastTagged b result }
{
    let rank = u64::from(u8::from(b.priority));
    let copy = codes::copy_tag(b.copy);
    let handed = u64::from(b.handed_off);
    let heard = u64::from(b.quorum_heard);
    let kind = codes::schedule_tag(b.schedule);
    let copies = codes::schedule_copies(b.schedule);
    let last = codes::opt_word(b.last_error);
    rank + 8 * (copy + 4 * (handed + 2 * (heard + 2 * (kind + 4 * (copies + 256 * last)))))
}
