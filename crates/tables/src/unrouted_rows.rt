// The table of unrouted sends: 16 places of seven words, by id.
ghost use Rattle.std.specs.Prelude.{◌≡◌, ◌<◌, get_or, refl};
ghost use Rattle.records.specs.Records.{blank_unrouted};
ghost use Rattle.rows.specs.Tables.{rows_of};
ghost use Rattle.tables.specs.Layouts.{unrouted_head, unrouted_table};
ghost use Rattle.tables.specs.Laws.{unrouted_lawful, unrouted_width};

use crate::Record;
use records::Unrouted;

// What a scan reads of a record.
#[derive(Clone, Copy)]
pub struct UnroutedHead {
    pub id: u32,
    pub deadline: u64,
    pub destination: u16,
}

impl Record for Unrouted {
    ghost table = { unrouted_table };

    ghost WIDTH = { 7 };

    ghost ROOM = { 16 };

    const WIDTH: usize = 7;

    const ROOM: usize = 16;

    fn key(&self) -> u32 {
        self.id
    }

    fn read(row: &[u64]) -> Unrouted {
        let tags = row[4];
        Unrouted {
            id: (row[0] % 4294967296) as u32,
            frame: (row[1] % 4294967296) as u32,
            waiter: (row[2] % 4294967296) as u32,
            priority: codes::priority_of(tags % 8),
            confirm: codes::confirm_of(row[5], row[6]),
            destination: (tags / 8 % 65536) as u16,
            deadline: row[3],
        }
    }

    fn write(self, row: &mut [u64]) {
        let two = codes::confirm_words(self.confirm);
        let rank = u64::from(u8::from(self.priority));
        row[0] = u64::from(self.id);
        row[1] = u64::from(self.frame);
        row[2] = u64::from(self.waiter);
        row[3] = self.deadline;
        row[4] = rank + 8 * u64::from(self.destination);
        row[5] = two.first;
        row[6] = two.second;
    }

    ghost lawful = { unrouted_lawful };

    ghost width_is = { unrouted_width };

    ghost room_is = { refl };
}

// What a scan reads of the record at a place.
pub fn head(w: &[u64; 112], i: usize) -> UnroutedHead
    requires { i < 16 }
    ensures { result ≡ unrouted_head (get_or (rows_of unrouted_table w.now) i blank_unrouted) }
{
    let k = i * 7;
    UnroutedHead {
        id: (w[k] % 4294967296) as u32,
        deadline: w[k + 3],
        destination: (w[k + 4] / 8 % 65536) as u16,
    }
}
