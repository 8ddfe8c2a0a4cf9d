// The table of held destinations: 16 places of two words, by address.
ghost use Rattle.std.specs.Prelude.{refl};
ghost use Rattle.tables.specs.Layouts.{destination_table};
ghost use Rattle.tables.specs.Laws.{destination_lawful, destination_width};

use crate::Record;
use records::Destination;

impl Record for Destination {
    ghost table = { destination_table };

    ghost WIDTH = { 2 };

    ghost ROOM = { 16 };

    const WIDTH: usize = 2;

    const ROOM: usize = 16;

    fn key(&self) -> u32 {
        u32::from(self.address)
    }

    fn read(row: &[u64]) -> Destination {
        Destination {
            address: (row[0] % 65536) as u16,
            retries: (row[1] % 256) as u8,
        }
    }

    fn write(self, row: &mut [u64]) {
        row[0] = u64::from(self.address);
        row[1] = u64::from(self.retries);
    }

    ghost lawful = { destination_lawful };

    ghost width_is = { destination_width };

    ghost room_is = { refl };
}
