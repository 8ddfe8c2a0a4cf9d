// The blank record of each type, of zeros and first variants: what stands in a free place of a table. And what a record is
// known by.
ghost use Rattle.std.specs.Prelude.{◌≡◌};
ghost use Rattle.records.specs.Records.{blank_unicast, blank_unrouted, blank_broadcast, blank_destination, unicast_entry, unrouted_entry, broadcast_entry};

use crate::{
    Address, Broadcast, Confirm, CopyState, Destination, Entry, Priority, Schedule, Stage, Unicast,
    Unrouted,
};

impl Default for Unicast {
    ghost is_default = { λ blank. blank ≡ blank_unicast };

    fn default() -> Unicast {
        Unicast {
            id: 0,
            frame: 0,
            waiter: 0,
            priority: Priority::Background,
            confirm: Confirm::OnHandoff,
            next_hop: 0,
            poll_address: Address::Absent,
            attempts_remaining: 0,
            stage: Stage::Queued,
            deadline: 0,
            copy_of: None,
        }
    }
}

impl Default for Unrouted {
    ghost is_default = { λ blank. blank ≡ blank_unrouted };

    fn default() -> Unrouted {
        Unrouted {
            id: 0,
            frame: 0,
            waiter: 0,
            priority: Priority::Background,
            confirm: Confirm::OnHandoff,
            destination: 0,
            deadline: 0,
        }
    }
}

impl Default for Broadcast {
    ghost is_default = { λ blank. blank ≡ blank_broadcast };

    fn default() -> Broadcast {
        Broadcast {
            id: 0,
            frame: 0,
            waiter: 0,
            priority: Priority::Background,
            schedule: Schedule::Once,
            copy: CopyState::Idle,
            handed_off: false,
            quorum_heard: false,
            last_error: None,
            deadline: 0,
        }
    }
}

impl Default for Destination {
    ghost is_default = { λ blank. blank ≡ blank_destination };

    fn default() -> Destination {
        Destination {
            address: 0,
            retries: 0,
        }
    }
}

impl From<Unicast> for Entry {
    ghost from_gives = { λ u e. e ≡ unicast_entry u };

    fn from(u: Unicast) -> Entry {
        Entry {
            id: u.id,
            waiter: u.waiter,
            frame: u.frame,
        }
    }
}

impl From<Unrouted> for Entry {
    ghost from_gives = { λ u e. e ≡ unrouted_entry u };

    fn from(u: Unrouted) -> Entry {
        Entry {
            id: u.id,
            waiter: u.waiter,
            frame: u.frame,
        }
    }
}

impl From<Broadcast> for Entry {
    ghost from_gives = { λ b e. e ≡ broadcast_entry b };

    fn from(b: Broadcast) -> Entry {
        Entry {
            id: b.id,
            waiter: b.waiter,
            frame: b.frame,
        }
    }
}
