// Priorities: the level of a host's number, and a level's rank.
ghost use Rattle.std.specs.Prelude.{◌≡◌};
ghost use Rattle.records.specs.Priorities.{from_host, rank_of};

use crate::Priority;

// The level that a host may ask for; it cannot ask for the stack's own.
impl From<i8> for Priority {
    ghost from_gives = { λ value p. p ≡ from_host value };

    fn from(value: i8) -> Priority {
        match value {
            ..=-2 => Priority::Background,
            -1 => Priority::UserLow,
            0 => Priority::UserNormal,
            1 => Priority::UserHigh,
            2.. => Priority::UserCritical,
        }
    }
}

// 0 for the lowest level to 5 for the highest.
impl From<Priority> for u8 {
    ghost from_gives = { λ p rank. rank ≡ rank_of p };

    fn from(p: Priority) -> u8 {
        p as u8
    }
}
