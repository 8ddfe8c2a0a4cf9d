// The clock that its holder lends by `&mut`. `advance_lent` and `advance_numbers` only pass on what the functions by value do.
ghost use Rattle.std.specs.Prelude.{◌≡◌};
ghost use Rattle.clock.specs.Clock.{advance_of};
ghost use Rattle.clock.specs.Lent.{clock_of, told_of, numbers_of, clock_at};

use crate::Clock;
use records::Refusal;

// What the holder of a lent clock is told, in numbers: the refusal's number or 0, and where the clock stands. (`advance_numbers` promises
// numbers, to callers that have nothing else; `advance_lent` beside it answers a Result.)
#[derive(Clone, Copy)]
pub struct Numbers {
    pub refusal: u8,
    pub last: u32,
    pub time: u64,
}

// The lent clock takes a reading and tells its time, or stands as it came.
pub fn advance_lent(c: &mut Clock, reading: u32) -> Result<u64, Refusal>
    ensures { (result ≡ told_of (advance_of c.old reading)) × (c.new ≡ clock_of (advance_of c.old reading)) }
{
    match crate::advance(*c, reading) {
        Ok(moved) => {
            *c = moved;
            Ok(moved.time)
        }
        Err((refusal, _)) => Err(refusal),
    }
}

// A clock of two numbers is made, lent and read off.
pub fn advance_numbers(last: u32, time: u64, reading: u32) -> Numbers
    ensures { result ≡ numbers_of (advance_of (clock_at last time) reading) }
{
    let mut c = Clock { last, time };
    let refusal = match advance_lent(&mut c, reading) {
        Ok(_) => 0,
        Err(refusal) => refusal.into(),
    };
    Numbers {
        refusal,
        last: c.last,
        time: c.time,
    }
}
