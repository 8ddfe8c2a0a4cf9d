// The clock over the radio's counter: 32 bits of milliseconds that wrap, made into a time of 64 bits that does not. Here by
// value; `in_place` has the form that is lent by `&mut`.
#![tactic(auto)]

pub mod in_place;

ghost use Rattle.std.specs.Prelude.{◌≡◌};
ghost use Rattle.clock.specs.Clock.{fresh_of, advance_of};

use records::Refusal;

// The reading that was taken last, and the time at it.
#[derive(Clone, Copy)]
pub struct Clock {
    pub last: u32,
    pub time: u64,
}

// 2^62: the last time that the tables take.
const LAST_TIME: u64 = 4611686018427387904;

// A clock that stands at a time, with the reading that the counter shows then.
pub fn fresh(reading: u32, time: u64) -> Result<Clock, Refusal>
    ensures { result ≡ fresh_of reading time }
{
    if LAST_TIME < time {
        return Err(Refusal::TimeTooLate);
    }
    Ok(Clock {
        last: reading,
        time,
    })
}

// One reading more; a clock that refuses it comes back as it was. What is left up to 2^62 is compared before the sum is made, so
// that no sum can wrap and any clock is taken.
pub fn advance(c: Clock, reading: u32) -> Result<Clock, (Refusal, Clock)>
    ensures { result ≡ advance_of c reading }
{
    let step = std::num::wrapping_sub_u32(reading, c.last) as u64;
    if LAST_TIME - step < c.time {
        return Err((Refusal::TimeTooLate, c));
    }
    let time = c.time + step;
    Ok(Clock {
        last: reading,
        time,
    })
}
