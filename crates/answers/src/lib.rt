// The answers of a trace as bytes: an item for each kind of answer, its writing into a lent output, and how long a told action is.
#![tactic(auto)]

ghost use Rattle.std.specs.Prelude.{◌≡◌, ◌+◌, ◌≤◌, length};
ghost use Rattle.answers.specs.Bytes.{Written};
ghost use Rattle.answers.specs.Items.{item_bytes, action_bytes};
ghost use Rattle.answers.specs.Types.{Refused, Done, Id, YesNo, Time, ShortAddress, ExtendedAddress, Abandonment, DestinationAddress};

use model::Transmit;
use records::{Action, Entry, QuorumKey, Refusal, Verdict};

pub mod bytes;
pub mod parts;

// One answer, in the order of the kinds 128 to 141: what the contracts speak of, no code makes one. Handoff, settlement and
// abandonment name the send and the one that waits for it; the end has the run's status and the bytes consumed. (No Result: a refusal
// is one answer among fourteen.)
#[derive(Clone, Copy)]
pub enum Item {
    Refused(Refusal),
    Done,
    Id(u32),
    Handoff(u32, u32),
    Settlement(Entry, Verdict, Option<u16>),
    Flight(u32, u32, Transmit),
    YesNo(bool),
    Time(u64),
    ShortAddress(u16),
    ExtendedAddress(u64),
    Key(QuorumKey),
    Abandonment(u32, u32),
    DestinationAddress(u16),
    End(u8, u32),
}

// How many bytes an action that a call told takes, its kind included.
pub fn action_length(a: Action) -> usize
    ensures { result ≡ length (action_bytes a) }
{
    match a {
        Action::HandedOff(..) => 9,
        Action::Settled(..) => 28,
    }
}

// Each answer that is not told by a call has its own writer, so that a caller that knows which one it writes makes no item and
// decides nothing (133, 138 and 141 are in parts). It writes from place at on and answers the next place; all else of the output
// stays.

// 128 and the number of the refusal.
pub fn put_refused(out: &mut [u8], at: usize, x: Refusal) -> usize
    requires { at + 2 ≤ length out.old }
    ensures { Written at (item_bytes (Refused x)) out.old out.new result }
{
    bytes::put_two(out, at, 128, u8::from(x))
}

// 129 alone.
pub fn put_done(out: &mut [u8], at: usize) -> usize
    requires { at + 1 ≤ length out.old }
    ensures { Written at (item_bytes Done) out.old out.new result }
{
    bytes::put_byte(out, at, 129)
}

// 130 and the id.
pub fn put_id(out: &mut [u8], at: usize, id: u32) -> usize
    requires { at + 5 ≤ length out.old }
    ensures { Written at (item_bytes (Id id)) out.old out.new result }
{
    bytes::put_number(out, at, 130, 4, u64::from(id))
}

// 134 and 1 for yes.
pub fn put_yes_no(out: &mut [u8], at: usize, yes: bool) -> usize
    requires { at + 2 ≤ length out.old }
    ensures { Written at (item_bytes (YesNo yes)) out.old out.new result }
{
    bytes::put_two(out, at, 134, u8::from(yes))
}

// 135 and the time.
pub fn put_time(out: &mut [u8], at: usize, t: u64) -> usize
    requires { at + 9 ≤ length out.old }
    ensures { Written at (item_bytes (Time t)) out.old out.new result }
{
    bytes::put_number(out, at, 135, 8, t)
}

// 136 and the short address.
pub fn put_short(out: &mut [u8], at: usize, x: u16) -> usize
    requires { at + 3 ≤ length out.old }
    ensures { Written at (item_bytes (ShortAddress x)) out.old out.new result }
{
    bytes::put_number(out, at, 136, 2, u64::from(x))
}

// 137 and the extended address.
pub fn put_extended(out: &mut [u8], at: usize, x: u64) -> usize
    requires { at + 9 ≤ length out.old }
    ensures { Written at (item_bytes (ExtendedAddress x)) out.old out.new result }
{
    bytes::put_number(out, at, 137, 8, x)
}

// 139, the send and the one that waits for it.
pub fn put_abandonment(out: &mut [u8], at: usize, id: u32, waiter: u32) -> usize
    requires { at + 9 ≤ length out.old }
    ensures { Written at (item_bytes (Abandonment id waiter)) out.old out.new result }
{
    bytes::put_pair(out, at, 139, id, waiter)
}

// 140 and the destination.
pub fn put_destination(out: &mut [u8], at: usize, x: u16) -> usize
    requires { at + 3 ≤ length out.old }
    ensures { Written at (item_bytes (DestinationAddress x)) out.old out.new result }
{
    bytes::put_number(out, at, 140, 2, u64::from(x))
}

// Writes what a call told, as 131 or 132.
pub fn put_action(out: &mut [u8], at: usize, a: Action) -> usize
    requires { at + length (action_bytes a) ≤ length out.old }
    ensures { Written at (action_bytes a) out.old out.new result }
{
    match a {
        Action::HandedOff(id, waiter) => bytes::put_pair(out, at, 131, id, waiter),
        Action::Settled(e, v, hop) => parts::put_settled(out, at, e, v, hop),
    }
}
