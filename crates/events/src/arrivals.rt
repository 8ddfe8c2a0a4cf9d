// Kinds 2 to 5: the sends that are handed in.
ghost use Rattle.std.specs.Prelude.{◌≡◌, ◌+◌, ◌≤◌, length};
ghost use Rattle.events.specs.Arrivals.{unicast_with, unicast_at, unicast_of, copy_of, unrouted_with, unrouted_of, broadcast_with, broadcast_of};

use crate::Event;
use fields::numbers::{byte_at, u16_at, u32_at, u64_at};
use fields::parts::{address_at, confirm_at, priority_by, schedule_at};
use model::{NewBroadcast, NewUnicast, NewUnrouted};
use records::{Address, Confirm, Priority, Schedule};

// ---- a unicast

pub(crate) fn unicast_with(
    frame: u32,
    waiter: u32,
    hop: u16,
    level: Option<Priority>,
    address: Option<Address>,
    settling: Option<Confirm>,
) -> Option<NewUnicast>
    ensures { result ≡ unicast_with frame waiter hop level address settling }
{
    Some(NewUnicast {
        frame,
        waiter,
        priority: level?,
        confirm: settling?,
        next_hop: hop,
        poll_address: address?,
    })
}

pub(crate) fn unicast_at(b: &[u8], at: usize) -> Option<NewUnicast>
    requires { at + 43 ≤ length b.now }
    ensures { result ≡ unicast_at at b.now }
{
    let frame = u32_at(b, at + 8);
    let waiter = u32_at(b, at + 12);
    let level = priority_by(byte_at(b, at + 16));
    let hop = u16_at(b, at + 17);
    let address = address_at(b, at + 19);
    let settling = confirm_at(b, at + 28);
    unicast_with(frame, waiter, hop, level, address, settling)
}

pub fn decode_unicast(b: &[u8]) -> Event
    requires { 43 ≤ length b.now }
    ensures { result ≡ unicast_of b.now }
{
    let clock = u64_at(b, 0);
    match unicast_at(b, 0) {
        Some(u) => Event::OnUnicast(clock, u),
        None => Event::Malformed,
    }
}

pub fn decode_copy(b: &[u8]) -> Event
    requires { 47 ≤ length b.now }
    ensures { result ≡ copy_of b.now }
{
    let id = u32_at(b, 0);
    let clock = u64_at(b, 4);
    match unicast_at(b, 4) {
        Some(u) => Event::OnCopy(id, clock, u),
        None => Event::Malformed,
    }
}

// ---- a send that waits for a route

pub(crate) fn unrouted_with(
    clock: u64,
    frame: u32,
    waiter: u32,
    destination: u16,
    level: Option<Priority>,
    settling: Option<Confirm>,
) -> Event
    ensures { result ≡ unrouted_with clock frame waiter destination level settling }
{
    match (level, settling) {
        (Some(priority), Some(confirm)) => Event::OnUnrouted(
            clock,
            NewUnrouted {
                frame,
                waiter,
                priority,
                confirm,
                destination,
            },
        ),
        _ => Event::Malformed,
    }
}

pub fn decode_unrouted(b: &[u8]) -> Event
    requires { 34 ≤ length b.now }
    ensures { result ≡ unrouted_of b.now }
{
    let clock = u64_at(b, 0);
    let frame = u32_at(b, 8);
    let waiter = u32_at(b, 12);
    let level = priority_by(byte_at(b, 16));
    let destination = u16_at(b, 17);
    let settling = confirm_at(b, 19);
    unrouted_with(clock, frame, waiter, destination, level, settling)
}

// ---- a broadcast

pub(crate) fn broadcast_with(
    clock: u64,
    frame: u32,
    waiter: u32,
    level: Option<Priority>,
    plan: Option<Schedule>,
) -> Event
    ensures { result ≡ broadcast_with clock frame waiter level plan }
{
    match (level, plan) {
        (Some(priority), Some(schedule)) => Event::OnBroadcast(
            clock,
            NewBroadcast {
                frame,
                waiter,
                priority,
                schedule,
            },
        ),
        _ => Event::Malformed,
    }
}

pub fn decode_broadcast(b: &[u8]) -> Event
    requires { 34 ≤ length b.now }
    ensures { result ≡ broadcast_of b.now }
{
    let clock = u64_at(b, 0);
    let frame = u32_at(b, 8);
    let waiter = u32_at(b, 12);
    let level = priority_by(byte_at(b, 16));
    let plan = schedule_at(b, 17);
    broadcast_with(clock, frame, waiter, level, plan)
}
