// The answers of several parts: a send that is over, one that goes to the radio, a key, the end. Each writer answers the next place.
ghost use Rattle.std.specs.Prelude.{◌+◌, ◌≤◌, length};
ghost use Rattle.answers.specs.Bytes.{Written};
ghost use Rattle.answers.specs.Items.{address_bytes, hop_bytes, verdict_bytes, transmit_bytes, settled_bytes, flight_bytes, key_bytes, end_bytes};

use crate::bytes;
use model::Transmit;
use records::{Address, Entry, QuorumKey, Verdict, numbers};

// A tag and eight bytes.
pub(crate) fn put_address(out: &mut [u8], at: usize, a: Address) -> usize
    requires { at + 9 ≤ length out.old }
    ensures { Written at (address_bytes a) out.old out.new result }
{
    let tag = codes::address_tag(a);
    let word = codes::address_word(a);
    bytes::put_number(out, at, tag as u8, 8, word)
}

// A verdict's number, the address where it has one, and the caller's code.
pub(crate) fn put_verdict(out: &mut [u8], at: usize, v: Verdict) -> usize
    requires { at + 12 ≤ length out.old }
    ensures { Written at (verdict_bytes v) out.old out.new result }
{
    let number = u8::from(v);
    let a = numbers::verdict_address(v);
    let code = numbers::verdict_code(v);
    let second = bytes::put_byte(out, at, number);
    let third = put_address(out, second, a);
    bytes::put_le(out, third, 2, u64::from(code))
}

// A flag and the hop at which the attempts ran out.
pub(crate) fn put_hop(out: &mut [u8], at: usize, hop: Option<u16>) -> usize
    requires { at + 3 ≤ length out.old }
    ensures { Written at (hop_bytes hop) out.old out.new result }
{
    match hop {
        None => bytes::put_number(out, at, 0, 2, 0),
        Some(x) => bytes::put_number(out, at, 1, 2, u64::from(x)),
    }
}

// 132: id, waiter, frame, verdict, hop.
pub(crate) fn put_settled(
    out: &mut [u8],
    at: usize,
    e: Entry,
    v: Verdict,
    hop: Option<u16>,
) -> usize
    requires { at + 28 ≤ length out.old }
    ensures { Written at (settled_bytes e v hop) out.old out.new result }
{
    let second = bytes::put_pair(out, at, 132, e.id, e.waiter);
    let third = bytes::put_le(out, second, 4, u64::from(e.frame));
    let fourth = put_verdict(out, third, v);
    put_hop(out, fourth, hop)
}

// 1 for a broadcast, the hop, and whether another frame is pending.
pub(crate) fn put_transmit(out: &mut [u8], at: usize, t: Transmit) -> usize
    requires { at + 4 ≤ length out.old }
    ensures { Written at (transmit_bytes t) out.old out.new result }
{
    match t {
        Transmit::Unicasting(hop, pending) => {
            let next = bytes::put_number(out, at, 0, 2, u64::from(hop));
            bytes::put_byte(out, next, u8::from(pending))
        }
        Transmit::Broadcasting => bytes::put_number(out, at, 1, 3, 0),
    }
}

// 133: id, frame, and how it goes out.
pub fn put_flight(out: &mut [u8], at: usize, id: u32, frame: u32, t: Transmit) -> usize
    requires { at + 13 ≤ length out.old }
    ensures { Written at (flight_bytes id frame t) out.old out.new result }
{
    let next = bytes::put_pair(out, at, 133, id, frame);
    put_transmit(out, next, t)
}

// 138: source and sequence.
pub fn put_key(out: &mut [u8], at: usize, k: QuorumKey) -> usize
    requires { at + 4 ≤ length out.old }
    ensures { Written at (key_bytes k) out.old out.new result }
{
    let next = bytes::put_number(out, at, 138, 2, u64::from(k.src));
    bytes::put_byte(out, next, k.sequence)
}

// 141: the run's status and the bytes consumed.
pub fn put_end(out: &mut [u8], at: usize, status: u8, consumed: u32) -> usize
    requires { at + 6 ≤ length out.old }
    ensures { Written at (end_bytes status consumed) out.old out.new result }
{
    let next = bytes::put_two(out, at, 141, status);
    bytes::put_le(out, next, 4, u64::from(consumed))
}
