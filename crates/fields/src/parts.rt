// The parts of a body that may be outside their form: an absent part must be zero, a flag 0 or 1, a tag one of its own. Flags and tags are
// bytes of a trace (docs/TRACE.md): here each becomes an enum or an Option, or nothing.
ghost use Rattle.std.specs.Prelude.{◌≡◌, ◌+◌, ◌≤◌, length, eqb, [], ◌∷◌};
ghost use Rattle.fields.specs.Bytes.{number};
ghost use Rattle.fields.specs.Parts.{opt_by, opt8_by, opt16_by, opt64_by, priority_by, address_by, address_at, key_with, key_at, confirm_with, confirm_at, result_by, lender_by, all_zero, schedule_by, schedule_at};

use crate::numbers::{byte_at, u16_at, u32_at, u64_at};
use model::Lender;
use records::{AckKey, Address, Confirm, Priority, QuorumKey, Schedule, TxResult};

// ---- optional numbers, by a flag; an absent one must be zero

pub fn opt_by<T: Copy>(flag: u8, x: T, blank: bool) -> Option<Option<T>>
    ensures { result ≡ opt_by flag x blank }
{
    match flag {
        0 if blank => Some(None),
        1 => Some(Some(x)),
        _ => None,
    }
}

pub(crate) fn opt8_by(flag: u8, b: u8) -> Option<Option<u8>>
    ensures { result ≡ opt8_by flag b }
{
    opt_by(flag, b, b == 0)
}

pub fn opt16_by(flag: u8, n: u16) -> Option<Option<u16>>
    ensures { result ≡ opt16_by flag n }
{
    opt_by(flag, n, n == 0)
}

pub fn opt64_by(flag: u8, x: u64) -> Option<Option<u64>>
    ensures { result ≡ opt64_by flag x }
{
    opt_by(flag, x, x == 0)
}

// ---- a level, an address

// No `TryFrom`, here and at `lender_by`: a part that is not in its form is `None` as in all of these, and no caller asks for an error.
pub fn priority_by(rank: u8) -> Option<Priority>
    ensures { result ≡ priority_by rank }
{
    match rank {
        0 => Some(Priority::Background),
        1 => Some(Priority::UserLow),
        2 => Some(Priority::UserNormal),
        3 => Some(Priority::UserHigh),
        4 => Some(Priority::UserCritical),
        5 => Some(Priority::StackCritical),
        _ => None,
    }
}

pub(crate) fn address_by(tag: u8, x: u64) -> Option<Address>
    ensures { result ≡ address_by tag x }
{
    match tag {
        0 if x == 0 => Some(Address::Absent),
        1 if x <= 65535 => Some(Address::Short(x as u16)),
        2 => Some(Address::Extended(x)),
        _ => None,
    }
}

pub fn address_at(b: &[u8], at: usize) -> Option<Address>
    requires { at + 9 ≤ length b.now }
    ensures { result ≡ address_at at b.now }
{
    address_by(byte_at(b, at), u64_at(b, at + 1))
}

// ---- what an ack is matched on

pub(crate) fn key_with(
    src: u16,
    destination: Option<Option<u8>>,
    cluster: Option<Option<u16>>,
    profile: Option<Option<u16>>,
    source: Option<Option<u8>>,
    counter: u8,
) -> Option<AckKey>
    ensures { result ≡ key_with src destination cluster profile source counter }
{
    Some(AckKey {
        src,
        destination_endpoint: destination?,
        cluster_id: cluster?,
        profile_id: profile?,
        source_endpoint: source?,
        counter,
    })
}

pub fn key_at(b: &[u8], at: usize) -> Option<AckKey>
    requires { at + 10 ≤ length b.now }
    ensures { result ≡ key_at at b.now }
{
    let bits = byte_at(b, at);
    if 15 < bits {
        return None;
    }
    let src = u16_at(b, at + 1);
    let destination = opt8_by(bits % 2, byte_at(b, at + 3));
    let cluster = opt16_by(bits / 2 % 2, u16_at(b, at + 4));
    let profile = opt16_by(bits / 4 % 2, u16_at(b, at + 6));
    let source = opt8_by(bits / 8 % 2, byte_at(b, at + 8));
    key_with(
        src,
        destination,
        cluster,
        profile,
        source,
        byte_at(b, at + 9),
    )
}

// ---- what confirms a send

// Whether the fourteen bytes from a place on are all zero.
pub fn blank_at(b: &[u8], at: usize) -> bool
    requires { at + 14 ≤ length b.now }
    ensures { result ≡ eqb (number 14 at b.now) 0 }
{
    let first = u64_at(b, at);
    let second = u32_at(b, at + 8);
    let third = u16_at(b, at + 12);
    (first, second, third) == (0, 0, 0)
}

pub(crate) fn confirm_with(tag: u8, blank: bool, key: Option<AckKey>, wait: u32) -> Option<Confirm>
    ensures { result ≡ confirm_with tag blank key wait }
{
    match tag {
        0 if blank => Some(Confirm::OnHandoff),
        1 => Some(Confirm::ApsAck(key?, wait)),
        _ => None,
    }
}

pub fn confirm_at(b: &[u8], at: usize) -> Option<Confirm>
    requires { at + 15 ≤ length b.now }
    ensures { result ≡ confirm_at at b.now }
{
    let tag = byte_at(b, at);
    let blank = blank_at(b, at + 1);
    let key = key_at(b, at + 1);
    let wait = u32_at(b, at + 11);
    confirm_with(tag, blank, key, wait)
}

// ---- what the radio reports, and of which table

pub fn result_by(tag: u8, code: u16) -> Option<TxResult>
    ensures { result ≡ result_by tag code }
{
    match tag {
        0 if code == 0 => Some(Ok(())),
        1 => Some(Err(code)),
        _ => None,
    }
}

pub fn lender_by(flag: u8) -> Option<Lender>
    ensures { result ≡ lender_by flag }
{
    match flag {
        0 => Some(Lender::FromUnicasts),
        1 => Some(Lender::FromBroadcasts),
        _ => None,
    }
}

// ---- a broadcast's schedule

fn all_zero(src: u16, sequence: u8, interval: u32, copies: u8, next: u64) -> bool
    ensures { result ≡ all_zero (src ∷ sequence ∷ interval ∷ copies ∷ next ∷ []) }
{
    src == 0 && sequence == 0 && interval == 0 && copies == 0 && next == 0
}

pub(crate) fn schedule_by(
    tag: u8,
    src: u16,
    sequence: u8,
    interval: u32,
    copies: u8,
    next: u64,
) -> Option<Schedule>
    ensures { result ≡ schedule_by tag src sequence interval copies next }
{
    match tag {
        0 if all_zero(src, sequence, interval, copies, next) => Some(Schedule::Once),
        1 if interval == 0 => Some(Schedule::PassiveAck {
            key: QuorumKey { src, sequence },
            copies_remaining: copies,
            next_attempt: next,
        }),
        2 if src == 0 && sequence == 0 => Some(Schedule::FixedInterval {
            interval,
            copies_remaining: copies,
            next_attempt: next,
        }),
        _ => None,
    }
}

pub fn schedule_at(b: &[u8], at: usize) -> Option<Schedule>
    requires { at + 17 ≤ length b.now }
    ensures { result ≡ schedule_at at b.now }
{
    let tag = byte_at(b, at);
    let src = u16_at(b, at + 1);
    let sequence = byte_at(b, at + 3);
    let interval = u32_at(b, at + 4);
    let copies = byte_at(b, at + 8);
    let next = u64_at(b, at + 9);
    schedule_by(tag, src, sequence, interval, copies, next)
}
