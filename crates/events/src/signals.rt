// Kinds 1, 6 to 11, 13 to 16, 19, 21 and 22: the settings, the radio's and the network's words, times, and questions.
ghost use Rattle.std.specs.Prelude.{◌≡◌, ◌≤◌, length};
ghost use Rattle.events.specs.Signals.{settings_in, settings_of, dequeue_of, report_with, report_of, poll_with, poll_of, ack_of, retry_of, fail_of, delivered_of, drop_of, cancel_of, tick_of, pair_of, has_unrouted_of, awaiting_event, has_awaiting_of};

use crate::Event;
use fields::numbers::{byte_at, u16_at, u32_at, u64_at};
use fields::parts::{address_at, key_at, lender_by, opt16_by, opt64_by, result_by};
use model::Lender;
use records::{Address, QuorumKey, Settings, TxResult};

pub fn settings_in(b: &[u8]) -> Settings
    requires { 10 ≤ length b.now }
    ensures { result ≡ settings_in b.now }
{
    Settings {
        handoff_timeout: u32_at(b, 0),
        persistence_time: u32_at(b, 4),
        unicast_retries: byte_at(b, 8),
        discovery_attempts: byte_at(b, 9),
    }
}

pub(crate) fn decode_settings(b: &[u8]) -> Event
    requires { 10 ≤ length b.now }
    ensures { result ≡ settings_of b.now }
{
    Event::OnSettings(settings_in(b))
}

pub(crate) fn decode_dequeue(b: &[u8]) -> Event
    requires { 8 ≤ length b.now }
    ensures { result ≡ dequeue_of b.now }
{
    Event::OnDequeue(u64_at(b, 0))
}

// ---- the radio

pub(crate) fn report_with(
    lender: Option<Lender>,
    id: u32,
    frame: u32,
    outcome: Option<TxResult>,
    clock: u64,
    delay: u32,
) -> Event
    ensures { result ≡ report_with lender id frame outcome clock delay }
{
    match (lender, outcome) {
        (Some(from), Some(result)) => Event::OnReport {
            from,
            id,
            frame,
            result,
            clock,
            delay,
        },
        _ => Event::Malformed,
    }
}

pub fn decode_report(b: &[u8]) -> Event
    requires { 24 ≤ length b.now }
    ensures { result ≡ report_of b.now }
{
    let lender = lender_by(byte_at(b, 0));
    let id = u32_at(b, 1);
    let frame = u32_at(b, 5);
    let outcome = result_by(byte_at(b, 9), u16_at(b, 10));
    let clock = u64_at(b, 12);
    let delay = u32_at(b, 20);
    report_with(lender, id, frame, outcome, clock, delay)
}

// ---- the network

pub(crate) fn poll_with(
    clock: u64,
    extended: Option<Option<u64>>,
    short: Option<Option<u16>>,
) -> Event
    ensures { result ≡ poll_with clock extended short }
{
    match (extended, short) {
        (Some(eui), Some(nwk)) => Event::OnPoll(clock, eui, nwk),
        _ => Event::Malformed,
    }
}

pub fn decode_poll(b: &[u8]) -> Event
    requires { 20 ≤ length b.now }
    ensures { result ≡ poll_of b.now }
{
    let clock = u64_at(b, 0);
    let extended = opt64_by(byte_at(b, 8), u64_at(b, 9));
    let short = opt16_by(byte_at(b, 17), u16_at(b, 18));
    poll_with(clock, extended, short)
}

pub fn decode_ack(b: &[u8]) -> Event
    requires { 10 ≤ length b.now }
    ensures { result ≡ ack_of b.now }
{
    match key_at(b, 0) {
        Some(key) => Event::OnAck(key),
        None => Event::Malformed,
    }
}

pub(crate) fn decode_retry(b: &[u8]) -> Event
    requires { 2 ≤ length b.now }
    ensures { result ≡ retry_of b.now }
{
    Event::OnRetry(u16_at(b, 0))
}

pub(crate) fn decode_fail(b: &[u8]) -> Event
    requires { 2 ≤ length b.now }
    ensures { result ≡ fail_of b.now }
{
    Event::OnFail(u16_at(b, 0))
}

pub(crate) fn decode_delivered(b: &[u8]) -> Event
    requires { 3 ≤ length b.now }
    ensures { result ≡ delivered_of b.now }
{
    let src = u16_at(b, 0);
    let sequence = byte_at(b, 2);
    Event::OnDelivered(QuorumKey { src, sequence })
}

pub fn decode_drop(b: &[u8]) -> Event
    requires { 11 ≤ length b.now }
    ensures { result ≡ drop_of b.now }
{
    let short = u16_at(b, 9);
    match opt64_by(byte_at(b, 0), u64_at(b, 1)) {
        Some(eui) => Event::OnDrop(eui, short),
        None => Event::Malformed,
    }
}

// ---- times, the map, and questions

pub(crate) fn decode_cancel(b: &[u8]) -> Event
    requires { 4 ≤ length b.now }
    ensures { result ≡ cancel_of b.now }
{
    Event::OnCancel(u32_at(b, 0))
}

pub(crate) fn decode_tick(b: &[u8]) -> Event
    requires { 8 ≤ length b.now }
    ensures { result ≡ tick_of b.now }
{
    Event::OnTick(u64_at(b, 0))
}

pub(crate) fn decode_pair(b: &[u8]) -> Event
    requires { 10 ≤ length b.now }
    ensures { result ≡ pair_of b.now }
{
    let extended = u64_at(b, 0);
    let short = u16_at(b, 8);
    Event::OnPair(extended, short)
}

pub(crate) fn decode_has_unrouted(b: &[u8]) -> Event
    requires { 2 ≤ length b.now }
    ensures { result ≡ has_unrouted_of b.now }
{
    Event::OnHasUnrouted(u16_at(b, 0))
}

pub(crate) fn awaiting_by(address: Option<Address>) -> Event
    ensures { result ≡ awaiting_event address }
{
    match address {
        Some(Address::Absent) | None => Event::Malformed,
        Some(a) => Event::OnHasAwaiting(a),
    }
}

pub fn decode_has_awaiting(b: &[u8]) -> Event
    requires { 9 ≤ length b.now }
    ensures { result ≡ has_awaiting_of b.now }
{
    awaiting_by(address_at(b, 0))
}
