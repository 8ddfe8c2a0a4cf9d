// Kind 12, a route, and its sixteen results.
ghost use Rattle.std.specs.Prelude.{◌≡◌, ◌+◌, ◌≤◌, ◌<◌, length};
ghost use Rattle.events.specs.Routes.{unreached_by, resolved_by, resolved_with, resolved_at, result_in, in_form, results_of, results_in, entry_right, entries_right, route_of};

use crate::Event;
use fields::numbers::{byte_at, u16_at, u64_at};
use fields::parts::{address_at, blank_at};
use model::Resolved;
use records::Address;

// ---- one result

fn unreached_by(hop: u16, address: Address, code: u16) -> Option<Resolved>
    ensures { result ≡ unreached_by hop address code }
{
    match address {
        Address::Absent if hop == 0 => Some(Err(code)),
        _ => None,
    }
}

// The tag is a byte of the trace: here it becomes a result, or none.
fn resolved_by(tag: u8, hop: u16, address: Address, code: u16) -> Option<Resolved>
    ensures { result ≡ resolved_by tag hop address code }
{
    match tag {
        0 if code == 0 => Some(Ok((hop, address))),
        1 => unreached_by(hop, address, code),
        _ => None,
    }
}

fn resolved_with(tag: u8, hop: u16, address: Option<Address>, code: u16) -> Option<Resolved>
    ensures { result ≡ resolved_with tag hop address code }
{
    resolved_by(tag, hop, address?, code)
}

pub(crate) fn resolved_at(b: &[u8], at: usize) -> Option<Resolved>
    requires { at + 14 ≤ length b.now }
    ensures { result ≡ resolved_at at b.now }
{
    let tag = byte_at(b, at);
    let hop = u16_at(b, at + 1);
    let address = address_at(b, at + 3);
    let code = u16_at(b, at + 12);
    resolved_with(tag, hop, address, code)
}

fn result_in(x: Option<Resolved>) -> Resolved
    ensures { result ≡ result_in x }
{
    x.unwrap_or(Err(0))
}

fn in_form(x: Option<Resolved>) -> bool
    ensures { result ≡ in_form x }
{
    x.is_some()
}

// ---- the sixteen of them

// The results, in their order; one outside its form stands as a code of 0.
fn route_results(b: &[u8]) -> [Resolved; 16]
    requires { 235 ≤ length b.now }
    ensures { result ≡ results_of b.now }
{
    let mut results = [Err(0); 16];
    for i in 0..16 {
        results[i] = result_in(resolved_at(b, i * 14 + 11));
    }
    results
}

// The same of a body of any length: one too short to have them gives sixteen codes of 0.
pub fn results_in(b: &[u8]) -> [Resolved; 16]
    ensures { result ≡ results_in b.now }
{
    if b.len() < 235 {
        return [Err(0); 16];
    }
    route_results(b)
}

fn entry_right(b: &[u8], count: usize, i: usize) -> bool
    requires { (235 ≤ length b.now) × (i < 16) }
    ensures { result ≡ entry_right b.now count i }
{
    if i < count {
        in_form(resolved_at(b, i * 14 + 11))
    } else {
        blank_at(b, i * 14 + 11)
    }
}

fn entries_right(b: &[u8], count: usize) -> bool
    requires { 235 ≤ length b.now }
    ensures { result ≡ entries_right b.now count 0 16 }
{
    (0..16).all(|i| entry_right(b, count, i))
}

pub fn decode_route(b: &[u8]) -> Event
    requires { 235 ≤ length b.now }
    ensures { result ≡ route_of b.now }
{
    let clock = u64_at(b, 0);
    let destination = u16_at(b, 8);
    let count = usize::from(byte_at(b, 10));
    if 16 < count {
        return Event::Malformed;
    }
    if entries_right(b, count) {
        Event::OnRoute(clock, destination, count)
    } else {
        Event::Malformed
    }
}
