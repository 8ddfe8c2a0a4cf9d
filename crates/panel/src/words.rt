// What the calls answer and what the driver must do, in plain words on standard output. Each function, and those of main.rt that call
// it, stops at the first write that fails and answers that error, and no other; what was written before it stands.
use model::{Answer, Transmit};
use records::{Action, Address, Entry, Refusal, SendFailure, TxResult, Verdict};
use std::io;
use std::io::Print;

// What the radio reports, as a part of the call.
pub(crate) fn report(rt: &impl Print, id: u32, frame: u32, x: TxResult) -> io::Result<()> {
    print!(rt; ", id {id}, frame {frame}, ")?;
    match x {
        Ok(()) => print!(rt; "sent"),
        Err(code) => print!(rt; "failed with code {code}"),
    }
}

fn denied(rt: &impl Print, r: Refusal) -> io::Result<()> {
    print!(rt; "denied with number {}", u8::from(r))
}

fn flight(rt: &impl Print, id: u32, frame: u32, how: Transmit) -> io::Result<()> {
    print!(rt; "in flight: id {id}, frame {frame}, ")?;
    match how {
        Transmit::Unicasting(hop, pending) => {
            let more = yes_or_no(pending);
            print!(rt; "next hop 0x{hop:04x}, another frame pending: {more}")
        }
        Transmit::Broadcasting => print!(rt; "to all"),
    }
}

fn yes_or_no(b: bool) -> &'static str {
    if b { "yes" } else { "no" }
}

// The answer of a call.
pub(crate) fn said(rt: &impl Print, a: Answer) -> io::Result<()> {
    print!(rt; " -> ")?;
    match a {
        Answer::Denied(r) => denied(rt, r),
        Answer::Accepted => print!(rt; "accepted"),
        Answer::Issued(id) => print!(rt; "id {id}"),
        Answer::Replied(b) => print!(rt; "{}", yes_or_no(b)),
        Answer::NothingQueued => print!(rt; "nothing queued"),
        Answer::InFlight(id, frame, how) => flight(rt, id, frame, how),
    }
}

// How many actions follow, to end the line.
pub(crate) fn count(rt: &impl Print, n: usize) -> io::Result<()> {
    if n == 0 {
        println!(rt; "; nothing to tell")
    } else {
        println!(rt; "; actions: {n}")
    }
}

pub(crate) fn address(rt: &impl Print, a: Address) -> io::Result<()> {
    match a {
        Address::Absent => print!(rt; "no address"),
        Address::Short(x) => print!(rt; "0x{x:04x}"),
        Address::Extended(x) => print!(rt; "0x{x:016x}"),
    }
}

fn failure(rt: &impl Print, f: SendFailure) -> io::Result<()> {
    match f {
        SendFailure::HandoffTimeout => print!(rt; "failed, the mesh did not take it in time"),
        SendFailure::ApsAckTimeout => print!(rt; "failed, no end-to-end ack came in time"),
        SendFailure::IndirectExpired(a) => {
            print!(rt; "failed, expired before the device fetched it: ")?;
            address(rt, a)
        }
        SendFailure::RouteDiscoveryTimeout => print!(rt; "failed, no route was found in time"),
        SendFailure::BroadcastQuorumNotReached => print!(rt; "failed, too few heard the broadcast"),
        SendFailure::Cancelled => print!(rt; "failed, cancelled"),
    }
}

fn verdict(rt: &impl Print, v: Verdict) -> io::Result<()> {
    match v {
        Verdict::Success => print!(rt; "success"),
        Verdict::Failure(f) => failure(rt, f),
        Verdict::Code(code) => print!(rt; "failed with code {code}"),
    }
}

fn last_hop(rt: &impl Print, hop: Option<u16>) -> io::Result<()> {
    match hop {
        None => println!(rt; ""),
        Some(x) => println!(rt; ", attempts ran out at next hop 0x{x:04x}"),
    }
}

fn settled(rt: &impl Print, e: Entry, v: Verdict, hop: Option<u16>) -> io::Result<()> {
    print!(rt;
        "    settled: id {}, waiter {}, frame {}: ",
        e.id, e.waiter, e.frame
    )?;
    verdict(rt, v)?;
    last_hop(rt, hop)
}

// An action, on a line of its own.
pub(crate) fn action(rt: &impl Print, a: Action) -> io::Result<()> {
    match a {
        Action::HandedOff(id, waiter) => {
            println!(rt; "    handed off: id {id}, waiter {waiter}: the mesh took it")
        }
        Action::Settled(e, v, hop) => settled(rt, e, v, hop),
    }
}

// The answer of a question: yes or no.
pub(crate) fn replied(rt: &impl Print, b: bool) -> io::Result<()> {
    println!(rt; " -> {}", yes_or_no(b))
}

// The answer of a question: when the driver's timer must call the next tick, if ever.
pub(crate) fn wake(rt: &impl Print, t: Option<u64>) -> io::Result<()> {
    match t {
        None => println!(rt; " -> never"),
        Some(t) => println!(rt; " -> at {t} ms"),
    }
}

pub(crate) fn light(rt: &impl Print, lit: bool) -> io::Result<()> {
    if lit {
        println!(rt; "The green tick lights.")
    } else {
        println!(rt; "The green tick does not light.")
    }
}
