// The story of a school's door panel, which sleeps and fetches its frames by polls: an update that the radio fails to send, and
// one that it sends. Each call is printed with its answer and its actions, as they come.
#![tactic(auto)]

ghost use Rattle.std.specs.Prelude.{◌≡◌, ◌≤◌, IfOk};
ghost use Rattle.model.specs.Sound.{Sound};

use model::{Answer, Answered, Lender, NewUnicast, Sends, Transmit};
use records::{Action, Address, Confirm, Priority, Settings, TxResult, Verdict};
use sends::asks;
use std::io;
use std::io::Print;

mod words;

// The panel's extended address, under which it polls.
const PANEL: u64 = 0x00124b0000c0ffee;

// Its short one, at which the radio reaches it.
const PANEL_SHORT: u16 = 0x3f21;

// What the gateway keeps between calls: the send tables, and whether the green tick is lit.
#[derive(Clone, Copy)]
struct Gateway {
    sends: Sends,
    lit: bool,
}

// The green tick is lit by one thing only: the verdict that the update went well.
fn lights(a: Action) -> bool {
    matches!(a, Action::Settled(_, Verdict::Success, _))
}

// Prints the first n actions told; answers whether the tick is lit after them.
fn show_actions(rt: &impl Print, told: &[u64; 560], n: usize, mut lit: bool) -> io::Result<bool>
    requires { n ≤ 112 }
{
    for i in 0..n {
        let a = actions::action_at(told, i);
        words::action(rt, a)?;
        lit |= lights(a);
    }
    Ok(lit)
}

// After a call: its answer is printed, its actions are done, its tables are kept.
fn heard(rt: &impl Print, x: Answered, told: &[u64; 560], lit: bool) -> io::Result<Gateway>
    requires { x.told ≤ 112 }
    ensures { IfOk result (λ g. g.sends ≡ x.sends) }
{
    words::said(rt, x.answer)?;
    words::count(rt, x.told)?;
    let lit = show_actions(rt, told, x.told, lit)?;
    Ok(Gateway {
        sends: x.sends,
        lit,
    })
}

// The update: its waiter is told once the panel has it, or that it never will.
fn update() -> NewUnicast {
    NewUnicast {
        frame: 41,
        waiter: 7,
        priority: Priority::UserNormal,
        confirm: Confirm::OnHandoff,
        next_hop: PANEL_SHORT,
        poll_address: Address::Extended(PANEL),
    }
}

fn enqueue(rt: &impl Print, g: Gateway, told: &mut [u64; 560], clock: u64) -> io::Result<Gateway>
    requires { Sound g.sends }
    ensures { IfOk result (λ h. Sound h.sends) }
{
    print!(rt; "{clock} ms: enqueue_unicast of an update for ")?;
    words::address(rt, Address::Extended(PANEL))?;
    let x = sends::enqueue_unicast(g.sends, told, Settings::default(), update(), clock);
    heard(rt, x, told, g.lit)
}

// A device polls under its extended address.
fn poll(
    rt: &impl Print,
    g: Gateway,
    told: &mut [u64; 560],
    device: u64,
    clock: u64,
) -> io::Result<Gateway>
    requires { Sound g.sends }
    ensures { IfOk result (λ h. Sound h.sends) }
{
    print!(rt; "{clock} ms: poll by ")?;
    words::address(rt, Address::Extended(device))?;
    let x = sends::poll(g.sends, told, Some(device), None, clock);
    heard(rt, x, told, g.lit)
}

fn tick(rt: &impl Print, g: Gateway, told: &mut [u64; 560], clock: u64) -> io::Result<Gateway>
    requires { Sound g.sends }
    ensures { IfOk result (λ h. Sound h.sends) }
{
    print!(rt; "{clock} ms: tick")?;
    let x = sends::tick(g.sends, told, clock);
    heard(rt, x, told, g.lit)
}

// The table that lent a frame, as the report must name it.
fn lender(how: Transmit) -> Lender {
    match how {
        Transmit::Unicasting(_, _) => Lender::FromUnicasts,
        Transmit::Broadcasting => Lender::FromBroadcasts,
    }
}

// The radio's report. The delay before a next attempt is not used here: the panel's next poll decides when that is.
fn transmitted(
    rt: &impl Print,
    g: Gateway,
    told: &mut [u64; 560],
    from: Lender,
    id: u32,
    frame: u32,
    report: TxResult,
    clock: u64,
) -> io::Result<Gateway>
    requires { Sound g.sends }
    ensures { IfOk result (λ h. Sound h.sends) }
{
    print!(rt; "{clock} ms: transmitted")?;
    words::report(rt, id, frame, report)?;
    let x = sends::transmitted(g.sends, told, from, id, frame, report, clock, 0);
    heard(rt, x, told, g.lit)
}

// The radio is free at `clock`: it is lent what goes next, and reports on that, and only on that, at `later`.
fn serve_radio(
    rt: &impl Print,
    g: Gateway,
    told: &mut [u64; 560],
    report: TxResult,
    clock: u64,
    later: u64,
) -> io::Result<Gateway>
    requires { Sound g.sends }
    ensures { IfOk result (λ h. Sound h.sends) }
{
    print!(rt; "{clock} ms: dequeue")?;
    let x = sends::dequeue(g.sends, told, clock);
    let h = heard(rt, x, told, g.lit)?;
    if let Answer::InFlight(id, frame, how) = x.answer {
        transmitted(rt, h, told, lender(how), id, frame, report, later)
    } else {
        Ok(h)
    }
}

// What the driver may ask at any time: whether the panel has a frame here, and when the timer must call the next tick.
fn show_state(rt: &impl Print, s: Sends, clock: u64) -> io::Result<()>
    requires { Sound s }
{
    let panel = Address::Extended(PANEL);
    print!(rt; "{clock} ms: has_unicast_awaiting_poll of ")?;
    words::address(rt, panel)?;
    words::replied(rt, asks::has_unicast_awaiting_poll(s, panel))?;
    print!(rt; "{clock} ms: next_wake")?;
    words::wake(rt, asks::next_wake(s))
}

// Both runs begin alike: the update waits while the panel sleeps, and is queued as the panel polls.
fn begin(rt: &impl Print, told: &mut [u64; 560]) -> io::Result<Gateway>
    ensures { IfOk result (λ h. Sound h.sends) }
{
    let empty = Gateway {
        sends: asks::fresh(0),
        lit: false,
    };
    let entered = enqueue(rt, empty, told, 0)?;
    show_state(rt, entered.sends, 0)?;
    let slept = serve_radio(rt, entered, told, Ok(()), 100, 104)?;
    poll(rt, slept, told, PANEL, 2000)
}

// The transmit fails and the panel does not poll again: the update waits, and no dequeue finds it, until its time is over.
fn failing(rt: &impl Print, told: &mut [u64; 560]) -> io::Result<()> {
    println!(rt; "Run 1: the radio fails.")?;
    let polled = begin(rt, told)?;
    let failed = serve_radio(rt, polled, told, Err(233), 2001, 2005)?;
    show_state(rt, failed.sends, 2005)?;
    let waiting = serve_radio(rt, failed, told, Ok(()), 2010, 2014)?;
    let early = tick(rt, waiting, told, 7679)?;
    let expired = tick(rt, early, told, 7680)?;
    show_state(rt, expired.sends, 7680)?;
    words::light(rt, expired.lit)
}

fn working(rt: &impl Print, told: &mut [u64; 560]) -> io::Result<()> {
    println!(rt; "\nRun 2: the radio works.")?;
    let polled = begin(rt, told)?;
    let sent = serve_radio(rt, polled, told, Ok(()), 2001, 2005)?;
    show_state(rt, sent.sends, 2005)?;
    words::light(rt, sent.lit)
}

fn main(rt: HostRuntime) -> io::Result<()> {
    let mut told = [0u64; 560];
    failing(&rt, &mut told)?;
    working(&rt, &mut told)
}
