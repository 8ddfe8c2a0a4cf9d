// What calls tell, in a lent buffer of words: 112 places of five words, an action in each.
#![tactic(auto)]

ghost use Rattle.std.specs.Prelude.{◌≡◌, ◌+◌, ◌%◌, ◌<◌, ◌≤◌, [], ◌∷◌};
ghost use Rattle.codes.specs.Codes.{address_from};
ghost use Rattle.rows.specs.Moves.{settling};
ghost use Rattle.records.specs.declared.Action.TheVariants.{HandedOff, Settled};
ghost use Rattle.actions.specs.Told.{failure_from, verdict_from, action_from, action_at, CodedTags, Told};

use records::{Action, Entry, SendFailure, Verdict};

// The word of a settled action that holds all but its numbers.
fn tags_of(v: Verdict, hop: Option<u16>) -> u64
    ensures { CodedTags v hop result }
{
    let number = u64::from(u8::from(v));
    let code = records::numbers::verdict_code(v) as u64;
    let a = records::numbers::verdict_address(v);
    let tag = codes::address_tag(a);
    let last = codes::opt_word(hop);
    1 + 2 * (number + 8 * (tag + 4 * (code + 65536 * last)))
}

// Tells at place m that the mesh took the send; answers the next place.
pub fn hand_off(told: &mut [u64; 560], m: usize, e: Entry) -> usize
    requires { m < 112 }
    ensures { Told m (HandedOff e.id e.waiter ∷ []) told.old told.new result }
{
    let k = m * 5;
    told[k] = e.id as u64;
    told[k + 1] = e.waiter as u64;
    told[k + 2] = 0;
    told[k + 3] = 0;
    told[k + 4] = 0;
    m + 1
}

// Tells at place m that the send is over.
pub fn settle(told: &mut [u64; 560], m: usize, e: Entry, v: Verdict, hop: Option<u16>) -> usize
    requires { m < 112 }
    ensures { Told m (Settled e v hop ∷ []) told.old told.new result }
{
    let k = m * 5;
    let a = records::numbers::verdict_address(v);
    told[k] = e.id as u64;
    told[k + 1] = e.waiter as u64;
    told[k + 2] = e.frame as u64;
    told[k + 3] = tags_of(v, hop);
    told[k + 4] = codes::address_word(a);
    m + 1
}

// Tells from place m on that the send is over, its handoff again first where that is asked.
pub fn settle_again(
    told: &mut [u64; 560],
    m: usize,
    e: Entry,
    again: bool,
    v: Verdict,
    hop: Option<u16>,
) -> usize
    requires { m + 2 ≤ 112 }
    ensures { Told m (settling e again v hop) told.old told.new result }
{
    let next = if again { hand_off(told, m, e) } else { m };
    settle(told, next, e, v, hop)
}

// The numbers are digits of the buffer's words, in fixed memory: here they become enums.
fn failure_of(number: u64, tag: u64, address: u64) -> SendFailure
    ensures { result ≡ failure_from number (address_from tag address) }
{
    match number {
        1 => SendFailure::HandoffTimeout,
        2 => SendFailure::ApsAckTimeout,
        3 => SendFailure::IndirectExpired(codes::address_of(tag, address)),
        4 => SendFailure::RouteDiscoveryTimeout,
        5 => SendFailure::BroadcastQuorumNotReached,
        _ => SendFailure::Cancelled,
    }
}

fn verdict_of(number: u64, tag: u64, address: u64, code: u64) -> Verdict
    ensures { result ≡ verdict_from number (address_from tag address) (code % 65536) }
{
    match number {
        0 => Verdict::Success,
        7 => Verdict::Code((code % 65536) as u16),
        _ => Verdict::Failure(failure_of(number, tag, address)),
    }
}

fn action_of(id: u64, waiter: u64, frame: u64, tags: u64, address: u64) -> Action
    ensures { result ≡ action_from id waiter frame tags address }
{
    let id = (id % 4294967296) as u32;
    let waiter = (waiter % 4294967296) as u32;
    if tags % 2 == 0 {
        return Action::HandedOff(id, waiter);
    }
    let v = verdict_of(tags / 2 % 8, tags / 16 % 4, address, tags / 64 % 65536);
    let e = Entry {
        id: id,
        waiter: waiter,
        frame: (frame % 4294967296) as u32,
    };
    Action::Settled(e, v, codes::opt_of(tags / 4194304 % 131072))
}

// What is told at a place.
pub fn action_at(told: &[u64; 560], i: usize) -> Action
    requires { i < 112 }
    ensures { result ≡ action_at i told.now }
{
    let k = i * 5;
    action_of(told[k], told[k + 1], told[k + 2], told[k + 3], told[k + 4])
}
