// One event of a trace: it is applied to the tables, the settings and the address map, all lent, and its answers are written if
// they fit before the six bytes that are kept for the end.
#![tactic(auto)]

ghost use Rattle.std.specs.Prelude.{◌+◌, ◌≤◌, ◌≡◌, true, false, [], length};
ghost use Rattle.framing.specs.Kinds.{body_of};
ghost use Rattle.events.specs.Events.{event_of};
ghost use Rattle.events.specs.Routes.{results_in};
ghost use Rattle.exchange.specs.World.{world_of, is_own, step_on};
ghost use Rattle.exchange.specs.Turns.{Ready, Turned};
ghost use Rattle.exchange.specs.Types.{OnAbandon, OnPair};

use events::signals;
use fields::numbers;
use lent::ends;
use listings::maps;
use model::Counts;
use records::{Refusal, Settings};

pub mod answering;
pub mod lists;

// What an event leaves beside the lent arrays: the last is the place after its answers, or 0 where they do not fit. A number and no
// enum, whose bytes would go through memory on every event.
#[derive(Clone, Copy)]
pub struct Left {
    pub counts: Counts,
    pub settings: Settings,
    pub pairs: usize,
    pub wrote: usize,
}

// A pair for the address map.
fn pair(
    c: Counts,
    w: &mut [u64; 320],
    v: &mut [u64; 112],
    d: &mut [u64; 32],
    b: &mut [u64; 112],
    told: &mut [u64; 560],
    s: Settings,
    eui: &mut [u64; 32],
    nwk: &mut [u16; 32],
    pairs: usize,
    out: &mut [u8],
    at: usize,
    x: u64,
    y: u16,
) -> Left
    requires ready { Ready c w.old v.old d.old b.old eui.old nwk.old pairs told.old }
    requires at_in_bounds { at + 6 ≤ length out.old }
    ensures { Turned (step_on (world_of c w.old v.old d.old b.old s eui.old nwk.old pairs) (OnPair x y) []) at out.old w.new v.new d.new b.new eui.new nwk.new told.new out.new result }
{
    match maps::put_pair(eui, nwk, pairs, x, y) {
        None => {
            let wrote = answering::answer_refused(out, at, Refusal::NoPlace);
            Left {
                counts: c,
                settings: s,
                pairs,
                wrote,
            }
        }
        Some(n) => {
            let wrote = answering::answer_done(out, at);
            Left {
                counts: c,
                settings: s,
                pairs: n,
                wrote,
            }
        }
    }
}

// Every table is emptied.
fn abandon(
    c: Counts,
    w: &mut [u64; 320],
    v: &mut [u64; 112],
    d: &mut [u64; 32],
    b: &mut [u64; 112],
    told: &mut [u64; 560],
    s: Settings,
    eui: &mut [u64; 32],
    nwk: &mut [u16; 32],
    pairs: usize,
    out: &mut [u8],
    at: usize,
) -> Left
    requires ready { Ready c w.old v.old d.old b.old eui.old nwk.old pairs told.old }
    requires at_in_bounds { at + 6 ≤ length out.old }
    ensures { Turned (step_on (world_of c w.old v.old d.old b.old s eui.old nwk.old pairs) OnAbandon []) at out.old w.new v.new d.new b.new eui.new nwk.new told.new out.new result }
{
    let mut list = [0; 128];
    let x = ends::abandon(c, w, v, d, b, &mut list);
    let wrote = answering::answer_abandoned(out, at, &list, x.listed);
    Left {
        counts: x.counts,
        settings: s,
        pairs,
        wrote,
    }
}

// Whether the run sees to a kind itself: settings, abandon, next wake, a pair, the lists.
pub fn is_own(kind: u8) -> bool
    ensures { result ≡ is_own kind }
{
    matches!(kind, 1 | 17..=20)
}

// A record of a kind that is a call of the tables. It and the next are functions of their own, each small enough to be compiled into
// the run's loop (docs/PERFORMANCE.md).
pub fn call(
    c: Counts,
    w: &mut [u64; 320],
    v: &mut [u64; 112],
    d: &mut [u64; 32],
    b: &mut [u64; 112],
    told: &mut [u64; 560],
    s: Settings,
    eui: &mut [u64; 32],
    nwk: &mut [u16; 32],
    pairs: usize,
    out: &mut [u8],
    at: usize,
    kind: u8,
    body: &[u8],
) -> Left
    requires ready { Ready c w.old v.old d.old b.old eui.old nwk.old pairs told.old }
    requires at_in_bounds { at + 6 ≤ length out.old }
    requires body_len { length body.now ≡ body_of kind }
    requires kind_value { is_own kind ≡ false }
    ensures { Turned (step_on (world_of c w.old v.old d.old b.old s eui.old nwk.old pairs) (event_of kind body.now) (results_in body.now)) at out.old w.new v.new d.new b.new eui.new nwk.new told.new out.new result }
{
    let x = steps::act(c, w, v, d, b, told, s, kind, body);
    let wrote = answering::answer(out, at, x.answer, told, x.told);
    Left {
        counts: x.counts,
        settings: s,
        pairs,
        wrote,
    }
}

// A record of a kind that the run sees to itself.
pub fn serve(
    c: Counts,
    w: &mut [u64; 320],
    v: &mut [u64; 112],
    d: &mut [u64; 32],
    b: &mut [u64; 112],
    told: &mut [u64; 560],
    s: Settings,
    eui: &mut [u64; 32],
    nwk: &mut [u16; 32],
    pairs: usize,
    out: &mut [u8],
    at: usize,
    kind: u8,
    body: &[u8],
) -> Left
    requires ready { Ready c w.old v.old d.old b.old eui.old nwk.old pairs told.old }
    requires at_in_bounds { at + 6 ≤ length out.old }
    requires body_len { length body.now ≡ body_of kind }
    requires kind_value { is_own kind ≡ true }
    ensures { Turned (step_on (world_of c w.old v.old d.old b.old s eui.old nwk.old pairs) (event_of kind body.now) (results_in body.now)) at out.old w.new v.new d.new b.new eui.new nwk.new told.new out.new result }
{
    match kind {
        1 => {
            let settings = signals::settings_in(body);
            let wrote = answering::answer_done(out, at);
            Left {
                counts: c,
                settings,
                pairs,
                wrote,
            }
        }
        17 => abandon(c, w, v, d, b, told, s, eui, nwk, pairs, out, at),
        18 => {
            let t = ends::next_wake(c, w, v, d, b);
            let wrote = answering::answer_wake(out, at, t);
            Left {
                counts: c,
                settings: s,
                pairs,
                wrote,
            }
        }
        19 => {
            let x = numbers::u64_at(body, 0);
            let y = numbers::u16_at(body, 8);
            pair(c, w, v, d, b, told, s, eui, nwk, pairs, out, at, x, y)
        }
        _ => {
            let wrote = lists::answer_lists(out, at, c, w, d, b, eui, nwk, pairs);
            Left {
                counts: c,
                settings: s,
                pairs,
                wrote,
            }
        }
    }
}
