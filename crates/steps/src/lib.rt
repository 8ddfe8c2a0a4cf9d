// One event of a trace is applied to the lent tables, by its kind: its call, its question, or refusal 14. The kinds that the run handles
// itself do not come here. Each kind is decoded in its own arm, so that no event is ever put together in memory.
#![tactic(auto)]

ghost use Rattle.std.specs.Prelude.{◌≡◌, ◌≤◌, length};
ghost use Rattle.framing.specs.Kinds.{body_of};
ghost use Rattle.events.specs.Events.{event_of};
ghost use Rattle.events.specs.Arrivals.{unicast_of, copy_of, unrouted_of, broadcast_of};
ghost use Rattle.events.specs.Signals.{report_of, poll_of, ack_of, drop_of, has_unrouted_of, has_awaiting_of};
ghost use Rattle.events.specs.Routes.{route_of, results_in};
ghost use Rattle.model.specs.Model.{lent_model, SoundTables, Does};
ghost use Rattle.steps.specs.Applied.{effect_of, Plain, Later};

use events::Event;
use model::{Answer, Counts, Did};
use records::{QuorumKey, Refusal, Settings};

// ---- the kinds that may be outside their form

fn on_unicast(
    c: Counts,
    w: &mut [u64; 320],
    v: &mut [u64; 112],
    d: &mut [u64; 32],
    b: &mut [u64; 112],
    told: &mut [u64; 560],
    s: Settings,
    body: &[u8],
) -> Did
    requires sound_tables { SoundTables c w.old v.old d.old b.old }
    requires in_bounds { 43 ≤ length body.now }
    ensures { Does (effect_of (lent_model c w.old v.old d.old b.old) s (unicast_of body.now) (results_in body.now)) told.old w.new v.new d.new b.new told.new result }
{
    let e = events::arrivals::decode_unicast(body);
    match e {
        Event::OnUnicast(t, u) => admitting::enqueues::enqueue_unicast(
            c, w, v, d, b, told, s, u, t,
        ),
        _ => doing::quiet(c, Answer::Denied(Refusal::FieldMalformed)),
    }
}

fn on_copy(
    c: Counts,
    w: &mut [u64; 320],
    v: &mut [u64; 112],
    d: &mut [u64; 32],
    b: &mut [u64; 112],
    told: &mut [u64; 560],
    s: Settings,
    body: &[u8],
) -> Did
    requires sound_tables { SoundTables c w.old v.old d.old b.old }
    requires in_bounds { 47 ≤ length body.now }
    ensures { Does (effect_of (lent_model c w.old v.old d.old b.old) s (copy_of body.now) (results_in body.now)) told.old w.new v.new d.new b.new told.new result }
{
    let e = events::arrivals::decode_copy(body);
    match e {
        Event::OnCopy(id, t, u) => admitting::enqueues::enqueue_broadcast_copy(
            c, w, v, d, b, told, s, id, u, t,
        ),
        _ => doing::quiet(c, Answer::Denied(Refusal::FieldMalformed)),
    }
}

fn on_unrouted(
    c: Counts,
    w: &mut [u64; 320],
    v: &mut [u64; 112],
    d: &mut [u64; 32],
    b: &mut [u64; 112],
    told: &mut [u64; 560],
    s: Settings,
    body: &[u8],
) -> Did
    requires sound_tables { SoundTables c w.old v.old d.old b.old }
    requires in_bounds { 34 ≤ length body.now }
    ensures { Does (effect_of (lent_model c w.old v.old d.old b.old) s (unrouted_of body.now) (results_in body.now)) told.old w.new v.new d.new b.new told.new result }
{
    let e = events::arrivals::decode_unrouted(body);
    match e {
        Event::OnUnrouted(t, u) => admitting::enqueues::enqueue_unrouted_unicast(
            c, w, v, d, b, told, s, u, t,
        ),
        _ => doing::quiet(c, Answer::Denied(Refusal::FieldMalformed)),
    }
}

fn on_broadcast(
    c: Counts,
    w: &mut [u64; 320],
    v: &mut [u64; 112],
    d: &mut [u64; 32],
    b: &mut [u64; 112],
    told: &mut [u64; 560],
    s: Settings,
    body: &[u8],
) -> Did
    requires sound_tables { SoundTables c w.old v.old d.old b.old }
    requires in_bounds { 34 ≤ length body.now }
    ensures { Does (effect_of (lent_model c w.old v.old d.old b.old) s (broadcast_of body.now) (results_in body.now)) told.old w.new v.new d.new b.new told.new result }
{
    let e = events::arrivals::decode_broadcast(body);
    match e {
        Event::OnBroadcast(t, u) => admitting::enqueues::enqueue_broadcast(
            c, w, v, d, b, told, s, u, t,
        ),
        _ => doing::quiet(c, Answer::Denied(Refusal::FieldMalformed)),
    }
}

fn on_report(
    c: Counts,
    w: &mut [u64; 320],
    v: &mut [u64; 112],
    d: &mut [u64; 32],
    b: &mut [u64; 112],
    told: &mut [u64; 560],
    s: Settings,
    body: &[u8],
) -> Did
    requires sound_tables { SoundTables c w.old v.old d.old b.old }
    requires in_bounds { 24 ≤ length body.now }
    ensures { Does (effect_of (lent_model c w.old v.old d.old b.old) s (report_of body.now) (results_in body.now)) told.old w.new v.new d.new b.new told.new result }
{
    let e = events::signals::decode_report(body);
    match e {
        Event::OnReport {
            from,
            id,
            frame,
            result,
            clock,
            delay,
        } => lending::radio::transmitted(
            c, w, v, d, b, told, from, id, frame, result, clock, delay,
        ),
        _ => doing::quiet(c, Answer::Denied(Refusal::FieldMalformed)),
    }
}

fn on_poll(
    c: Counts,
    w: &mut [u64; 320],
    v: &mut [u64; 112],
    d: &mut [u64; 32],
    b: &mut [u64; 112],
    told: &mut [u64; 560],
    s: Settings,
    body: &[u8],
) -> Did
    requires sound_tables { SoundTables c w.old v.old d.old b.old }
    requires in_bounds { 20 ≤ length body.now }
    ensures { Does (effect_of (lent_model c w.old v.old d.old b.old) s (poll_of body.now) (results_in body.now)) told.old w.new v.new d.new b.new told.new result }
{
    let e = events::signals::decode_poll(body);
    match e {
        Event::OnPoll(t, eui, nwk) => lent::devices::poll(c, w, v, d, b, told, eui, nwk, t),
        _ => doing::quiet(c, Answer::Denied(Refusal::FieldMalformed)),
    }
}

fn on_ack(
    c: Counts,
    w: &mut [u64; 320],
    v: &mut [u64; 112],
    d: &mut [u64; 32],
    b: &mut [u64; 112],
    told: &mut [u64; 560],
    s: Settings,
    body: &[u8],
) -> Did
    requires sound_tables { SoundTables c w.old v.old d.old b.old }
    requires in_bounds { 10 ≤ length body.now }
    ensures { Does (effect_of (lent_model c w.old v.old d.old b.old) s (ack_of body.now) (results_in body.now)) told.old w.new v.new d.new b.new told.new result }
{
    let e = events::signals::decode_ack(body);
    match e {
        Event::OnAck(k) => lent::devices::aps_ack_received(c, w, v, d, b, told, k),
        _ => doing::quiet(c, Answer::Denied(Refusal::FieldMalformed)),
    }
}

fn on_route(
    c: Counts,
    w: &mut [u64; 320],
    v: &mut [u64; 112],
    d: &mut [u64; 32],
    b: &mut [u64; 112],
    told: &mut [u64; 560],
    s: Settings,
    body: &[u8],
) -> Did
    requires sound_tables { SoundTables c w.old v.old d.old b.old }
    requires in_bounds { 235 ≤ length body.now }
    ensures { Does (effect_of (lent_model c w.old v.old d.old b.old) s (route_of body.now) (results_in body.now)) told.old w.new v.new d.new b.new told.new result }
{
    let e = events::routes::decode_route(body);
    match e {
        Event::OnRoute(t, k, n) => {
            let results = events::routes::results_in(body);
            admitting::routes::route_unicasts(c, w, v, d, b, told, s, k, t, results, n)
        }
        _ => doing::quiet(c, Answer::Denied(Refusal::FieldMalformed)),
    }
}

fn on_drop(
    c: Counts,
    w: &mut [u64; 320],
    v: &mut [u64; 112],
    d: &mut [u64; 32],
    b: &mut [u64; 112],
    told: &mut [u64; 560],
    s: Settings,
    body: &[u8],
) -> Did
    requires sound_tables { SoundTables c w.old v.old d.old b.old }
    requires in_bounds { 11 ≤ length body.now }
    ensures { Does (effect_of (lent_model c w.old v.old d.old b.old) s (drop_of body.now) (results_in body.now)) told.old w.new v.new d.new b.new told.new result }
{
    let e = events::signals::decode_drop(body);
    match e {
        Event::OnDrop(eui, nwk) => lent::devices::drop_indirect_unicasts(
            c, w, v, d, b, told, eui, nwk,
        ),
        _ => doing::quiet(c, Answer::Denied(Refusal::FieldMalformed)),
    }
}

fn on_awaiting(
    c: Counts,
    w: &mut [u64; 320],
    v: &mut [u64; 112],
    d: &mut [u64; 32],
    b: &mut [u64; 112],
    told: &mut [u64; 560],
    s: Settings,
    body: &[u8],
) -> Did
    requires sound_tables { SoundTables c w.old v.old d.old b.old }
    requires in_bounds { 9 ≤ length body.now }
    ensures { Does (effect_of (lent_model c w.old v.old d.old b.old) s (has_awaiting_of body.now) (results_in body.now)) told.old w.new v.new d.new b.new told.new result }
{
    let e = events::signals::decode_has_awaiting(body);
    match e {
        Event::OnHasAwaiting(a) => {
            let x = scanning::asks::has_awaiting(w, c.unicasts, a);
            doing::quiet(c, Answer::Replied(x))
        }
        _ => doing::quiet(c, Answer::Denied(Refusal::FieldMalformed)),
    }
}

// ---- the rest

fn on_held(
    c: Counts,
    w: &mut [u64; 320],
    v: &mut [u64; 112],
    d: &mut [u64; 32],
    b: &mut [u64; 112],
    told: &mut [u64; 560],
    s: Settings,
    body: &[u8],
) -> Did
    requires sound_tables { SoundTables c w.old v.old d.old b.old }
    requires in_bounds { 2 ≤ length body.now }
    ensures { Does (effect_of (lent_model c w.old v.old d.old b.old) s (has_unrouted_of body.now) (results_in body.now)) told.old w.new v.new d.new b.new told.new result }
{
    let x = unrouted::is_held(d, c.held, fields::numbers::u16_at(body, 0));
    doing::quiet(c, Answer::Replied(x))
}

// Kinds 10 to 16, 21 and 22; any other is outside its form.
fn act_later(
    c: Counts,
    w: &mut [u64; 320],
    v: &mut [u64; 112],
    d: &mut [u64; 32],
    b: &mut [u64; 112],
    told: &mut [u64; 560],
    s: Settings,
    kind: u8,
    body: &[u8],
) -> Did
    requires sound_tables { SoundTables c w.old v.old d.old b.old }
    requires body_len { length body.now ≡ body_of kind }
    requires plain { Plain kind }
    requires later { Later kind }
    ensures { Does (effect_of (lent_model c w.old v.old d.old b.old) s (event_of kind body.now) (results_in body.now)) told.old w.new v.new d.new b.new told.new result }
{
    match kind {
        10 => admitting::routes::retry_discovery(
            c,
            w,
            v,
            d,
            b,
            told,
            fields::numbers::u16_at(body, 0),
        ),
        11 => admitting::routes::fail_unrouted(
            c,
            w,
            v,
            d,
            b,
            told,
            fields::numbers::u16_at(body, 0),
        ),
        12 => on_route(c, w, v, d, b, told, s, body),
        13 => {
            let k = QuorumKey {
                src: fields::numbers::u16_at(body, 0),
                sequence: fields::numbers::byte_at(body, 2),
            };
            lent::devices::broadcast_delivered(c, w, v, d, b, told, k)
        }
        14 => on_drop(c, w, v, d, b, told, s, body),
        15 => lent::ends::cancel(c, w, v, d, b, told, fields::numbers::u32_at(body, 0)),
        16 => lent::ends::tick(c, w, v, d, b, told, fields::numbers::u64_at(body, 0)),
        21 => on_held(c, w, v, d, b, told, s, body),
        22 => on_awaiting(c, w, v, d, b, told, s, body),
        _ => doing::quiet(c, Answer::Denied(Refusal::FieldMalformed)),
    }
}

// Kinds 2 to 9; or a later one.
pub fn act(
    c: Counts,
    w: &mut [u64; 320],
    v: &mut [u64; 112],
    d: &mut [u64; 32],
    b: &mut [u64; 112],
    told: &mut [u64; 560],
    s: Settings,
    kind: u8,
    body: &[u8],
) -> Did
    requires sound_tables { SoundTables c w.old v.old d.old b.old }
    requires body_len { length body.now ≡ body_of kind }
    requires plain { Plain kind }
    ensures { Does (effect_of (lent_model c w.old v.old d.old b.old) s (event_of kind body.now) (results_in body.now)) told.old w.new v.new d.new b.new told.new result }
{
    match kind {
        2 => on_unicast(c, w, v, d, b, told, s, body),
        3 => on_copy(c, w, v, d, b, told, s, body),
        4 => on_unrouted(c, w, v, d, b, told, s, body),
        5 => on_broadcast(c, w, v, d, b, told, s, body),
        6 => lending::radio::dequeue(c, w, v, d, b, told, fields::numbers::u64_at(body, 0)),
        7 => on_report(c, w, v, d, b, told, s, body),
        8 => on_poll(c, w, v, d, b, told, s, body),
        9 => on_ack(c, w, v, d, b, told, s, body),
        _ => act_later(c, w, v, d, b, told, s, kind, body),
    }
}
