// The event of a record, by its kind.
ghost use Rattle.std.specs.Prelude.{◌≡◌, length};
ghost use Rattle.framing.specs.Kinds.{body_of};
ghost use Rattle.events.specs.Events.{event_of};

use crate::{Event, arrivals, routes, signals};

pub fn decode(kind: u8, body: &[u8]) -> Event
    requires { length body.now ≡ body_of kind }
    ensures { result ≡ event_of kind body.now }
{
    match kind {
        1 => signals::decode_settings(body),
        2 => arrivals::decode_unicast(body),
        3 => arrivals::decode_copy(body),
        4 => arrivals::decode_unrouted(body),
        5 => arrivals::decode_broadcast(body),
        6 => signals::decode_dequeue(body),
        7 => signals::decode_report(body),
        8 => signals::decode_poll(body),
        9 => signals::decode_ack(body),
        10 => signals::decode_retry(body),
        11 => signals::decode_fail(body),
        12 => routes::decode_route(body),
        13 => signals::decode_delivered(body),
        14 => signals::decode_drop(body),
        15 => signals::decode_cancel(body),
        16 => signals::decode_tick(body),
        17 => Event::OnAbandon,
        18 => Event::OnNextWake,
        19 => signals::decode_pair(body),
        20 => Event::OnLists,
        21 => signals::decode_has_unrouted(body),
        22 => signals::decode_has_awaiting(body),
        _ => Event::Malformed,
    }
}
