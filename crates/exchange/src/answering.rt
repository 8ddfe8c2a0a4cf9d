// The answers to one event, written if they fit before the six bytes that are kept for the end: each function gives the place after
// them, or 0.
ghost use Rattle.std.specs.Prelude.{◌≡◌, ◌+◌, ◌*◌, ◌≤◌, [], ◌∷◌, ◌++◌, length};
ghost use Rattle.listings.specs.Listings.{abandoned_items, wake_items};
ghost use Rattle.replies.specs.Replies.{acts_of, reply_items};
ghost use Rattle.answers.specs.Items.{items_bytes};
ghost use Rattle.exchange.specs.Answering.{Answering};
ghost use Rattle.exchange.specs.Types.{Refused, Done};

use model::Answer;
use records::Refusal;

// A call's answer and the n actions that it told. Called from one place alone, so that it is compiled into the run's loop
// (docs/PERFORMANCE.md).
pub(crate) fn answer(out: &mut [u8], at: usize, a: Answer, told: &[u64; 560], n: usize) -> usize
    requires n_bound { n ≤ 112 }
    requires at_in_bounds { at + 6 ≤ length out.old }
    ensures { Answering (reply_items a (acts_of told.now n)) at out.old out.new result }
{
    let long = replies::reply_length(a, told, n);
    if out.len() - at - 6 < long {
        return 0;
    }
    replies::put_reply(out, at, a, told, n)
}

// 129 alone.
pub(crate) fn answer_done(out: &mut [u8], at: usize) -> usize
    requires { at + 6 ≤ length out.old }
    ensures { Answering (Done ∷ []) at out.old out.new result }
{
    if out.len() - at - 6 < 1 {
        return 0;
    }
    answers::put_done(out, at)
}

// 128 alone.
pub(crate) fn answer_refused(out: &mut [u8], at: usize, x: Refusal) -> usize
    requires { at + 6 ≤ length out.old }
    ensures { Answering (Refused x ∷ []) at out.old out.new result }
{
    if out.len() - at - 6 < 2 {
        return 0;
    }
    answers::put_refused(out, at, x)
}

// How many bytes the answer to a question of time takes.
fn wake_length(o: Option<u64>) -> usize
    ensures { result ≡ length (items_bytes (wake_items o)) }
{
    match o {
        None => 0,
        Some(_) => 9,
    }
}

// The time of the next wake, if there is one.
pub(crate) fn answer_wake(out: &mut [u8], at: usize, o: Option<u64>) -> usize
    requires { at + 6 ≤ length out.old }
    ensures { Answering (wake_items o ++ (Done ∷ [])) at out.old out.new result }
{
    let long = wake_length(o) + 1;
    if out.len() - at - 6 < long {
        return 0;
    }
    let last = listings::put_wake(out, at, o);
    answers::put_done(out, last)
}

// The n sends that an abandon listed.
pub(crate) fn answer_abandoned(out: &mut [u8], at: usize, list: &[u64; 128], n: usize) -> usize
    requires n_bound { n ≤ 64 }
    requires n_in_bounds { n * 2 ≤ length list.now }
    requires at_in_bounds { at + 6 ≤ length out.old }
    ensures { Answering (abandoned_items list.now n ++ (Done ∷ [])) at out.old out.new result }
{
    let long = n * 9 + 1;
    if out.len() - at - 6 < long {
        return 0;
    }
    let last = listings::put_abandoned(out, at, list, n);
    answers::put_done(out, last)
}
