// The reply to one event of a trace as bytes: the call's answer, the actions that it told, and 129; or one 128 alone. First how long it is,
// then its writing into a lent output.
#![tactic(auto)]

ghost use Rattle.std.specs.Prelude.{◌≡◌, ◌+◌, ◌≤◌, length};
ghost use Rattle.answers.specs.Bytes.{Written};
ghost use Rattle.answers.specs.Items.{items_bytes, actions_bytes};
ghost use Rattle.replies.specs.Replies.{acts_of, denies, answer_items, reply_bytes};

use answers::parts;
use model::Answer;

// How many bytes the first n actions of the buffer take.
pub fn actions_length(told: &[u64; 560], n: usize) -> usize
    requires { n ≤ 112 }
    ensures { result ≡ length (actions_bytes (acts_of told.now n)) }
{
    let mut total = 0;
    for i in 0..n {
        total += answers::action_length(actions::action_at(told, i));
    }
    total
}

// Writes them from place at on; answers the next place. All else of the output stays.
pub fn put_actions(out: &mut [u8], at: usize, told: &[u64; 560], n: usize) -> usize
    requires { (n ≤ 112) × (at + length (actions_bytes (acts_of told.now n)) ≤ length out.old) }
    ensures { Written at (actions_bytes (acts_of told.now n)) out.old out.new result }
{
    let mut next = at;
    for i in 0..n {
        next = answers::put_action(out, next, actions::action_at(told, i));
    }
    next
}

fn refuses(a: Answer) -> bool
    ensures { result ≡ denies a }
{
    matches!(a, Answer::Denied(_))
}

fn answer_length(a: Answer) -> usize
    ensures { result ≡ length (items_bytes (answer_items a)) }
{
    match a {
        Answer::Accepted | Answer::NothingQueued => 0,
        Answer::Denied(_) | Answer::Replied(_) => 2,
        Answer::Issued(_) => 5,
        Answer::InFlight(..) => 13,
    }
}

fn put_answer(out: &mut [u8], at: usize, a: Answer) -> usize
    requires { at + length (items_bytes (answer_items a)) ≤ length out.old }
    ensures { Written at (items_bytes (answer_items a)) out.old out.new result }
{
    match a {
        Answer::Denied(x) => answers::put_refused(out, at, x),
        Answer::Accepted | Answer::NothingQueued => at,
        Answer::Issued(id) => answers::put_id(out, at, id),
        Answer::Replied(b) => answers::put_yes_no(out, at, b),
        Answer::InFlight(id, frame, t) => parts::put_flight(out, at, id, frame, t),
    }
}

// How many bytes the reply takes.
pub fn reply_length(a: Answer, told: &[u64; 560], n: usize) -> usize
    requires { n ≤ 112 }
    ensures { result ≡ length (reply_bytes a (acts_of told.now n)) }
{
    let first = answer_length(a);
    if refuses(a) {
        return first;
    }
    let second = actions_length(told, n);
    first + second + 1
}

// Writes the reply from place at on; answers the next place. All else of the output stays.
pub fn put_reply(out: &mut [u8], at: usize, a: Answer, told: &[u64; 560], n: usize) -> usize
    requires { (n ≤ 112) × (at + length (reply_bytes a (acts_of told.now n)) ≤ length out.old) }
    ensures { Written at (reply_bytes a (acts_of told.now n)) out.old out.new result }
{
    let second = put_answer(out, at, a);
    if refuses(a) {
        return second;
    }
    let third = put_actions(out, second, told, n);
    answers::put_done(out, third)
}
