// The input, read head by head and case by case. Each function stops at the first read that fails and answers that error, and no other.
ghost use Rattle.std.specs.Prelude.{◌≡◌, ◌≤◌, ◌<◌, length, IfOk};
ghost use Rattle.replay.specs.Counting.{Few};
ghost use Rattle.replay.specs.Reading.{FewOn};

use crate::cases::Case;
use crate::counting::Tally;
use crate::{cases, counting, judging};
use input::read_full;
use std::io;
use std::io::Read;

#[derive(Clone, Copy)]
pub(crate) enum Next {
    On(Tally),
    Ended,
    Damaged,
}

#[derive(Clone, Copy)]
pub(crate) enum Outcome {
    Read(Tally),
    Broken(Tally),
}

// Room for the longest trace.
fn space() -> [u8; 65537]
    ensures { 65537 ≡ length result }
{
    [0; 65537]
}

// A trace and its answers: whether they agree, or nothing where the input ends before they do.
fn judge<R: Read>(from: &mut R, case: Case) -> io::Result<Option<bool>>
    requires { (case.capacity ≤ 4096) × ((case.long ≤ 65537) × (case.answers ≤ 4096)) }
{
    let mut given = space();
    let trace = &mut given[..case.long];
    if read_full(from, trace)? < case.long {
        return Ok(None);
    }
    let mut stored = [0; 4096];
    let answers = &mut stored[..case.answers];
    if read_full(from, answers)? < case.answers {
        return Ok(None);
    }
    Ok(Some(judging::replays(trace, case.capacity, answers)))
}

fn next_case<R: Read>(from: &mut R, t: Tally, k: usize) -> io::Result<Next>
    requires few { Few k t }
    requires k_bound { (k < 1048576) × (0 < t.left) }
    ensures { IfOk result (FewOn k) }
{
    let mut b = [0u8; 12];
    if read_full(from, &mut b)? < 12 {
        return Ok(Next::Damaged);
    }
    let Some(case) = cases::case_in(&b) else {
        return Ok(Next::Damaged);
    };
    let Some(ok) = judge(from, case)? else {
        return Ok(Next::Damaged);
    };
    Ok(Next::On(counting::counted(t, ok)))
}

// The input may end before the head of a file, and nowhere else.
fn next_head<R: Read>(from: &mut R, t: Tally, k: usize) -> io::Result<Next>
    requires few { Few k t }
    requires k_bound { k < 1048576 }
    ensures { IfOk result (FewOn k) }
{
    let mut b = [0u8; 12];
    let n = read_full(from, &mut b)?;
    if n == 0 {
        return Ok(Next::Ended);
    }
    if n < 12 {
        return Ok(Next::Damaged);
    }
    let Some(follow) = cases::head_in(&b) else {
        return Ok(Next::Damaged);
    };
    Ok(Next::On(counting::begun(t, follow)))
}

fn next_of<R: Read>(from: &mut R, t: Tally, k: usize) -> io::Result<Next>
    requires few { Few k t }
    requires k_bound { k < 1048576 }
    ensures { IfOk result (FewOn k) }
{
    if 0 < t.left {
        next_case(from, t, k)
    } else {
        next_head(from, t, k)
    }
}

// All of it. What comes after a million heads and cases is not read: an input need not end, and the program has to.
pub(crate) fn walk<R: Read>(from: &mut R) -> io::Result<Outcome> {
    let mut t = counting::fresh();
    for k in 0..1048576 {
        match next_of(from, t, k)? {
            Next::On(u) => t = u,
            Next::Ended => return Ok(Outcome::Read(t)),
            Next::Damaged => return Ok(Outcome::Broken(t)),
        }
    }
    Ok(Outcome::Broken(t))
}
