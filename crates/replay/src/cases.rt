// The form of a case file: what the twelve bytes of a head, or at the start of a case, say.
ghost use Rattle.std.specs.Prelude.{◌≡◌, ◌≤◌, ◌<◌};
ghost use Rattle.replay.specs.Cases.{four_in, head_in, case_in};

// What a case claims: the capacity, and how long the trace and the answers are.
#[derive(Clone, Copy)]
pub(crate) struct Case {
    pub capacity: usize,
    pub long: usize,
    pub answers: usize,
}

// A number of four bytes, the lowest first.
fn four_in(b: &[u8; 12], at: usize) -> usize
    requires { at ≤ 8 }
    ensures value { result ≡ four_in b.now at }
    ensures upper_bound { result < 4294967296 }
{
    usize::from(b[at])
        + 256 * usize::from(b[at + 1])
        + 65536 * usize::from(b[at + 2])
        + 16777216 * usize::from(b[at + 3])
}

// The letters SENDS, two zeros and 1, as two numbers; then how many cases follow.
pub(crate) fn head_in(b: &[u8; 12]) -> Option<usize>
    ensures { result ≡ head_in b.now }
{
    if four_in(b, 0) != 0x444e4553 || four_in(b, 4) != 0x01000053 {
        return None;
    }
    Some(four_in(b, 8))
}

// No case of ours has a capacity above 4096, a trace above 65537 bytes, or more answers than the capacity.
pub(crate) fn case_in(b: &[u8; 12]) -> Option<Case>
    ensures { result ≡ case_in b.now }
{
    let capacity = four_in(b, 0);
    let long = four_in(b, 4);
    let answers = four_in(b, 8);
    if 4096 < capacity || 65537 < long || capacity < answers {
        return None;
    }
    Some(Case {
        capacity,
        long,
        answers,
    })
}
