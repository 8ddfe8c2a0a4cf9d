// One case: the run into an output full of a pattern, and whether its answers, and nothing else, stand there.
ghost use Rattle.std.specs.Prelude.{◌≡◌, ◌≤◌, get_or, replicate};
ghost use Rattle.runs.specs.Run.{run_bytes};
ghost use Rattle.replay.specs.Judging.{agrees_of, same};

// What is to stand at a place: an answer's byte, and past the answers the pattern.
fn expected(answers: &[u8], i: usize) -> u8
    ensures { result ≡ get_or answers.now i 165 }
{
    if i < answers.len() { answers[i] } else { 165 }
}

// Does an output hold the answers and past them the pattern, and was their length returned?
fn agrees(out: &[u8], n: usize, answers: &[u8]) -> bool
    ensures { result ≡ agrees_of out.now n answers.now }
{
    if n != answers.len() {
        return false;
    }
    // a `for`: the chain with `all` takes twice as many instructions a byte (docs/DESIGN-PASS.md)
    for i in 0..out.len() {
        if out[i] != expected(answers, i) {
            return false;
        }
    }
    true
}

fn pattern() -> [u8; 4096]
    ensures { result ≡ replicate 4096 165 }
{
    [165; 4096]
}

// The run is lent as much as the capacity, and all 4096 bytes are looked at.
pub(crate) fn replays(given: &[u8], capacity: usize, answers: &[u8]) -> bool
    requires { capacity ≤ 4096 }
    ensures { result ≡ same (run_bytes given.now capacity) answers.now }
{
    let mut space = pattern();
    let out: &mut [u8] = &mut space;
    let n = trace::run(given, &mut out[..capacity]);
    agrees(out, n, answers)
}
