// A trace on standard input, its answers on standard output, as raw bytes. All the work is trace::run's.
#![tactic(auto)]

ghost use Rattle.std.specs.Prelude.{◌≡◌, length};

use input::read_full;
use std::io;
use std::io::{Input, Print};

// One byte more than the longest trace: if it is full, the trace was longer.
fn space() -> [u8; 65537]
    ensures { 65537 ≡ length result }
{
    [0; 65537]
}

fn main(rt: HostRuntime) -> io::Result<()> {
    let mut input = space();
    let n = read_full(&mut rt.reader(), &mut input)?;
    let mut output = [0u8; 65536];
    let m = trace::run(&input[..n], &mut output);
    rt.write_all(&output[..m])
}
