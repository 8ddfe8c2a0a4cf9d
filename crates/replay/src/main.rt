// Case files on standard input, one after the other (stored/README.md has their form): how many cases there were, and how many
// of them agreed with what trace::run writes.
#![tactic(auto)]

use counting::Tally;
use reading::Outcome;
use std::io;
use std::io::{Input, Print};

mod cases;
mod counting;
mod judging;
mod reading;

// What was counted.
fn tell(rt: &impl Print, t: Tally) -> io::Result<()> {
    println!(rt; "{} cases, {} agreed", t.cases, t.agreed)?;
    if t.agreed < t.cases {
        println!(rt; "the first that differs: {}", t.first)?;
    }
    Ok(())
}

// Where the input could not be read on: at a case, or at the head of a file.
fn damage(rt: &impl Print, t: Tally) -> io::Result<()> {
    if 0 < t.left {
        println!(rt; "damaged: {}", t.here)
    } else if t.here.file == 0 {
        println!(rt; "damaged: no head at the start")
    } else {
        println!(rt; "damaged: no head after file {}", t.here.file)
    }
}

fn main(rt: HostRuntime) -> io::Result<()> {
    match reading::walk(&mut rt.reader())? {
        Outcome::Read(t) => tell(&rt, t),
        Outcome::Broken(t) => {
            tell(&rt, t)?;
            damage(&rt, t)
        }
    }
}
