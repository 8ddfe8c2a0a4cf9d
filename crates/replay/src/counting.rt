// What is counted over the cases of the input, file after file.
ghost use Rattle.std.specs.Prelude.{◌≡◌, ◌<◌};
ghost use Rattle.replay.specs.Counting.{Few, blank, past, counted_of, begun_of};

use std::fmt;

// A case by its file, counted from 1, and its place there, from 0.
#[derive(Clone, Copy)]
pub(crate) struct Spot {
    pub file: usize,
    pub place: usize,
}

impl fmt::Display for Spot {
    fn fmt<W: fmt::Write>(&self, f: &mut fmt::Formatter<W>) -> fmt::Result {
        write!(f, "file {}, case {}", self.file, self.place)
    }
}

// How many cases are left in this file, and which is the next; the first that differed; how many there were, and how many agreed.
#[derive(Clone, Copy)]
pub(crate) struct Tally {
    pub left: usize,
    pub here: Spot,
    pub first: Spot,
    pub cases: usize,
    pub agreed: usize,
}

pub(crate) fn fresh() -> Tally
    ensures { result ≡ blank }
{
    let here = Spot { file: 0, place: 0 };
    Tally {
        left: 0,
        here,
        first: here,
        cases: 0,
        agreed: 0,
    }
}

// A file begins.
pub(crate) fn begun(t: Tally, n: usize) -> Tally
    requires { Few 1048576 t }
    ensures { result ≡ begun_of t n }
{
    let here = Spot {
        file: t.here.file + 1,
        place: 0,
    };
    Tally { left: n, here, ..t }
}

fn passed(t: Tally, agreed: usize, first: Spot) -> Tally
    requires few { Few 1048576 t }
    requires left_nonzero { 0 < t.left }
    ensures { result ≡ past t agreed first }
{
    Tally {
        left: t.left - 1,
        here: Spot {
            place: t.here.place + 1,
            ..t.here
        },
        first,
        cases: t.cases + 1,
        agreed,
    }
}

// A case agreed or not.
pub(crate) fn counted(t: Tally, ok: bool) -> Tally
    requires few { Few 1048576 t }
    requires left_nonzero { 0 < t.left }
    ensures { result ≡ counted_of t ok }
{
    if ok {
        passed(t, t.agreed + 1, t.first)
    } else if t.agreed < t.cases {
        passed(t, t.agreed, t.first)
    } else {
        passed(t, t.agreed, t.here)
    }
}
