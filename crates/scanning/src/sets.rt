// The source-match sets: the addresses for which a frame is pending, each set in rising order and each address once. The
// address map, from extended to short addresses, is lent as two slices.
ghost use Rattle.std.specs.Prelude.{◌≡◌};
ghost use Rattle.rows.specs.Tables.{live, Held};
ghost use Rattle.tables.specs.Layouts.{unicast_table};
ghost use Rattle.sending.specs.Members.{rises_all, map_fits, mapped_in, member_head, is_past, least_with, next_member, listing_of};

use records::{Address, Refusal, times};
use sending::Book;
use tables::unicast_rows::{self, UnicastHead};

fn rises(eui: &[u64]) -> bool
    ensures { result ≡ rises_all eui.now }
{
    eui.is_sorted_by(|a, b| a < b)
}

// Whether the slices are an address map; a call with others is refused.
pub fn map_fits(eui: &[u64], nwk: &[u16]) -> bool
    ensures { result ≡ map_fits eui.now nwk.now }
{
    eui.len() == nwk.len() && rises(eui)
}

// The short address that x is mapped to.
fn mapped(eui: &[u64], nwk: &[u16], x: u64) -> Option<u64>
    ensures { result ≡ mapped_in x eui.now nwk.now }
{
    eui.iter()
        .zip(nwk)
        .find(|(e, _)| **e == x)
        .map(|(_, short)| u64::from(*short))
}

// What a send puts into a set.
fn member_of(h: UnicastHead, book: Book, eui: &[u64], nwk: &[u16]) -> Option<u64>
    ensures { result ≡ member_head book eui.now nwk.now h }
{
    match (book, asking::rules::pending_for(h)) {
        (Book::Shorts, Address::Short(n)) => Some(u64::from(n)),
        (Book::Shorts, Address::Extended(x)) => mapped(eui, nwk, x),
        (Book::Longs, Address::Extended(x)) => Some(x),
        (_, Address::Absent) | (Book::Longs, Address::Short(_)) => None,
    }
}

fn is_past(last: Option<u64>, x: u64) -> bool
    ensures { result ≡ is_past last x }
{
    match last {
        None => true,
        Some(y) => y < x,
    }
}

fn least_with(last: Option<u64>, m: Option<u64>, b: Option<u64>) -> Option<u64>
    ensures { result ≡ least_with last m b }
{
    match m {
        Some(x) if is_past(last, x) => times::sooner_of(x, b),
        None | Some(_) => b,
    }
}

// The next member of a set after the last one given out, or its first: the least of those past it.
pub fn next_member(
    w: &[u64; 320],
    n: usize,
    book: Book,
    eui: &[u64],
    nwk: &[u16],
    last: Option<u64>,
) -> Option<u64>
    requires { Held unicast_table w.now n }
    ensures { result ≡ next_member book eui.now nwk.now last (live unicast_table w.now n) }
{
    (0..n).rev().fold(None, |least, i| {
        let member = member_of(unicast_rows::head(w, i), book, eui, nwk);
        least_with(last, member, least)
    })
}

// The next member of a source-match set, refused where the slices are no address map.
pub fn source_match(
    w: &[u64; 320],
    n: usize,
    book: Book,
    eui: &[u64],
    nwk: &[u16],
    last: Option<u64>,
) -> Result<Option<u64>, Refusal>
    requires { Held unicast_table w.now n }
    ensures { result ≡ listing_of (map_fits eui.now nwk.now) (next_member book eui.now nwk.now last (live unicast_table w.now n)) }
{
    if !map_fits(eui, nwk) {
        return Err(Refusal::MapMalformed);
    }
    Ok(next_member(w, n, book, eui, nwk, last))
}
