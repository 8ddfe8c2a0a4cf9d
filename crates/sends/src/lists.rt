// The calls that give lists, each into a lent array: what lies past the reported length stays as it came.
ghost use Rattle.std.specs.Prelude.{◌≡◌, map};
ghost use Rattle.codes.specs.Codes.{quorum_word};
ghost use Rattle.casting.specs.Rules.{awaited_of};
ghost use Rattle.model.specs.Model.{model_of};
ghost use Rattle.model.specs.Steps.{destinations_of};
ghost use Rattle.model.specs.Sound.{Sound};
ghost use Rattle.lent.specs.Fills.{Filled, Matching};
ghost use Rattle.sends.specs.Lists.{emptied_of, Left};

use lent::{ends, lists};
use model::{Emptied, Sends};
use sending::Book;

// Every table is emptied, and each live send is listed: its id, then its waiter, from the list's start on. The next id stays.
pub fn abandon(s: Sends, list: &mut [u64; 128]) -> Emptied
    requires { Sound s }
    ensures value { result ≡ emptied_of (model_of s) }
    ensures left { Left (model_of s) list.old list.new result }
{
    let Sends {
        counts,
        mut unicasts,
        mut unrouted,
        mut held,
        mut broadcasts,
    } = s;
    let x = ends::abandon(
        counts,
        &mut unicasts,
        &mut unrouted,
        &mut held,
        &mut broadcasts,
        list,
    );
    Emptied {
        sends: Sends {
            counts: x.counts,
            unicasts,
            unrouted,
            held,
            broadcasts,
        },
        listed: x.listed,
    }
}

// The held destinations, rising.
pub fn unrouted_destinations(s: Sends, out: &mut [u16; 16]) -> usize
    requires { Sound s }
    ensures { Filled 0 (destinations_of (model_of s)) out.old out.new result }
{
    let Sends { counts, held, .. } = s;
    lists::destinations(&held, counts.held, out)
}

// The keys whose quorum is awaited, by the broadcast's id, each as one word: source + 65536 * sequence.
pub fn broadcasts_awaiting_quorum(s: Sends, out: &mut [u64; 16]) -> usize
    requires { Sound s }
    ensures { Filled 0 (map quorum_word (awaited_of (model_of s).broadcasts)) out.old out.new result }
{
    let Sends {
        counts,
        broadcasts,
        ..
    } = s;
    lists::awaiting_quorum(&broadcasts, counts.broadcasts, out)
}

// The short or the extended addresses that the radio answers a poll from with frame pending, rising, each once; refused with
// 11 where the slices are no address map.
pub fn poll_addresses(
    s: Sends,
    book: Book,
    eui: &[u64],
    nwk: &[u16],
    out: &mut [u64; 32],
) -> Option<usize>
    requires { Sound s }
    ensures { Matching book eui.now nwk.now (model_of s).unicasts out.old out.new result }
{
    let Sends {
        counts,
        unicasts,
        ..
    } = s;
    lists::poll_addresses(&unicasts, counts.unicasts, book, eui, nwk, out)
}
