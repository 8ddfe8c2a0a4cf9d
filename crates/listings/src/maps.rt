// The address map of a trace in two lent arrays: the first n extended addresses, strictly rising, and the short address of each.
// An extended address that is there gets the new short one; another is put in its place, unless 32 are there.
ghost use Rattle.std.specs.Prelude.{◌≡◌, ◌∷◌, ◌≤◌, ◌<◌, length};
ghost use Rattle.std.proofs.lemmas.List.Edits.{sets};
ghost use Rattle.std.proofs.Math.Seq.{slice};
ghost use Rattle.listings.specs.Maps.{MapSound, PairPut};

// Puts x at place p; what stood there and behind, up to n, moves up by one.
fn insert<T: Copy>(row: &mut [T], n: usize, p: usize, x: T)
    requires room { n < length row.old }
    requires p_le_n { p ≤ n }
    ensures { row.new ≡ sets row.old p (x ∷ slice p n row.old) }
{
    row.copy_within(p..n, p + 1);
    row[p] = x;
}

// Maps x to y. Numbers past the pairs stay as they came; refused, all do.
pub fn put_pair(eui: &mut [u64; 32], nwk: &mut [u16; 32], n: usize, x: u64, y: u16) -> Option<usize>
    requires { MapSound eui.old nwk.old n }
    ensures { PairPut x y n eui.old nwk.old eui.new nwk.new result }
{
    match eui[..n].binary_search(&x) {
        Ok(p) => {
            nwk[p] = y;
            Some(n)
        }
        Err(_) if n == 32 => None,
        Err(p) => {
            insert(eui, n, p, x);
            insert(nwk, n, p, y);
            Some(n + 1)
        }
    }
}
