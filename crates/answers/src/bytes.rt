// Bytes and numbers written into a lent output from a place on, a number's lower byte first. Each writer answers the next place. A kind
// is here the byte that docs/TRACE.md gives it, and no value of the program's.
ghost use Rattle.std.specs.Prelude.{[], ◌∷◌, ◌++◌, ◌+◌, ◌≤◌, length};
ghost use Rattle.answers.specs.Bytes.{le_bytes, Written};

pub(crate) fn put_byte(out: &mut [u8], at: usize, b: u8) -> usize
    requires { at + 1 ≤ length out.old }
    ensures { Written at (b ∷ []) out.old out.new result }
{
    out[at] = b;
    at + 1
}

pub(crate) fn put_two(out: &mut [u8], at: usize, kind: u8, b: u8) -> usize
    requires { at + 2 ≤ length out.old }
    ensures { Written at (kind ∷ b ∷ []) out.old out.new result }
{
    let next = put_byte(out, at, kind);
    put_byte(out, next, b)
}

// A number in so many bytes, of which a u64 has 8.
pub(crate) fn put_le(out: &mut [u8], at: usize, width: usize, n: u64) -> usize
    requires few { width ≤ 8 }
    requires room { at + width ≤ length out.old }
    ensures { Written at (le_bytes width n) out.old out.new result }
{
    let next = at + width;
    out[at..next].copy_from_slice(&n.to_le_bytes()[..width]);
    next
}

// A kind and a number.
pub(crate) fn put_number(out: &mut [u8], at: usize, kind: u8, width: usize, n: u64) -> usize
    requires few { width ≤ 8 }
    requires room { at + (1 + width) ≤ length out.old }
    ensures { Written at (kind ∷ le_bytes width n) out.old out.new result }
{
    let next = put_byte(out, at, kind);
    put_le(out, next, width, n)
}

// A kind, an id and a handle.
pub(crate) fn put_pair(out: &mut [u8], at: usize, kind: u8, id: u32, handle: u32) -> usize
    requires { at + 9 ≤ length out.old }
    ensures { Written at (kind ∷ (le_bytes 4 id ++ le_bytes 4 handle)) out.old out.new result }
{
    let next = put_number(out, at, kind, 4, u64::from(id));
    put_le(out, next, 4, u64::from(handle))
}
