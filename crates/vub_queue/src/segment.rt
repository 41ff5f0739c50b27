ghost use Rattle.std.specs.Prelude.{◌≡◌, take, drop};

use vub_base::Listed;

/// A range of guest addresses.
#[derive(Clone, Copy, Debug, PartialEq, Eq)]
pub struct Segment {
    /// Where it begins.
    pub addr: u64,
    /// How many bytes it has.
    pub len: u32,
}

/// A list of segments.
pub type Segments = Listed<Segment>;

/// The first bytes of the rest of a reply, at most `len`, which a segment of this length holds, and those after them.
pub fn split(rest: &[u8], len: u32) -> (&[u8], &[u8])
    ensures front { result.0.now ≡ take len rest.now }
    ensures back { result.1.now ≡ drop len rest.now }
{
    if (len as usize) < rest.len() {
        rest.split_at(len as usize)
    } else {
        (rest, &[])
    }
}
