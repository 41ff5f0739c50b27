ghost use Rattle.std.specs.Prelude.{◌≡◌, ◌≤◌, length};
ghost use Rattle.vub_dir.specs.Requests.{header_at};

use crate::layout::{u32_in, u64_in};

/// What is read of a request's header (`struct fuse_in_header`).
#[derive(Clone, Copy)]
pub struct Header {
    /// How many bytes the request has, by its own word.
    pub length: u32,
    /// What is asked.
    pub opcode: u32,
    /// What the reply repeats.
    pub unique: u64,
    /// The node that is asked about.
    pub node: u64,
}

/// The header of a request that is long enough to have one.
#[tactic(auto, unfolding(crate::specs::Requests::header_at))]
pub(crate) fn header_of(request: &[u8]) -> Header
    requires { 40 ≤ length request.now }
    ensures { result ≡ header_at request.now }
{
    Header {
        length: u32_in(request, 0),
        opcode: u32_in(request, 4),
        unique: u64_in(request, 8),
        node: u64_in(request, 16),
    }
}
