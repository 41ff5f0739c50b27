ghost use Rattle.std.specs.Prelude.{◌≡◌, ◌≤◌, ℕ, List, length, IfOk, OnOk, OnErr};

use std::alloc::Global;
use vub_base::{Bytes, OutOfMemory};

/// What answers the entries of a queue: a function of its own value, of the request's bytes and of the room for the
/// reply. A lawful service is one that meets these clauses, which every implementation is proved to.
pub trait Service: Drop {
    // the reply to this request with this much room, from this value
    ghost reply_of: { Self → List ℕ → ℕ → List ℕ };

    // the value after this request
    ghost after: { Self → List ℕ → ℕ → Self };

    /// The reply to `request`, the bytes of the readable segments of one entry; `room` is the number of bytes in its
    /// writable segments.
    ///
    /// # Errors
    /// Want of memory leaves the service as it was.
    fn serve(&mut self, alloc: Global, request: &[u8], room: u32) -> Result<Bytes, OutOfMemory>
        ensures reply { IfOk result (λ r. r ≡ reply_of self.old request.now room) }
        ensures fits { IfOk result (λ r. length r ≤ room) }
        ensures value { OnOk result (self.new ≡ after self.old request.now room) }
        ensures err { OnErr result (self.new ≡ self.old) };
}
