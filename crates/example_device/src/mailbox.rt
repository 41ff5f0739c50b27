//! The service of the device.
ghost use Rattle.std.specs.Prelude.{◌≡◌, [], take};

use bibplush::{Bytes, OutOfMemory, Service};
use std::alloc::Global;

/// A box for one message: each request puts its bytes in, and is replied with the message that lay there before, or with
/// as much of it as there is room for. Nothing lies there at first.
#[derive(Debug, Drop)]
pub struct Mailbox {
    message: Bytes,
}

impl Mailbox {
    /// An empty box. Takes no memory.
    pub fn new(alloc: Global) -> Mailbox
        ensures { result.message ≡ [] }
    {
        Mailbox {
            message: Bytes::new(alloc),
        }
    }
}

impl Service for Mailbox {
    ghost reply_of = { λ it _ room. take room it.message };

    ghost after = { λ it request _. record it { message = request } };

    fn serve(&mut self, alloc: Global, request: &[u8], room: u32) -> Result<Bytes, OutOfMemory> {
        let length = self.message.len().min(room as usize);
        let reply = Bytes::from_slice(alloc, &self.message.as_slice()[..length])?;
        let message = Bytes::from_slice(alloc, request)?;
        self.message = message;
        Ok(reply)
    }
}
