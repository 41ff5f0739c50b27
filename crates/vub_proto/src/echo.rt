ghost use Rattle.std.specs.Prelude.{take};

use crate::service::Service;
use std::alloc::Global;
use vub_base::{Bytes, OutOfMemory};

/// The service that replies with the first bytes of the request, as many as there is room for.
#[derive(Clone, Copy, Debug, Default, PartialEq, Eq)]
pub struct Echo;

impl Service for Echo {
    ghost reply_of = { λ _ request room. take room request };

    ghost after = { λ s _ _. s };

    fn serve(&mut self, alloc: Global, request: &[u8], room: u32) -> Result<Bytes, OutOfMemory> {
        let length = request.len().min(room as usize);
        Bytes::from_slice(alloc, &request[..length])
    }
}
