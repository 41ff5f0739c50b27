ghost use Rattle.std.specs.Prelude.{◌≡◌, ◌++◌, ◌∷◌, [], ℕ, List, length, min, IfOk, OnErr};
ghost use Rattle.vub_base.specs.Told.{Told};
ghost use Rattle.vub_event.specs.Errors.{RefusesBy};
ghost use Rattle.vub_counter.specs.Messages.{written_over, joined, closed};

use crate::message::Message;
use std::alloc::Global;
use std::collections::VecDeque;
use std::marker::Model;
use vub_base::{Bytes, Listed};
use vub_event::{Host, HostError};

/// A buffer of bytes that a message is sent from.
pub trait IntoIovec: Drop {
    // the bytes
    ghost bytes_of: { Self → List ℕ };

    /// The bytes.
    fn bytes(&self) -> &[u8]
        ensures { result.now ≡ bytes_of self.now };

    /// How many there are.
    fn size(&self) -> usize
        ensures { result ≡ length (bytes_of self.now) };
}

impl IntoIovec for &[u8] {
    ghost bytes_of = { λ b. b.now };

    fn bytes(&self) -> &[u8] {
        self
    }

    fn size(&self) -> usize {
        self.len()
    }
}

impl IntoIovec for Vec<u8> {
    ghost bytes_of = { λ b. b.items };

    fn bytes(&self) -> &[u8] {
        self.as_slice()
    }

    fn size(&self) -> usize {
        self.len()
    }
}

/// A socket whose messages carry objects beside their bytes: unix(7) with SCM_RIGHTS.
pub trait ScmSocket: Drop {
    ghost use Rattle.std.specs.Prelude.{◌≡◌, ◌++◌, ◌∷◌, [], List, ℕ, length, IfOk, OnErr};
    ghost use Rattle.vub_base.specs.Told.{Told};
    ghost use Rattle.vub_event.specs.declared.error.HostError.{HostError};
    ghost use Rattle.vub_event.specs.Errors.{RefusesBy};
    ghost use Rattle.vub_counter.specs.declared.message.Message.{Message};
    ghost use Rattle.vub_counter.specs.Messages.{Receives, ReceivesOne, receive_after, joined};

    // the messages that were sent and not yet received, the oldest first
    ghost queue: { Self → List Message };

    /// Sends the bytes of `buf` with one object, and answers the number of the bytes. The host isn't asked.
    ///
    /// # Errors
    /// Want of memory leaves the queue as it was.
    fn send_with_fd<H: Host, D: IntoIovec>(
        &mut self,
        alloc: Global,
        host: &mut H,
        buf: D,
        object: u32,
    ) -> Result<usize, HostError>
        ensures refusals { RefusesBy result (HostError.OutOfMemory ∷ []) }
        ensures host { host.new ≡ host.old }
        ensures sent { IfOk result (λ n. (n ≡ length (D.bytes_of buf))
            × (queue self.new ≡ queue self.old ++ record { bytes = D.bytes_of buf; objects = object ∷ [] } ∷ [])) }
        ensures err { OnErr result (queue self.new ≡ queue self.old) };

    /// Sends the bytes of these buffers, one after the other, with these objects, and answers the number of the bytes.
    /// The host isn't asked.
    ///
    /// # Errors
    /// Want of memory leaves the queue as it was.
    fn send_with_fds<H: Host>(
        &mut self,
        alloc: Global,
        host: &mut H,
        bufs: &[Vec<u8>],
        objects: &[u32],
    ) -> Result<usize, HostError>
        ensures refusals { RefusesBy result (HostError.OutOfMemory ∷ []) }
        ensures host { host.new ≡ host.old }
        ensures sent { IfOk result (λ n. (n ≡ length (joined bufs.now))
            × (queue self.new ≡ queue self.old ++ record { bytes = joined bufs.now; objects = objects.now } ∷ [])) }
        ensures err { OnErr result (queue self.new ≡ queue self.old) };

    /// Receives the first message, which may have one object. Bytes past the buffer are lost.
    ///
    /// # Errors
    /// WouldBlock where there is none; ENOBUFS where it has more objects, which are closed, and the message is gone.
    fn recv_with_fd<H: Host>(
        &mut self,
        host: &mut H,
        buf: &mut [u8],
    ) -> Result<(usize, Option<u32>), HostError>
        ensures received { ReceivesOne (queue self.old) buf.old result (queue self.new) buf.new }
        ensures faults { H.fault_count host.new ≡ H.fault_count host.old }
        ensures still { H.never_fails host.old → H.never_fails host.new }
        ensures table { Told (H.held host.old) (H.held host.new)
            (λ old new. new ≡ receive_after (queue self.old) result old) };

    /// Receives the first message, and answers the numbers of its bytes and of its objects. Bytes past the buffer are
    /// lost.
    ///
    /// # Errors
    /// WouldBlock where there is none; ENOBUFS where it has more objects than there is room for, which are closed, and
    /// the message is gone.
    fn recv_with_fds<H: Host>(
        &mut self,
        host: &mut H,
        buf: &mut [u8],
        objects: &mut [u32],
    ) -> Result<(usize, usize), HostError>
        ensures received { Receives (queue self.old) buf.old objects.old result (queue self.new) buf.new objects.new }
        ensures faults { H.fault_count host.new ≡ H.fault_count host.old }
        ensures still { H.never_fails host.old → H.never_fails host.new }
        ensures table { Told (H.held host.old) (H.held host.new)
            (λ old new. new ≡ receive_after (queue self.old) result old) };
}

/// A socket in memory: what is sent stands in its own queue until it is received. A contract sees the queue.
#[derive(Debug, Drop)]
pub struct MemSocket {
    queue: VecDeque<Message>,
}

impl Model for MemSocket {
    ghost use Rattle.std.specs.Prelude.{List};
    ghost use Rattle.vub_counter.specs.declared.message.Message.{Message};

    ghost Value = { List Message };

    ghost view = { λ s. s.queue.items };
}

impl MemSocket {
    /// No message. Takes no memory.
    pub fn new(alloc: Global) -> MemSocket
        ensures { result ≡ [] }
    {
        MemSocket {
            queue: VecDeque::new(alloc),
        }
    }

    /// Puts a message at the end of the queue.
    fn send(&mut self, bytes: Bytes, objects: Listed<u32>) -> Result<usize, HostError>
        ensures refusals { RefusesBy result (HostError.OutOfMemory ∷ []) }
        ensures sent { IfOk result (λ n. (n ≡ length bytes)
            × (self.new ≡ self.old ++ record { bytes = bytes; objects = objects } ∷ [])) }
        ensures err { OnErr result (self.new ≡ self.old) }
    {
        let count = bytes.len();
        self.queue.push_back(Message { bytes, objects })?;
        Ok(count)
    }
}

/// The bytes of these buffers, one after the other.
fn join(alloc: Global, bufs: &[Vec<u8>]) -> Result<Bytes, HostError>
    ensures refusals { RefusesBy result (HostError.OutOfMemory ∷ []) }
    ensures joined { IfOk result (λ bytes. bytes ≡ joined bufs.now) }
{
    let mut bytes = Vec::new(alloc);
    for buf in bufs {
        bytes.extend_from_slice(buf)?;
    }
    Ok(Bytes::from_vec(bytes))
}

/// Writes `from` over the front of `to`, as far as there is room, and answers how many elements are written.
fn write_over<T: Copy>(to: &mut [T], from: &[T]) -> usize
    ensures count { result ≡ min (length from.now) (length to.old) }
    ensures after { to.new ≡ written_over from.now to.old }
{
    let count = from.len().min(to.len());
    to[..count].copy_from_slice(&from[..count]);
    count
}

/// Closes these objects, one after the other.
fn close_all<H: Host>(host: &mut H, objects: &[u32])
    ensures faults { H.fault_count host.new ≡ H.fault_count host.old }
    ensures still { H.never_fails host.old → H.never_fails host.new }
    ensures table { Told (H.held host.old) (H.held host.new) (λ old new. new ≡ closed old objects.now) }
{
    for object in objects {
        host.close(*object);
    }
}

impl ScmSocket for MemSocket {
    ghost queue = { λ s. s };

    fn send_with_fd<H: Host, D: IntoIovec>(
        &mut self,
        alloc: Global,
        _host: &mut H,
        buf: D,
        object: u32,
    ) -> Result<usize, HostError> {
        let bytes = Bytes::from_slice(alloc, buf.bytes())?;
        let objects = Listed::from_vec(Vec::from_slice(alloc, &[object])?);
        self.send(bytes, objects)
    }

    fn send_with_fds<H: Host>(
        &mut self,
        alloc: Global,
        _host: &mut H,
        bufs: &[Vec<u8>],
        objects: &[u32],
    ) -> Result<usize, HostError> {
        let bytes = join(alloc, bufs)?;
        let objects = Listed::from_vec(Vec::from_slice(alloc, objects)?);
        self.send(bytes, objects)
    }

    fn recv_with_fd<H: Host>(
        &mut self,
        host: &mut H,
        buf: &mut [u8],
    ) -> Result<(usize, Option<u32>), HostError> {
        let Some(message) = self.queue.pop_front() else {
            return Err(HostError::WouldBlock);
        };
        let objects = message.objects.as_slice();
        if objects.len() > 1 {
            close_all(host, objects);
            return Err(HostError::ENOBUFS);
        }
        let count = write_over(buf, message.bytes.as_slice());
        Ok((count, objects.first().copied()))
    }

    fn recv_with_fds<H: Host>(
        &mut self,
        host: &mut H,
        buf: &mut [u8],
        objects: &mut [u32],
    ) -> Result<(usize, usize), HostError> {
        let Some(message) = self.queue.pop_front() else {
            return Err(HostError::WouldBlock);
        };
        let sent = message.objects.as_slice();
        if sent.len() > objects.len() {
            close_all(host, sent);
            return Err(HostError::ENOBUFS);
        }
        let count = write_over(buf, message.bytes.as_slice());
        Ok((count, write_over(objects, sent)))
    }
}
