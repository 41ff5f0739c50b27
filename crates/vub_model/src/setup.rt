use vub_base::{Bytes, Listed};
use vub_proto::Request;

/// An object of a set-up. Object `i` of the list has number `i`.
#[derive(Debug, Drop)]
pub enum Object {
    /// An event counter, made with these flags (`EFD_SEMAPHORE` 1; see eventfd(2)). Its count is 0 at first.
    Event { flags: u32 },
    /// Some bytes, of which regions of guest memory may show parts.
    Content(Bytes),
    /// A log of dirty pages of `len` bytes, with one bit a page. None is marked at first.
    Log { len: u32 },
}

/// An action of the guest.
#[derive(Debug, Drop)]
pub enum Guest {
    /// Stores bytes in a content.
    Store {
        object: u32,
        offset: u64,
        bytes: Bytes,
    },
    /// Adds 1 to an event's count; a full counter stays.
    Signal {
        object: u32,
    },
    /// Hands out a word of a log and clears it: word `w` has the bits of pages `32 * w` to `32 * w + 31`.
    Harvest {
        object: u32,
        word: u64,
    },
}

/// A region of guest memory: `len` guest addresses from `start` on, which show the bytes of a content from `offset` on.
/// `user` is its first address in the front-end's own space.
#[derive(Clone, Copy, Debug, PartialEq, Eq)]
pub struct GivenRegion {
    pub start: u64,
    pub len: u64,
    pub user: u64,
    pub offset: u64,
    pub object: u32,
}

/// The guest addresses of a ring's three areas (virtio 1.2, section 2.7).
#[derive(Clone, Copy, Debug, PartialEq, Eq)]
pub struct Info {
    /// The descriptor table.
    pub desc: u64,
    /// The available ring.
    pub avail: u64,
    /// The used ring.
    pub used: u64,
}

/// A ring as it stands when the run begins.
#[derive(Clone, Copy, Debug, PartialEq, Eq)]
pub struct GivenRing {
    /// The queue's number.
    pub queue: u32,
    /// The queue's size, in descriptors.
    pub size: u16,
    pub info: Option<Info>,
    /// The number of the next entry to be taken, modulo 65536.
    pub base: u16,
    /// The next used index.
    pub next_used: u16,
    /// The event object by which the guest tells of new entries.
    pub kick: Option<u32>,
    /// The event object by which used entries are told.
    pub call: Option<u32>,
    pub ready: bool,
    pub enabled: bool,
}

/// What a run begins with.
#[derive(Debug, Drop)]
pub struct Setup {
    pub objects: Listed<Object>,
    pub regions: Listed<GivenRegion>,
    pub rings: Listed<GivenRing>,
    /// What the front end asks of control, one request after the other.
    pub requests: Listed<Request>,
    /// What the guest does, one action a turn.
    pub guest: Listed<Guest>,
}
