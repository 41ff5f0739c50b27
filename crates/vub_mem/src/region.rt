ghost use Rattle.std.specs.Prelude.{◌≡◌};
ghost use Rattle.vub_mem.specs.Place.{holds};

/// Where the pages of a region have their bits: page `p` of the guest, which begins at guest address `4096 * p`, is
/// bit `8 * offset + p` of the log. (`AtomicBitmapMmap` of the Rust crate `vhost-user-backend`.)
#[derive(Clone, Copy, Debug, PartialEq, Eq)]
pub struct AtomicBitmapMmap {
    /// The number of the log.
    pub object: u32,
    /// The byte of the log at which the guest's pages begin.
    pub offset: u64,
    /// How many pages of the guest lie before the region.
    pub pages_before: u64,
    /// How many pages the region has.
    pub pages: u64,
}

/// A range of guest addresses, and where its bytes lie: guest address `a` of the region is byte
/// `offset + (a - start)` of its object.
#[derive(Clone, Copy, Debug, PartialEq, Eq)]
pub struct Region {
    /// The first guest address.
    pub start: u64,
    /// The length in bytes.
    pub len: u64,
    /// The number of the object that holds the bytes.
    pub object: u32,
    /// The byte of the object at which the region begins.
    pub offset: u64,
    /// Where writes to the region are marked, if they are.
    pub log: Option<AtomicBitmapMmap>,
}

impl Region {
    /// Whether the guest address lies in the region.
    pub fn holds(&self, addr: u64) -> bool
        ensures { result ≡ holds self.now addr }
    {
        self.start <= addr && addr - self.start < self.len
    }
}
