ghost use Rattle.vub_mem.specs.ReadBack.{WritesAreReadBack};

/// Law: bytes that are written into guest memory are read back, where the range is covered and no two of its addresses
/// show one byte.
pub fn writes_are_read_back()
    ensures { WritesAreReadBack }
{}
