use vub_base::{Bytes, Listed};
use vub_dir::TreeEntry;

/// The service that a script asks for.
#[derive(Debug, Drop)]
pub enum ServiceForm {
    /// It replies with the request's bytes, as many as there is room for.
    Echo,
    /// It serves the tree of these entries, each of which stands behind the directory that it is in.
    Dir(Listed<TreeEntry>),
    /// It serves a disk of so many sectors of 512 bytes, all of them holes, with this id.
    Block { sectors: u32, id: Bytes },
}
