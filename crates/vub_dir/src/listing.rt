ghost use Rattle.std.specs.Prelude.{◌≡◌, ◌+◌, ◌<◌, ◌^◌, ◌++◌, length, map, OnOk};
ghost use Rattle.vub_dir.specs.Directory.{dirent, dirents, dirent_size, padding};

use crate::fuse::{FUSE_DIRENT_ALIGNMENT, FUSE_NAME_OFFSET};
use crate::layout::{Field, put_fields};
use crate::tree::Tree;
use indexmap::map::Iter;
use std::alloc::AllocError;

/// How many zero bytes follow a name of this length in a listing.
fn pad(length: usize) -> usize
    ensures { result ≡ padding length }
{
    (FUSE_DIRENT_ALIGNMENT - length % FUSE_DIRENT_ALIGNMENT) % FUSE_DIRENT_ALIGNMENT
}

/// How many bytes a name takes in a listing.
fn size_of_entry(name: &[u8]) -> usize
    ensures { result ≡ dirent_size name.now }
{
    FUSE_NAME_OFFSET + name.len() + pad(name.len())
}

/// Appends one entry of a listing (`struct fuse_dirent`).
#[tactic(auto, unfolding(crate::specs::Directory::dirent))]
fn put_entry(
    out: &mut Vec<u8>,
    place: u64,
    name: &[u8],
    node: u64,
    kind: u32,
) -> Result<(), AllocError>
    requires place { place + 1 < 2 ^ 64 }
    requires name { length name.now < 2 ^ 32 }
    ensures { OnOk result (out.new.items ≡ out.old.items ++ dirent place name.now node kind) }
{
    let fields = [
        Field::U64(node),
        Field::U64(place + 1),
        Field::U32(name.len() as u32),
        Field::U32(kind),
    ];
    put_fields(out, &fields)?;
    out.extend_from_slice(name)?;
    out.resize(out.len() + pad(name.len()), 0)?;
    Ok(())
}

/// Appends whole entries, the first of which is at this place, while they have at most `size` bytes.
#[tactic(auto, unfolding(crate::specs::Directory::dirents))]
pub(crate) fn put_entries(
    out: &mut Vec<u8>,
    tree: &Tree,
    entries: Iter<'_, Vec<u8>, u64>,
    place: u64,
    size: u32,
) -> Result<(), AllocError>
    requires { place + length entries < 2 ^ 64 }
    ensures { OnOk result (out.new.items ≡ out.old.items ++
        dirents tree.now place size (map (λ e. record { name = e.0.items; node = e.1 }) entries.entry)) }
{
    let mut place = place;
    let mut left = size as usize;
    for (name, node) in entries {
        let taken = size_of_entry(name);
        if taken > left {
            return Ok(());
        }
        put_entry(out, place, name, *node, tree.kind(*node))?;
        place += 1;
        left -= taken;
    }
    Ok(())
}
