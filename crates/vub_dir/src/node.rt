ghost use Rattle.std.specs.Prelude.{◌≡◌};
ghost use Rattle.vub_dir.specs.Attributes.{size_of, blocks_of, mode_of, links_of, kind_of, attribute_fields};
ghost use Rattle.vub_dir.specs.Tree.{child_in};

use crate::content::Content;
use crate::fuse::{DIRECTORY_MODE, DT_DIR, DT_REG, ENOENT, ENOTDIR, FILE_MODE};
use crate::layout::Field;
use crate::names::Names;

/// What a node of the tree is. `N` is what holds the names of a directory.
#[derive(Debug, Drop)]
pub enum Node<N> {
    /// A directory, with the names in it.
    Directory(N),
    /// A file, with its bytes.
    File(Content),
}

impl Node<Names> {
    /// The length of a file in bytes; 0 for a directory.
    fn size(&self) -> u64
        ensures { result ≡ size_of self.now }
    {
        match self {
            Node::Directory(_) => 0,
            Node::File(content) => content.len() as u64,
        }
    }

    /// The type and the rights.
    fn mode(&self) -> u32
        ensures { result ≡ mode_of self.now }
    {
        match self {
            Node::Directory(_) => DIRECTORY_MODE,
            Node::File(_) => FILE_MODE,
        }
    }

    /// How many names there are for the node: its own one, and for a directory the one that it has for itself.
    fn links(&self) -> u32
        ensures { result ≡ links_of self.now }
    {
        match self {
            Node::Directory(_) => 2,
            Node::File(_) => 1,
        }
    }

    /// The type that an entry of a listing has.
    pub(crate) fn kind(&self) -> u32
        ensures { result ≡ kind_of self.now }
    {
        match self {
            Node::Directory(_) => DT_DIR,
            Node::File(_) => DT_REG,
        }
    }

    /// The node that the name stands for in this directory, or the number of an error.
    pub(crate) fn child(&self, name: &[u8]) -> Result<u64, u32>
        ensures { result ≡ child_in self.now name.now }
    {
        match self {
            Node::File(_) => Err(ENOTDIR),
            Node::Directory(names) => match names.find(name) {
                None => Err(ENOENT),
                Some(number) => Ok(number),
            },
        }
    }

    /// The attributes (`struct fuse_attr`) of this node with this number.
    #[tactic(auto, unfolding(crate::specs::Attributes::attribute_fields))]
    pub(crate) fn attributes(&self, number: u64) -> [Field; 16]
        ensures { result ≡ attribute_fields number self.now }
    {
        let size = self.size();
        [
            Field::U64(number),
            Field::U64(size),
            Field::U64(blocks(size)),
            Field::U64(0),
            Field::U64(0),
            Field::U64(0),
            Field::U32(0),
            Field::U32(0),
            Field::U32(0),
            Field::U32(self.mode()),
            Field::U32(self.links()),
            Field::U32(0),
            Field::U32(0),
            Field::U32(0),
            Field::U32(4096),
            Field::U32(0),
        ]
    }
}

/// How many blocks of 512 bytes hold `size` bytes.
fn blocks(size: u64) -> u64
    ensures { result ≡ blocks_of size }
{
    size.div_ceil(512)
}
