//! Numbers of the FUSE protocol (`linux/fuse.h`), of file modes (`sys/stat.h`), of directory entry types
//! (`dirent.h`) and of errors (`errno.h`), with their names there.

/// The version of the protocol that is spoken.
pub const FUSE_KERNEL_VERSION: u32 = 7;
/// The minor version that is spoken.
pub const FUSE_KERNEL_MINOR_VERSION: u32 = 31;

/// The node of the root.
pub const FUSE_ROOT_ID: u64 = 1;

/// Finds a name in a directory.
pub const FUSE_LOOKUP: u32 = 1;
/// Forgets a node; it has no reply.
pub const FUSE_FORGET: u32 = 2;
/// Asks for attributes.
pub const FUSE_GETATTR: u32 = 3;
/// Opens a file.
pub const FUSE_OPEN: u32 = 14;
/// Reads from a file.
pub const FUSE_READ: u32 = 15;
/// Writes to a file.
pub const FUSE_WRITE: u32 = 16;
/// Begins the session.
pub const FUSE_INIT: u32 = 26;
/// Lists a directory.
pub const FUSE_READDIR: u32 = 28;

/// The length of a request's header, in bytes (`struct fuse_in_header`).
pub const FUSE_IN_HEADER_SIZE: usize = 40;
/// The length of a reply's header, in bytes (`struct fuse_out_header`).
pub const FUSE_OUT_HEADER_SIZE: usize = 16;
/// The length of the body of INIT, in bytes, as far as it is read (the front of `struct fuse_init_in`).
pub const FUSE_INIT_IN_SIZE: usize = 16;
/// The length of the body of OPEN, in bytes (`struct fuse_open_in`).
pub const FUSE_OPEN_IN_SIZE: usize = 8;
/// The length of the body of READ and of READDIR, in bytes (`struct fuse_read_in`).
pub const FUSE_READ_IN_SIZE: usize = 40;
/// How many bytes of the body of WRITE stand before those that are written (`struct fuse_write_in`).
pub const FUSE_WRITE_IN_SIZE: usize = 40;
/// The length of the body of the reply to WRITE, in bytes (`struct fuse_write_out`).
pub const FUSE_WRITE_OUT_SIZE: usize = 8;
/// How many bytes of an entry of a listing stand before its name (`struct fuse_dirent`).
pub const FUSE_NAME_OFFSET: usize = 24;
/// The length of an entry of a listing is a multiple of this, in bytes (`FUSE_DIRENT_ALIGN`).
pub const FUSE_DIRENT_ALIGNMENT: usize = 8;
/// The length of the body of the reply to LOOKUP, in bytes (`struct fuse_entry_out`).
pub const FUSE_ENTRY_OUT_SIZE: u32 = 128;
/// The length of the body of the reply to GETATTR, in bytes (`struct fuse_attr_out`).
pub const FUSE_ATTR_OUT_SIZE: u32 = 104;

/// The mode of a file: a regular file, read by all and written by its owner (`S_IFREG`, 0644).
pub const FILE_MODE: u32 = 33188;
/// The mode of a directory: read and passed by all, written by its owner (`S_IFDIR`, 0755).
pub const DIRECTORY_MODE: u32 = 16877;

/// An entry that is a directory.
pub const DT_DIR: u32 = 4;
/// An entry that is a file.
pub const DT_REG: u32 = 8;

/// No such file or directory.
pub const ENOENT: u32 = 2;
/// Input or output error: here, a reply that has no room.
pub const EIO: u32 = 5;
/// Not a directory.
pub const ENOTDIR: u32 = 20;
/// Is a directory.
pub const EISDIR: u32 = 21;
/// Invalid argument.
pub const EINVAL: u32 = 22;
/// File too large.
pub const EFBIG: u32 = 27;
/// Function not implemented.
pub const ENOSYS: u32 = 38;
/// Protocol error.
pub const EPROTO: u32 = 71;

/// The most bytes that a file may hold.
pub const GREATEST_FILE: usize = 16_777_216;
/// The most bytes that a WRITE is asked to bring.
pub const GREATEST_WRITE: u32 = 1_048_576;
/// The most nodes that a tree may have.
pub const GREATEST_COUNT: usize = 65_536;
/// How deep directories may nest: an entry of the root that is a directory is at depth 1.
pub const GREATEST_DEPTH: u32 = 64;
/// The most bytes that a name may have.
pub const GREATEST_NAME: usize = 255;
