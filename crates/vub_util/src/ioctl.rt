//! The numbers of ioctl requests, after Linux's `asm-generic/ioctl.h`.
ghost use Rattle.std.specs.Prelude.{◌≡◌};
ghost use Rattle.vub_util.specs.Ioctl.{ioctl_number};

pub const _IOC_NRBITS: u32 = 8;

pub const _IOC_TYPEBITS: u32 = 8;

pub const _IOC_SIZEBITS: u32 = 14;

pub const _IOC_DIRBITS: u32 = 2;

pub const _IOC_NRMASK: u32 = 255;

pub const _IOC_TYPEMASK: u32 = 255;

pub const _IOC_SIZEMASK: u32 = 16383;

pub const _IOC_DIRMASK: u32 = 3;

pub const _IOC_NRSHIFT: u32 = 0;

pub const _IOC_TYPESHIFT: u32 = 8;

pub const _IOC_SIZESHIFT: u32 = 16;

pub const _IOC_DIRSHIFT: u32 = 30;

pub const _IOC_NONE: u32 = 0;

pub const _IOC_WRITE: u32 = 1;

pub const _IOC_READ: u32 = 2;

pub const IOC_IN: u32 = 1_073_741_824;

pub const IOC_OUT: u32 = 2_147_483_648;

pub const IOC_INOUT: u32 = 3_221_225_472;

pub const IOCSIZE_MASK: u32 = 1_073_676_288;

pub const IOCSIZE_SHIFT: u32 = 16;

/// The number of the request with this direction, type, place in the type and size in bytes (`_IOC`): the four side
/// by side, in 32 bits.
pub const fn ioctl_expr(dir: u32, ty: u32, nr: u32, size: u32) -> u64
    ensures { result ≡ ioctl_number dir ty nr size }
{
    ((dir << _IOC_DIRSHIFT)
        | (ty << _IOC_TYPESHIFT)
        | (nr << _IOC_NRSHIFT)
        | (size << _IOC_SIZESHIFT)) as u64
}

/// The number of a request that transfers no data (`_IO`).
pub const fn ioctl_io_nr(ty: u32, nr: u32) -> u64
    ensures { result ≡ ioctl_number 0 ty nr 0 }
{
    ioctl_expr(_IOC_NONE, ty, nr, 0)
}

/// The number of a request that reads `size` bytes (`_IOR`).
pub const fn ioctl_ior_nr(ty: u32, nr: u32, size: u32) -> u64
    ensures { result ≡ ioctl_number 2 ty nr size }
{
    ioctl_expr(_IOC_READ, ty, nr, size)
}

/// The number of a request that writes `size` bytes (`_IOW`).
pub const fn ioctl_iow_nr(ty: u32, nr: u32, size: u32) -> u64
    ensures { result ≡ ioctl_number 1 ty nr size }
{
    ioctl_expr(_IOC_WRITE, ty, nr, size)
}

/// The number of a request that reads and writes `size` bytes (`_IOWR`).
pub const fn ioctl_iowr_nr(ty: u32, nr: u32, size: u32) -> u64
    ensures { result ≡ ioctl_number 3 ty nr size }
{
    ioctl_expr(_IOC_READ | _IOC_WRITE, ty, nr, size)
}
