//! Guest memory: regions of guest addresses over numbered contents, with logs of dirty pages.
#![tactic(auto)]

mod atomic_bitmap;
mod bitmap;
mod bitmap_region;
mod content;
mod dirty;
mod errors;
mod harvests;
mod laws;
mod mapping;
mod marks;
mod memory;
mod no_bitmap;
mod numbered;
mod place;
mod places;
mod read_back;
mod region;
mod starts;
mod table;
mod track;

pub use bitmap::{Bitmap, BitmapReplace, MemRegionBitmap};
pub use bitmap_region::BitmapMmapRegion;
pub use content::Content;
pub use dirty::{DirtyLog, HarvestLog, Stored};
pub use errors::{LogError, MemError};
pub use laws::{
    every_met_page_has_a_mark, marks_are_of_met_pages, marks_are_shown, writes_keep_the_rest,
    writes_keep_the_shape,
};
pub use mapping::{Mapping, va_to_gpa};
pub use memory::GuestMemory;
pub use place::Place;
pub use read_back::writes_are_read_back;
pub use region::{AtomicBitmapMmap, Region};
pub use vub_base::{Bytes, OutOfMemory};
