ghost use Rattle.vub_mem.specs.Laws.{WritesKeepRest, WritesKeepShape, MarksEachPage, MarksMetPages, MarksShow};

use crate::dirty::DirtyLog;
use crate::memory::GuestMemory;

/// Law: a write changes no byte but those of its range. A byte is named by its content and its place there, since two
/// guest addresses may show one byte.
pub fn writes_keep_the_rest()
    ensures { WritesKeepRest }
{}

/// Law: a write keeps the regions, and the length of each content.
pub fn writes_keep_the_shape()
    ensures { WritesKeepShape }
{}

/// Law: in each memory every page of 4096 guest bytes that a range meets in a region with a log is among the marks of
/// the range.
pub fn every_met_page_has_a_mark<L: DirtyLog>(memory: &GuestMemory<L>)
    ensures { MarksEachPage memory.now.guest.regions }
{
    let _regions = memory.regions();
}

/// Law: in each memory a mark is among the marks of a range exactly where some address of the range lies in a region
/// with that log, and in that page.
pub fn marks_are_of_met_pages<L: DirtyLog>(memory: &GuestMemory<L>)
    ensures { MarksMetPages memory.now.guest.regions }
{
    let _regions = memory.regions();
}

/// Law: a log that shows what is marked shows each page of the marks that were made, and each that it showed before.
pub fn marks_are_shown<L: DirtyLog>()
    ensures { MarksShow L.byte_len L.marks }
{}
