ghost use Rattle.std.specs.Prelude.{◌≡◌, ◌↔◌, ◌<◌, IfOk, IfErr, OnErr, IsErrOf, IfSome, unwrap_or};
ghost use Rattle.vub_sparse.specs.Seek.{FindsHole, FindsData};
ghost use Rattle.vub_sparse.specs.Refusals.{greatest};

use crate::allocate::GREATEST;
use crate::error::FileError;
use crate::sparse::SparseFile;

/// Files that find their holes and their data.
pub trait SeekHole: SparseFile {
    /// The first hole at or after `offset`, to which the position moves; the end counts as a hole. `None` exactly where
    /// `offset` is at or past the end, and then the position stays.
    ///
    /// # Errors
    /// `EINVAL` exactly where `offset` passes `i64::MAX`; nothing changes.
    fn seek_hole(&mut self, offset: u64) -> Result<Option<u64>, FileError>
        ensures invalid { IsErrOf result FileError.EINVAL ↔ (greatest < offset) }
        ensures refused { IfErr result (λ e. e ≡ FileError.EINVAL) }
        ensures found { IfOk result (λ r. IfSome (Self.cells self.old) (λ cs. FindsHole cs offset r)) }
        ensures moved { IfOk result (λ r. Self.cursor self.new ≡ unwrap_or r (Self.cursor self.old)) }
        ensures stays { OnErr result (Self.cursor self.new ≡ Self.cursor self.old) }
        ensures kept { Self.cells self.new ≡ Self.cells self.old }
        ensures faults { Self.fault_count self.new ≡ Self.fault_count self.old };

    /// The first byte at or after `offset`, to which the position moves. `None` exactly where there is none, and then
    /// the position stays.
    ///
    /// # Errors
    /// `EINVAL` exactly where `offset` passes `i64::MAX`; nothing changes.
    fn seek_data(&mut self, offset: u64) -> Result<Option<u64>, FileError>
        ensures invalid { IsErrOf result FileError.EINVAL ↔ (greatest < offset) }
        ensures refused { IfErr result (λ e. e ≡ FileError.EINVAL) }
        ensures found { IfOk result (λ r. IfSome (Self.cells self.old) (λ cs. FindsData cs offset r)) }
        ensures moved { IfOk result (λ r. Self.cursor self.new ≡ unwrap_or r (Self.cursor self.old)) }
        ensures stays { OnErr result (Self.cursor self.new ≡ Self.cursor self.old) }
        ensures kept { Self.cells self.new ≡ Self.cells self.old }
        ensures faults { Self.fault_count self.new ≡ Self.fault_count self.old };
}

impl<F: SparseFile> SeekHole for F {
    fn seek_hole(&mut self, offset: u64) -> Result<Option<u64>, FileError> {
        if offset > GREATEST {
            return Err(FileError::EINVAL);
        }
        let found = next_hole(self, offset);
        move_to(self, found);
        Ok(found)
    }

    fn seek_data(&mut self, offset: u64) -> Result<Option<u64>, FileError> {
        if offset > GREATEST {
            return Err(FileError::EINVAL);
        }
        let found = next_data(self, offset);
        move_to(self, found);
        Ok(found)
    }
}

// the position moves to the place, if there is one
fn move_to<F: SparseFile>(file: &mut F, found: Option<u64>)
    ensures moved { F.cursor file.new ≡ unwrap_or found (F.cursor file.old) }
    ensures kept { F.cells file.new ≡ F.cells file.old }
    ensures faults { F.fault_count file.new ≡ F.fault_count file.old }
{
    if let Some(place) = found {
        file.set_position(place);
    }
}

fn next_hole<F: SparseFile>(file: &F, offset: u64) -> Option<u64>
    ensures { IfSome (F.cells file.now) (λ cs. FindsHole cs offset result) }
{
    let end = file.len();
    if offset >= end {
        return None;
    }
    for place in offset..end {
        if file.hole_at(place) {
            return Some(place);
        }
    }
    Some(end)
}

fn next_data<F: SparseFile>(file: &F, offset: u64) -> Option<u64>
    ensures { IfSome (F.cells file.now) (λ cs. FindsData cs offset result) }
{
    for place in offset..file.len() {
        if !file.hole_at(place) {
            return Some(place);
        }
    }
    None
}
