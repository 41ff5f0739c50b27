ghost use Rattle.std.specs.Prelude.{◌≡◌, ℕ, List, ◌++◌, OnOk, string_bytes};
ghost use Rattle.std.specs.List.{flat_map};

use std::alloc::Global;
use vub_base::OutOfMemory;

/// A record that is printed as one line.
pub trait Line {
    // the bytes of its line, with the newline
    ghost line: { Self → List ℕ };

    /// Appends the record's line to the text.
    ///
    /// # Errors
    /// Want of memory. The text may then end within the line.
    fn push_line(&self, alloc: Global, text: &mut String) -> Result<(), OutOfMemory>
        ensures { OnOk result (string_bytes text.new ≡ string_bytes text.old ++ line self.now) };
}

/// Appends the lines of these records, in their order.
///
/// # Errors
/// Want of memory. The text may then end within a line.
pub fn push_lines<T: Line>(
    alloc: Global,
    text: &mut String,
    records: &[T],
) -> Result<(), OutOfMemory>
    ensures { OnOk result (string_bytes text.new ≡ string_bytes text.old ++ flat_map T.line records.now) }
{
    for record in records {
        record.push_line(alloc, text)?;
    }
    Ok(())
}
