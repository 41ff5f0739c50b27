ghost use Rattle.std.specs.Prelude.{◌≡◌};
ghost use Rattle.std.specs.List.{find};
ghost use Rattle.std.specs.Option.{option_copied};
ghost use Rattle.vub_mem.specs.Mappings.{maps, gpa_of};

use crate::errors::MemError;

/// A range of addresses of the front end, and the guest address at which it begins.
#[derive(Clone, Copy, Debug, PartialEq, Eq)]
pub struct Mapping {
    /// The first address of the front end.
    pub user: u64,
    /// The length in bytes.
    pub len: u64,
    /// The guest address of the first.
    pub start: u64,
}

impl Mapping {
    /// Whether the mapping holds this address of the front end.
    pub fn holds(&self, va: u64) -> bool
        ensures { result ≡ maps self.now va }
    {
        self.user <= va
            && va - self.user < self.len
            && self.start.checked_add(va - self.user).is_some()
    }
}

fn find_mapping(mappings: &[Mapping], va: u64) -> Option<&Mapping>
    ensures { option_copied result ≡ find (λ m. maps m va) mappings.now }
{
    mappings.iter().find(|m| m.holds(va))
}

/// The guest address of an address of the front end: that of the first mapping that holds it.
///
/// # Errors
/// `MissingMemoryMapping` exactly where no mapping holds it.
pub fn va_to_gpa(mappings: &[Mapping], va: u64) -> Result<u64, MemError>
    ensures { result ≡ gpa_of mappings.now va }
{
    match find_mapping(mappings, va) {
        Some(mapping) => Ok(mapping.start + (va - mapping.user)),
        None => Err(MemError::MissingMemoryMapping),
    }
}
