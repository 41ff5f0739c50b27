ghost use Rattle.std.specs.Prelude.{◌≡◌, true};
ghost use Rattle.vub_forms.specs.Refused.{says_no_script};
ghost use Rattle.vub_forms.specs.declared.refusal.Refusal.TheVariants.{OutOfMemory};

use crate::fault::{Fault, Step};
use std::alloc::{AllocError, AllocFailed, Global};
use thiserror::Error;

/// Why a text or a tree gives no draft.
#[derive(Debug, Drop, Error)]
pub enum Refusal {
    /// It is not in the grammar, or no JSON at all.
    #[error("not a script: {0}")]
    NoScript(Fault),
    /// Memory was refused.
    #[error("out of memory")]
    OutOfMemory,
}

impl Refusal {
    /// The refusal of a whole to which this step leads, for this refusal of its part.
    fn below(self, step: Step) -> Refusal
        ensures { says_no_script result ≡ true → says_no_script self ≡ true }
    {
        match self {
            Refusal::OutOfMemory => Refusal::OutOfMemory,
            Refusal::NoScript(fault) => match fault.below(step) {
                Ok(fault) => Refusal::NoScript(fault),
                Err(_) => Refusal::OutOfMemory,
            },
        }
    }

    /// The refusal of a list, for this refusal of its element with this number.
    pub fn in_element(self, number: usize) -> Refusal
        ensures { says_no_script result ≡ true → says_no_script self ≡ true }
    {
        self.below(Step::Element(number))
    }

    /// The refusal of an object, for this refusal of what stands at the key.
    pub fn at_key(self, alloc: Global, key: &str) -> Refusal
        ensures { says_no_script result ≡ true → says_no_script self ≡ true }
    {
        match String::from_str(alloc, key) {
            Ok(key) => self.below(Step::Member(key)),
            Err(_) => Refusal::OutOfMemory,
        }
    }
}

impl From<AllocError> for Refusal {
    ghost from_gives = { λ _ e. e ≡ OutOfMemory };

    fn from(_refused: AllocError) -> Refusal {
        Refusal::OutOfMemory
    }
}

impl<T: Drop> From<AllocFailed<T>> for Refusal {
    ghost from_gives = { λ _ e. e ≡ OutOfMemory };

    fn from(_refused: AllocFailed<T>) -> Refusal {
        Refusal::OutOfMemory
    }
}

impl From<vub_base::OutOfMemory> for Refusal {
    ghost from_gives = { λ _ e. e ≡ OutOfMemory };

    fn from(_refused: vub_base::OutOfMemory) -> Refusal {
        Refusal::OutOfMemory
    }
}
