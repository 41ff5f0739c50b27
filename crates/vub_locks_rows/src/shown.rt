//! How values are shown, and what is expected of them.
use std::alloc::{AllocError, Global};
use std::error::Error;
use std::fmt::Debug;
use std::test::Fail;

/// Adds a line with the value, as its `Debug` shows it.
pub fn show<T: Debug>(alloc: Global, lines: &mut String, value: &T) -> Result<(), AllocError> {
    let line = format!(in alloc; "{value:?}\n")?;
    lines.push_str(line.as_str())
}

/// Adds a line with the text of an error.
pub fn tell<E: Error>(alloc: Global, lines: &mut String, error: &E) -> Result<(), AllocError> {
    let line = format!(in alloc; "{error}\n")?;
    lines.push_str(line.as_str())
}

/// Fails with this word unless it holds.
pub fn expect(holds: bool, otherwise: &'static str) -> Result<(), Fail> {
    if holds {
        Ok(())
    } else {
        Err(Fail::new(otherwise))
    }
}
