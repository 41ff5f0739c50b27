use crate::rule::Rule;
use std::alloc::Global;
use std::fmt;
use std::fmt::Write;
use vub_base::{Listed, OutOfMemory};

/// A step from a tree to a part of it.
#[derive(Debug, Drop)]
pub enum Step {
    /// To the member with this key.
    Member(String),
    /// To the element with this number, counted from 0.
    Element(usize),
}

/// Why a text is no script: the part that is wrong, and the rule that it breaks. It is shown as the part's JSON pointer
/// (RFC 6901) and the rule.
#[derive(Debug, Drop)]
pub struct Fault {
    /// The steps from the whole to the part, the last one first.
    steps: Listed<Step>,
    rule: Rule,
}

impl Fault {
    /// The whole breaks this rule.
    pub fn of(alloc: Global, rule: Rule) -> Fault {
        Fault {
            steps: Listed::new(alloc),
            rule,
        }
    }

    /// The same fault of a whole of which this step leads to the whole so far.
    ///
    /// # Errors
    /// Want of memory.
    pub fn below(self, step: Step) -> Result<Fault, OutOfMemory> {
        let Fault { mut steps, rule } = self;
        steps.push(step)?;
        Ok(Fault { steps, rule })
    }

    /// The rule that is broken.
    pub fn rule(&self) -> Rule {
        self.rule
    }
}

/// Writes a key as a part of a pointer: `~` as `~0` and `/` as `~1`.
fn write_key<W: fmt::Write>(f: &mut fmt::Formatter<W>, key: &str) -> fmt::Result {
    for character in key.chars() {
        match character {
            '~' => f.write_str("~0")?,
            '/' => f.write_str("~1")?,
            _ => f.write_char(character)?,
        }
    }
    Ok(())
}

impl fmt::Display for Step {
    fn fmt<W: fmt::Write>(&self, f: &mut fmt::Formatter<W>) -> fmt::Result {
        match self {
            Step::Member(key) => {
                f.write_str("/")?;
                write_key(f, key.as_str())
            }
            Step::Element(number) => write!(f, "/{number}"),
        }
    }
}

impl fmt::Display for Fault {
    fn fmt<W: fmt::Write>(&self, f: &mut fmt::Formatter<W>) -> fmt::Result {
        for step in self.steps.as_slice().iter().rev() {
            write!(f, "{step}")?;
        }
        if !self.steps.is_empty() {
            f.write_str(": ")?;
        }
        write!(f, "{}", self.rule)
    }
}
