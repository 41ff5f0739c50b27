//! The arguments of a request.

ghost use Rattle.std.specs.Prelude.{map};
ghost use Rattle.serde_json.specs.View.{view};
ghost use Rattle.vub_forms.specs.Reading.{Gives};
ghost use Rattle.vub_forms.specs.Arguments.{none, one, two, three, four, two_or_three};

use crate::fault::Fault;
use crate::refusal::Refusal;
use crate::rule::Rule;
use crate::tree::{FromTree, element_at};
use serde_json::Value;
use std::alloc::Global;

/// No argument.
pub fn no_argument(alloc: Global, list: &[Value]) -> Result<(), Refusal>
    ensures { Gives result (none (map view list.now)) }
{
    match list {
        [] => Ok(()),
        _ => Err(Refusal::NoScript(Fault::of(alloc, Rule::Arguments))),
    }
}

/// The only argument.
pub fn one_argument<A: FromTree>(alloc: Global, list: &[Value]) -> Result<A, Refusal>
    ensures { Gives result (one A.reads (map view list.now)) }
{
    match list {
        [first] => element_at(alloc, first, 1),
        _ => Err(Refusal::NoScript(Fault::of(alloc, Rule::Arguments))),
    }
}

/// The two arguments.
pub fn two_arguments<A: FromTree, B: FromTree>(
    alloc: Global,
    list: &[Value],
) -> Result<(A, B), Refusal>
    ensures { Gives result (two A.reads B.reads (map view list.now)) }
{
    match list {
        [first, second] => {
            let first = element_at(alloc, first, 1)?;
            let second = element_at(alloc, second, 2)?;
            Ok((first, second))
        }
        _ => Err(Refusal::NoScript(Fault::of(alloc, Rule::Arguments))),
    }
}

/// The three arguments.
pub fn three_arguments<A: FromTree, B: FromTree, C: FromTree>(
    alloc: Global,
    list: &[Value],
) -> Result<(A, B, C), Refusal>
    ensures { Gives result (three A.reads B.reads C.reads (map view list.now)) }
{
    match list {
        [first, second, third] => {
            let first = element_at(alloc, first, 1)?;
            let second = element_at(alloc, second, 2)?;
            let third = element_at(alloc, third, 3)?;
            Ok((first, second, third))
        }
        _ => Err(Refusal::NoScript(Fault::of(alloc, Rule::Arguments))),
    }
}

/// The four arguments.
pub fn four_arguments<A: FromTree, B: FromTree, C: FromTree, D: FromTree>(
    alloc: Global,
    list: &[Value],
) -> Result<(A, B, C, D), Refusal>
    ensures { Gives result (four A.reads B.reads C.reads D.reads (map view list.now)) }
{
    match list {
        [first, second, third, fourth] => {
            let first = element_at(alloc, first, 1)?;
            let second = element_at(alloc, second, 2)?;
            let third = element_at(alloc, third, 3)?;
            let fourth = element_at(alloc, fourth, 4)?;
            Ok((first, second, third, fourth))
        }
        _ => Err(Refusal::NoScript(Fault::of(alloc, Rule::Arguments))),
    }
}

/// Two arguments, and a third that may be left out.
pub fn two_or_three_arguments<A: FromTree, B: FromTree, C: FromTree>(
    alloc: Global,
    list: &[Value],
) -> Result<(A, B, Option<C>), Refusal>
    ensures { Gives result (two_or_three A.reads B.reads C.reads (map view list.now)) }
{
    match list {
        [first, second] => {
            let first = element_at(alloc, first, 1)?;
            let second = element_at(alloc, second, 2)?;
            Ok((first, second, None))
        }
        [first, second, third] => {
            let first = element_at(alloc, first, 1)?;
            let second = element_at(alloc, second, 2)?;
            let third = element_at(alloc, third, 3)?;
            Ok((first, second, Some(third)))
        }
        _ => Err(Refusal::NoScript(Fault::of(alloc, Rule::Arguments))),
    }
}
