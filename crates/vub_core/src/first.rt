ghost use Rattle.std.specs.Prelude.{List};
ghost use Rattle.vub_mem.specs.declared.region.Region.{Region};
ghost use Rattle.vub_plan.specs.Halves.{plan_at};
ghost use Rattle.vub_core.specs.Firsts.{IsFirstOf};

use vub_mem::Region;
use vub_model::Small;
use vub_plan::{Half, Head, Stage};

/// The first of the steps that are left of a request.
#[derive(Clone, Copy, Debug)]
pub(crate) enum First<'a> {
    /// No step is left.
    Nothing,
    /// The table of guest memory is changed.
    Table,
    /// The device is told of these regions.
    Update(&'a [Region]),
    Step(&'a Small),
    /// The request is answered.
    Answer,
}

/// The first of the steps that are left of a request.
pub(crate) fn first_of(half: &Half) -> First<'_>
    ensures { (regions : List Region) → IsFirstOf result (plan_at regions half.now).steps }
{
    match half.head() {
        Head::Table(_) => First::Table,
        Head::Update(regions) => First::Update(regions.as_slice()),
        Head::None => match half.first() {
            Some(small) => First::Step(small.get()),
            None => match half.stage() {
                Stage::Spent => First::Nothing,
                _ => First::Answer,
            },
        },
    }
}
