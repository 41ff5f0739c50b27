// The rule of a shared log's words, and what each kind of step on them tells.
use crate::notes::Notes;
use atomic_table::{Join, Play, Split, TableRule};

/// The rule, whose key is the number of words.
pub struct LogRule;

impl TableRule<u8, Notes, u64> for LogRule {
    ghost use Rattle.vub_log.specs.Rule.{Kept, keeper_notes};

    ghost holds = { Kept };

    ghost first = { λ _. keeper_notes };
}

/// A mark of a page.
pub struct MarkStep;

impl Play<u8, Notes> for MarkStep {
    ghost use Rattle.vub_log.specs.Rule.{TellsMark};

    ghost then = { TellsMark };
}

/// A load of a word.
pub struct LoadStep;

impl Play<u8, Notes> for LoadStep {
    ghost use Rattle.vub_log.specs.Rule.{TellsLoad};

    ghost then = { TellsLoad };
}

/// A harvest of a word.
pub struct HarvestStep;

impl Play<u8, Notes> for HarvestStep {
    ghost use Rattle.vub_log.specs.Rule.{TellsHarvest};

    ghost then = { TellsHarvest };
}

/// A seat is split off, or one takes in the notes of another.
pub struct SeatStep;

impl Split<Notes> for SeatStep {
    ghost use Rattle.vub_log.specs.Notes.{without_harvests};

    ghost left = { λ v. v };

    ghost right = { without_harvests };
}

impl Join<Notes> for SeatStep {
    ghost use Rattle.vub_log.specs.Notes.{with_notes};
    ghost use Rattle.vub_log.specs.Rule.{spent_notes};

    ghost both = { with_notes };

    ghost spent = { spent_notes };
}
