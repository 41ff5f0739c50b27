ghost use Rattle.vub_log.specs.Since.{StandsSinceHarvest, HasBits};
ghost use Rattle.vub_log.specs.Rule.{HoldWhereNoted, LoadsHold, CountHarvests};

/// A call on a log of dirty pages: a mark of a page, a load of a byte, a harvest of a word that is not refused.
#[derive(Clone, Copy, Debug, PartialEq, Eq)]
pub enum LogOp {
    Mark(u64),
    Load(u64),
    Harvest(u64),
}

/// Law: after any calls on a plain log a page is marked exactly where its bit stood or it was marked since the last
/// harvest of its word.
pub fn pages_stand_since_harvest()
    ensures { StandsSinceHarvest }
{}

/// Law: each byte of a plain log has the bits of its eight pages.
pub fn bytes_hold_the_bits()
    ensures { HasBits }
{}

/// Law: after any steps on a shared log, in any order, a mark holds exactly where some party noted it: in its word, or
/// in the harvest of its number. So no mark is lost, and no bit stands or was harvested but by a mark of its page. Each
/// load showed such bits alone. Each word's generation is the number of its harvests.
pub fn notes_hold()
    ensures marks { HoldWhereNoted }
    ensures loads { LoadsHold }
    ensures generations { CountHarvests }
{}
