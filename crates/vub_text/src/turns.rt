ghost use Rattle.std.specs.Prelude.{◌≡◌, ◌++◌, OnOk, string_bytes, count_by};
ghost use Rattle.vub_text.specs.Words.{yes_no};
ghost use Rattle.vub_text.specs.Lines.{is_played, turns_line};

use crate::pieces::push_number;
use vub_base::OutOfMemory;
use vub_model::Label;

/// Whether the party of a turn did something.
fn played_in(label: &Label) -> bool
    ensures { result ≡ is_played label.now }
{
    !matches!(label, Label::Pass)
}

/// How many turns were played.
fn count_played(labels: &[Label]) -> usize
    ensures { result ≡ count_by is_played labels.now }
{
    let mut count: usize = 0;
    for label in labels {
        if played_in(label) {
            count += 1;
        }
    }
    count
}

/// `yes` or `no`.
pub fn word_of(holds: bool) -> &'static str
    ensures { result.now ≡ yes_no holds }
{
    if holds { "yes" } else { "no" }
}

/// Appends the line of the turns.
///
/// # Errors
/// Want of memory. The text may then end within the line.
#[tactic(auto, using(std::proofs::Common::append_assoc), unfolding(crate::specs::Lines::turns_line))]
pub fn push_turns_line(
    text: &mut String,
    labels: &[Label],
    at_rest: bool,
) -> Result<(), OutOfMemory>
    ensures { OnOk result (string_bytes text.new ≡ string_bytes text.old ++ turns_line labels.now at_rest) }
{
    push_number(text, "turns ", labels.len())?;
    push_number(text, " played ", count_played(labels))?;
    text.push_str(" rest ")?;
    text.push_str(word_of(at_rest))?;
    text.push_str("\n")?;
    Ok(())
}
