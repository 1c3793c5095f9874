ghost use Rattle.std.specs.Prelude.{◌≡◌, [], ◌++◌, OnOk, codes, if◌then◌else◌};
ghost use Rattle.report.specs.Lines.{answer_line, count_line};

use net_values::{NoMemory, Text};

/// Appends a space in front of each piece of a line but the first.
pub(crate) fn push_space(text: &mut Text, is_first: bool) -> Result<(), NoMemory>
    ensures { OnOk result (text.new ≡ text.old ++ (if is_first then [] else codes " ")) }
{
    text.push(if is_first { "" } else { " " })
}

/// Appends the line of a count: a word, a space and the number.
#[tactic(auto, unfolding(crate::specs::Lines::count_line))]
pub fn push_count(text: &mut Text, word: &str, count: u128) -> Result<(), NoMemory>
    ensures { OnOk result (text.new ≡ text.old ++ count_line word.now count) }
{
    text.push(word)?;
    text.push(" ")?;
    text.push_number(count)?;
    text.push("\n")
}

/// Appends the line of an answer: a word, a space and `yes` or `no`.
#[tactic(auto, unfolding(crate::specs::Lines::answer_line))]
pub fn push_answer(text: &mut Text, word: &str, answer: bool) -> Result<(), NoMemory>
    ensures { OnOk result (text.new ≡ text.old ++ answer_line word.now answer) }
{
    text.push(word)?;
    text.push(if answer { " yes\n" } else { " no\n" })
}
