ghost use Rattle.std.specs.Prelude.{◌≡◌, ◌↔◌, ◌∷◌, ℕ, None, Some, IsTrue, IfSome, IfNone};
ghost use Rattle.struct_core.specs.declared.order.Budgets.{Budgets as Allowed};
ghost use Rattle.struct_core.specs.declared.order.Order.{Order as Meaning};
ghost use Rattle.struct_core.specs.Words.{IsNumber, MeanBudgets, MeanOptions, Means, setting_named, task_named};
ghost use Rattle.struct_core.specs.WordReading.{TakesSetting, HasBadNumber};

use crate::order::{Budgets, Order, Setting, Task};
use net_values::{List, Text, read_decimal};

/// The words after the program's name.
pub type Words = List<Text>;

const SAMPLE: &[u8] = b"sample";

/// The order that the words mean, or `None` where they mean nothing. It takes no memory.
pub fn read_words(words: &Words) -> Option<Order>
    ensures meant { IfSome result (λ order. Means words.now order) }
    ensures none { IfNone result ((order : Meaning) → Means words.now order → ⊥) }
{
    match words.as_slice() {
        [word, rest @ ..] => read_order(word.as_bytes(), rest),
        [] => None,
    }
}

/// The order of a first word and the words after it.
fn read_order(word: &[u8], rest: &[Text]) -> Option<Order>
    ensures meant { IfSome result (λ order. Means (word.now ∷ rest.now) order) }
    ensures none { IfNone result ((order : Meaning) → Means (word.now ∷ rest.now) order → ⊥) }
{
    match Task::named(word) {
        Some(task) => {
            let (net, budgets) = read_options(rest)?;
            if budgets.rows <= task.most_rows() {
                Some(Order::Run(task, net, budgets))
            } else {
                None
            }
        }
        None => read_sample(word, rest),
    }
}

/// The order of a first word that is no task's.
fn read_sample(word: &[u8], rest: &[Text]) -> Option<Order>
    requires { task_named word.now ≡ None }
    ensures meant { IfSome result (λ order. Means (word.now ∷ rest.now) order) }
    ensures none { IfNone result ((order : Meaning) → Means (word.now ∷ rest.now) order → ⊥) }
{
    match rest {
        [number] if word == SAMPLE => Some(Order::Sample(read_number(number.as_bytes(), 2, 200)?)),
        _ => None,
    }
}

/// The number of the net and the budgets that the options of a task say.
fn read_options(words: &[Text]) -> Option<(u32, Budgets)>
    ensures meant { IfSome result (λ said. MeanOptions words.now said.0 said.1) }
    ensures none { IfNone result
        ((k : ℕ) (budgets : Allowed) → MeanOptions words.now k budgets → ⊥) }
{
    let (net, others) = read_setting(Setting::Net, words)?;
    let budgets = read_budgets(others)?;
    Some((net, budgets))
}

/// The budgets that the options after that of the net say.
fn read_budgets(words: &[Text]) -> Option<Budgets>
    ensures meant { IfSome result (λ budgets. MeanBudgets words.now budgets) }
    ensures none { IfNone result ((budgets : Allowed) → MeanBudgets words.now budgets → ⊥) }
{
    let (rows, others) = read_setting(Setting::Rows, words)?;
    let (sets, rest) = read_setting(Setting::Sets, others)?;
    if rest.is_empty() {
        Some(Budgets { rows, sets })
    } else {
        None
    }
}

/// The setting that its option says at the front of the words, or its default where the option isn't there; and
/// the words after it.
fn read_setting<'w>(setting: Setting, words: &'w [Text]) -> Option<(u32, &'w [Text])>
    ensures taken { IfSome result (λ taken. TakesSetting setting words.now taken.0 taken.1.now) }
    ensures none { IfNone result (HasBadNumber setting words.now) }
{
    match words {
        [option, number, rest @ ..] => {
            if is_option(option.as_bytes(), setting) {
                Some((read_number(number.as_bytes(), 1, setting.most())?, rest))
            } else {
                Some((setting.default(), words))
            }
        }
        _ => Some((setting.default(), words)),
    }
}

/// Whether the word is that of the setting's option.
fn is_option(word: &[u8], setting: Setting) -> bool
    ensures { IsTrue result ↔ (setting_named word.now ≡ Some setting) }
{
    match Setting::named(word) {
        Some(named) => named == setting,
        None => false,
    }
}

/// The number from `least` to `most` whose decimal text the word is.
fn read_number(word: &[u8], least: u32, most: u32) -> Option<u32>
    ensures found { IfSome result (λ number. IsNumber least most word.now number) }
    ensures none { IfNone result ((number : ℕ) → IsNumber least most word.now number → ⊥) }
{
    let number = read_decimal(word)?;
    if u128::from(least) <= number && number <= u128::from(most) {
        Some(number as u32)
    } else {
        None
    }
}
