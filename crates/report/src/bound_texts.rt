ghost use Rattle.std.specs.Prelude.{◌≡◌, ◌++◌, ◌<◌, count_by, is_some, IfOk, OnOk, length};
ghost use Rattle.bounds.specs.Listed.{bound_of, kept_at};
ghost use Rattle.net_values.specs.FlatNets.{net_of};
ghost use Rattle.net_values.specs.Nodes.{place_id};
ghost use Rattle.report.specs.Texts.{bound_line, bound_lines, bounds_text as bounds_report};

use bounds::Bounds;
use net_values::{FlatNet, NoMemory, Text};
use std::alloc::Global;

/// The text of `bounds`: a line for each place, with its id and its least bound or `none`, and last how many
/// of the places have one.
#[tactic(auto, unfolding(crate::specs::Texts::bounds_text))]
pub fn bounds_text(alloc: Global, net: &FlatNet, bounds: &Bounds) -> Result<Text, NoMemory>
    requires { length bounds.now ≡ (net_of net.now).places }
    ensures { IfOk result (λ text. text ≡ bounds_report (place_id net.now) bounds.now) }
{
    let mut text = Text::new(alloc);
    push_bounds(&mut text, net, bounds)?;
    text.push("covered ")?;
    text.push_number(covered(bounds) as u128)?;
    text.push(" of ")?;
    text.push_number(bounds.places() as u128)?;
    text.push("\n")?;
    Ok(text)
}

/// Appends the lines of the places.
fn push_bounds(text: &mut Text, net: &FlatNet, bounds: &Bounds) -> Result<(), NoMemory>
    requires { length bounds.now ≡ (net_of net.now).places }
    ensures { let lines = bound_lines (place_id net.now) bounds.now (length bounds.now) in
        OnOk result (text.new ≡ text.old ++ lines) }
{
    for p in 0..bounds.places() {
        push_bound(text, net.place_id(p).as_str(), bound_of(bounds, p))?;
    }
    Ok(())
}

/// Appends the line of a place.
#[tactic(auto, unfolding(crate::specs::Texts::bound_line))]
fn push_bound(text: &mut Text, id: &str, bound: Option<u128>) -> Result<(), NoMemory>
    ensures { OnOk result (text.new ≡ text.old ++ bound_line id.now bound) }
{
    text.push(id)?;
    text.push(" ")?;
    match bound {
        None => text.push("none")?,
        Some(bound) => text.push_number(bound)?,
    }
    text.push("\n")
}

/// The bound of a place.
fn bound_of(bounds: &Bounds, p: usize) -> Option<u128>
    requires { p < length bounds.now }
    ensures { result ≡ bound_of (kept_at bounds.now p) }
{
    let (bound, _) = bounds.get(p)?;
    Some(bound.unsigned_abs())
}

/// How many places have a bound.
fn covered(bounds: &Bounds) -> usize
    ensures { result ≡ count_by is_some bounds.now }
{
    let mut count = 0;
    for p in 0..bounds.places() {
        if bound_of(bounds, p).is_some() {
            count += 1;
        }
    }
    count
}
