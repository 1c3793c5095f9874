ghost use Rattle.std.specs.Prelude.{◌≡◌, ◌≤◌, ◌^◌, IfOk};
ghost use Rattle.std.specs.Option.{option_and_then};
ghost use Rattle.certificates.specs.Lines.{line_in};
ghost use Rattle.certificates.specs.Moves.{after_siphon, due_of, in_bounds, in_siphon, in_tree, next, opened, tree_ended, with_claim, with_flow, with_tree_line};

use crate::certificate::{BoundLines, Certificate, Claim, Flow, PlaceList, TreeLine, TreeLines};
use crate::line::Line;
use crate::lines::read_line;
use net_values::{List, NoMemory};
use std::alloc::Global;

/// What the lines so far make.
#[derive(Drop)]
pub(crate) enum Progress {
    /// No line was read.
    Begun,
    /// Flows and claims, and the least place of the next claim.
    InBounds(BoundLines, u64),
    /// The first line of a certificate on a siphon.
    InSiphon,
    /// Its siphon too.
    AfterSiphon(PlaceList),
    /// Lines of a tree, and the number of trees that are due.
    InTree(TreeLines, u128),
    /// A whole certificate.
    Ended(Certificate),
}

/// The progress after a line that was cut off, where the line may follow.
pub(crate) fn after_line(
    alloc: Global,
    progress: Progress,
    bytes: &[u8],
) -> Result<Option<Progress>, NoMemory>
    requires { due_of progress ≤ 2 ^ 65 }
    ensures { IfOk result (λ later. later ≡ option_and_then (next progress) (line_in bytes.now)) }
{
    match read_line(alloc, bytes)? {
        None => Ok(None),
        Some(line) => next(alloc, progress, line),
    }
}

/// The progress after a line, where it may follow.
fn next(alloc: Global, progress: Progress, line: Line) -> Result<Option<Progress>, NoMemory>
    requires { due_of progress ≤ 2 ^ 65 }
    ensures { IfOk result (λ later. later ≡ next progress line) }
{
    match progress {
        Progress::Begun => Ok(opened(alloc, line)),
        Progress::InBounds(lines, least) => in_bounds(lines, least, line),
        Progress::InSiphon => Ok(in_siphon(line)),
        Progress::AfterSiphon(places) => Ok(after_siphon(places, line)),
        Progress::InTree(tree, due) => in_tree(tree, due, line),
        Progress::Ended(_) => Ok(None),
    }
}

/// After the first line, which names the kind.
fn opened(alloc: Global, line: Line) -> Option<Progress>
    ensures { result ≡ opened line }
{
    match line {
        Line::OpensBounds => {
            let flows = List::new(alloc);
            let claims = List::new(alloc);
            Some(Progress::InBounds(BoundLines { flows, claims }, 0))
        }
        Line::OpensBadSiphon => Some(Progress::InSiphon),
        Line::OpensCommoner => Some(Progress::InTree(List::new(alloc), 1)),
        _ => None,
    }
}

/// After a line of a certificate on bounds.
fn in_bounds(lines: BoundLines, least: u64, line: Line) -> Result<Option<Progress>, NoMemory>
    ensures { IfOk result (λ later. later ≡ in_bounds lines least line) }
{
    match line {
        Line::Flow(flow) => with_flow(lines, flow),
        Line::Bound(claim) => with_claim(lines, least, claim),
        Line::Ends => Ok(Some(Progress::Ended(Certificate::Bounds(lines)))),
        _ => Ok(None),
    }
}

/// After a flow, which no claim may precede.
fn with_flow(lines: BoundLines, flow: Flow) -> Result<Option<Progress>, NoMemory>
    ensures { IfOk result (λ later. later ≡ with_flow lines.flows lines.claims flow) }
{
    if lines.claims.len() > 0 {
        return Ok(None);
    }
    let BoundLines { mut flows, claims } = lines;
    flows.push(flow)?;
    Ok(Some(Progress::InBounds(BoundLines { flows, claims }, 0)))
}

/// After a claim, whose place is no lower than the least.
fn with_claim(lines: BoundLines, least: u64, claim: Claim) -> Result<Option<Progress>, NoMemory>
    ensures { IfOk result (λ later. later ≡ with_claim lines least claim) }
{
    let place = u64::from(claim.place);
    if place < least {
        return Ok(None);
    }
    let BoundLines { flows, mut claims } = lines;
    claims.push(claim)?;
    Ok(Some(Progress::InBounds(BoundLines { flows, claims }, place + 1)))
}

/// After the siphon of a certificate on one.
fn in_siphon(line: Line) -> Option<Progress>
    ensures { result ≡ in_siphon line }
{
    match line {
        Line::Siphon(places) => Some(Progress::AfterSiphon(places)),
        _ => None,
    }
}

/// After the last line of a certificate on a siphon.
fn after_siphon(places: PlaceList, line: Line) -> Option<Progress>
    ensures { result ≡ after_siphon places line }
{
    match line {
        Line::Ends => Some(Progress::Ended(Certificate::BadSiphon(places))),
        _ => None,
    }
}

/// After a line of a certificate with a tree.
fn in_tree(tree: TreeLines, due: u128, line: Line) -> Result<Option<Progress>, NoMemory>
    requires { due ≤ 2 ^ 65 }
    ensures { IfOk result (λ later. later ≡ in_tree tree due line) }
{
    match line {
        Line::Tree(line) => with_tree_line(tree, due, line),
        Line::Ends => Ok(tree_ended(tree, due)),
        _ => Ok(None),
    }
}

/// After a line of a tree: a split makes one tree more due, another line one less.
fn with_tree_line(tree: TreeLines, due: u128, line: TreeLine) -> Result<Option<Progress>, NoMemory>
    requires { due ≤ 2 ^ 65 }
    ensures { IfOk result (λ later. later ≡ with_tree_line tree due line) }
{
    if due == 0 {
        return Ok(None);
    }
    let mut tree = tree;
    tree.push(line)?;
    match line {
        TreeLine::Split(_) => Ok(Some(Progress::InTree(tree, due + 1))),
        TreeLine::Empty => Ok(Some(Progress::InTree(tree, due - 1))),
        TreeLine::Trap => Ok(Some(Progress::InTree(tree, due - 1))),
    }
}

/// The end of a tree, where none is due.
fn tree_ended(tree: TreeLines, due: u128) -> Option<Progress>
    ensures { result ≡ tree_ended tree due }
{
    if due == 0 {
        Some(Progress::Ended(Certificate::Commoner(tree)))
    } else {
        None
    }
}
