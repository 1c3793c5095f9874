ghost use Rattle.std.specs.Prelude.{◌≡◌, [], ◌∷◌, ◌++◌, List, ◌<◌, ◌≤◌, ◌^◌, Some, IfOk, IfSome, codes, drop, length};
ghost use Rattle.certificates.specs.Moves.{ReadsOn, due_of, with_tree_line};
ghost use Rattle.certificates.specs.Spelling.{tree_line};
ghost use Rattle.certificates.specs.WellFormed.{IsTreeLine};
ghost use Rattle.certificates.specs.declared.certificate.TreeLine.{TreeLine};
ghost use Rattle.certificates.specs.declared.progress.Progress.TheVariants.{InTree};

use crate::certificate::{TreeLine, TreeLines};
use crate::numbers::leading_number;
use crate::progress::Progress;
use net_values::{MAX_PLACES, NoMemory};

/// The progress after some lines, how many these are, and how many bytes they have.
#[derive(Drop)]
pub(crate) struct Advance {
    pub(crate) progress: Progress,
    pub(crate) lines: u64,
    pub(crate) bytes: usize,
}

/// Reads lines of a tree with which the bytes begin, where a tree is being read: most lines of a long certificate are
/// such. The line that it stops at may be any.
pub(crate) fn after_tree_lines(progress: Progress, bytes: &[u8]) -> Result<Advance, NoMemory>
    requires { due_of progress ≤ 2 ^ 65 }
    ensures read { IfOk result (λ advance. ReadsOn progress bytes.now advance.progress (drop advance.bytes bytes.now) advance.lines) }
    ensures within { IfOk result (λ advance. advance.bytes ≤ length bytes.now) }
{
    match progress {
        Progress::InTree(tree, due) => read_tree(tree, due, bytes),
        other => Ok(Advance {
            progress: other,
            lines: 0,
            bytes: 0,
        }),
    }
}

/// Reads lines of a tree with which the bytes begin, as long as trees are due.
fn read_tree(tree: TreeLines, due: u128, bytes: &[u8]) -> Result<Advance, NoMemory>
    requires { due ≤ 2 ^ 65 }
    ensures read { IfOk result (λ advance. ReadsOn (InTree tree due) bytes.now advance.progress (drop advance.bytes bytes.now) advance.lines) }
    ensures within { IfOk result (λ advance. advance.bytes ≤ length bytes.now) }
{
    let mut tree = tree;
    let mut due = due;
    let mut lines = 0;
    let mut rest = bytes;
    'lines: while let Some((line, after)) = due_line(due, rest) {
        tree.push(line)?;
        due = due_after(due, line);
        lines += 1;
        rest = after;
    }
    Ok(Advance {
        progress: Progress::InTree(tree, due),
        lines,
        bytes: bytes.len() - rest.len(),
    })
}

/// The line of a tree with which the bytes begin, where a tree is due, and what follows it.
#[tactic(auto, unfolding(crate::specs::Spelling::tree_line))]
fn due_line(due: u128, bytes: &[u8]) -> Option<(TreeLine, &[u8])>
    ensures due { IfSome result (λ x. 0 < due) }
    ensures line { IfSome result (λ x. IsTreeLine x.0 × (bytes.now ≡ tree_line x.0 ++ x.1.now)) }
{
    if due == 0 {
        return None;
    }
    match bytes {
        [b's', b'p', b'l', b'i', b't', b' ', rest @ ..] => split_line(rest),
        [b'e', b'm', b'p', b't', b'y', b'\n', rest @ ..] => Some((TreeLine::Empty, rest)),
        [b't', b'r', b'a', b'p', b'\n', rest @ ..] => Some((TreeLine::Trap, rest)),
        _ => None,
    }
}

/// The split at the place with whose number and a line feed the bytes begin, and what follows it.
fn split_line(bytes: &[u8]) -> Option<(TreeLine, &[u8])>
    ensures { IfSome result (λ x. IsTreeLine x.0 × (codes "split " ++ bytes.now ≡ tree_line x.0 ++ x.1.now)) }
{
    let (place, rest) = leading_number(bytes)?;
    match rest {
        [b'\n', after @ ..] if place < MAX_PLACES as u32 => Some((TreeLine::Split(place), after)),
        _ => None,
    }
}

/// How many trees are due after a line of a tree, where one was before it.
fn due_after(due: u128, line: TreeLine) -> u128
    requires some { 0 < due }
    requires few { due ≤ 2 ^ 66 }
    ensures { (tree : List TreeLine) → with_tree_line tree due line ≡ Some (InTree (tree ++ line ∷ []) result) }
{
    match line {
        TreeLine::Split(_) => due + 1,
        TreeLine::Empty => due - 1,
        TreeLine::Trap => due - 1,
    }
}
