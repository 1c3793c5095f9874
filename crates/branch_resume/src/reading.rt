ghost use Rattle.std.specs.Prelude.{◌≡◌, ◌++◌, ◌≤◌, ℕ, [], ◌∷◌, IfErr, IfOk, MatchOption, codes};
ghost use Rattle.net_values.specs.FlatNets.{net_of};
ghost use Rattle.siphon_branch.specs.Classes.{every_set};
ghost use Rattle.branch_resume.specs.Lines.{BeginsOtherwise, IsFront};
ghost use Rattle.branch_resume.specs.Pending.{IsMalformedAt, IsRejectedAt, ReadsPending};

use crate::class_lines::read_class;
use crate::disjoint::first_overlap;
use crate::fault::PendingFault;
use certificates::next_line;
use net_values::{FlatNet, MAX_PLACES, NoMemory};
use siphon_branch::{Branch, Branches};
use std::alloc::Global;

/// The pending classes of a net for which bytes stand: those of the token with which they begin, a class for each
/// `class` line, and for no bytes the class of all siphons. `BadLine` comes exactly where bytes are there and
/// begin with no token; else `Rejected` exactly where a class has a place that the net lacks or isn't disjoint
/// from an earlier one.
pub fn read_pending(alloc: Global, net: &FlatNet, rest: &[u8]) -> Result<Branches, PendingFault>
    ensures read { IfOk result (ReadsPending (net_of net.now).places rest.now) }
    ensures bad { IfErr result (λ fault. (line : ℕ) → fault ≡ PendingFault.BadLine line → IsMalformedAt rest.now line) }
    ensures rejected { IfErr result (λ fault. (line : ℕ) → fault ≡ PendingFault.Rejected line →
        IsRejectedAt (net_of net.now).places rest.now line) }
{
    if rest.is_empty() {
        return Ok(all_siphons(alloc, net.places())?);
    }
    match past_front(b"pending\n", rest) {
        Some(lines) => read_lines(alloc, net.places(), lines),
        None => Err(PendingFault::BadLine(1)),
    }
}

/// What follows a front, where the bytes begin with it.
fn past_front<'b>(front: &[u8], bytes: &'b [u8]) -> Option<&'b [u8]>
    ensures { MatchOption result (BeginsOtherwise front.now bytes.now) (λ rest. bytes.now ≡ front.now ++ rest.now) }
{
    if bytes.starts_with(front) {
        Some(&bytes[front.len()..])
    } else {
        None
    }
}

/// The class of all siphons, and no other.
fn all_siphons(alloc: Global, places: usize) -> Result<Branches, NoMemory>
    requires { places ≤ MAX_PLACES }
    ensures { IfOk result (λ classes. classes ≡ every_set places ∷ []) }
{
    let mut classes = Branches::new(alloc);
    classes.push(Branch::all(alloc, places)?)?;
    Ok(classes)
}

/// The same for the lines that follow the first one.
fn read_lines(alloc: Global, places: usize, lines: &[u8]) -> Result<Branches, PendingFault>
    requires { places ≤ MAX_PLACES }
    ensures read { let bytes = codes "pending\n" ++ lines.now in IfOk result (ReadsPending places bytes) }
    ensures bad { let bytes = codes "pending\n" ++ lines.now in
        IfErr result (λ fault. (line : ℕ) → fault ≡ PendingFault.BadLine line → IsMalformedAt bytes line) }
    ensures rejected { let bytes = codes "pending\n" ++ lines.now in
        IfErr result (λ fault. (line : ℕ) → fault ≡ PendingFault.Rejected line → IsRejectedAt places bytes line) }
{
    let mut classes = Branches::new(alloc);
    let left = front_classes(alloc, places, lines, &mut classes)?;
    let mut beyond = Branches::new(alloc);
    let left = front_classes(alloc, MAX_PLACES, left, &mut beyond)?;
    let Some(_after) = past_front(b"end\n", left) else {
        return Err(PendingFault::BadLine((classes.len() + beyond.len()) as u64 + 2));
    };
    match first_overlap(alloc, places, classes.as_slice())? {
        Some(k) => Err(PendingFault::Rejected(k as u64 + 2)),
        None if beyond.len() > 0 => Err(PendingFault::Rejected(classes.len() as u64 + 2)),
        None => Ok(classes),
    }
}

/// Appends to no classes those of this size that the lines at the front name, and gives what follows them.
fn front_classes<'b>(
    alloc: Global,
    size: usize,
    lines: &'b [u8],
    classes: &mut Branches,
) -> Result<&'b [u8], NoMemory>
    requires size { size ≤ MAX_PLACES }
    requires empty { classes.old ≡ [] }
    ensures { IfOk result (λ left. IsFront size lines.now classes.new left.now) }
{
    let mut left = lines;
    'lines: while let Some((line, after)) = next_line(left) {
        let Some(class) = read_class(alloc, size, line)? else {
            return Ok(left);
        };
        classes.push(class)?;
        left = after;
    }
    Ok(left)
}
