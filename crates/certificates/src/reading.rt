ghost use Rattle.std.specs.Prelude.{◌≡◌, ℕ, IfOk, IfErr};
ghost use Rattle.certificates.specs.BadLines.{Spells, IsBadLine};

use crate::certificate::Certificate;
use crate::fault::ReadFault;
use crate::progress::{Progress, after_line};
use crate::tree_lines::after_tree_lines;
use crate::words::next_line;
use std::alloc::Global;

/// The certificate that the bytes spell. Where they spell none, the fault is the first line, counted from 1, that
/// begins none after the lines before it; a line that is missing is counted as the one after the last.
pub fn read(alloc: Global, bytes: &[u8]) -> Result<Certificate, ReadFault>
    ensures spelled { IfOk result (λ certificate. Spells certificate bytes.now) }
    ensures bad { IfErr result (λ fault. (number : ℕ) → fault ≡ ReadFault.BadLine number → IsBadLine bytes.now number) }
{
    let mut progress = Progress::Begun;
    let mut number: u64 = 1;
    let mut rest = bytes;
    'lines: while let Some((line, after)) = next_line(rest) {
        let Some(later) = after_line(alloc, progress, line)? else {
            return Err(ReadFault::BadLine(number));
        };
        let advance = after_tree_lines(later, after)?;
        progress = advance.progress;
        number += 1 + advance.lines;
        rest = &after[advance.bytes..];
    }
    match progress {
        Progress::Ended(certificate) if rest.is_empty() => Ok(certificate),
        _ => Err(ReadFault::BadLine(number)),
    }
}
