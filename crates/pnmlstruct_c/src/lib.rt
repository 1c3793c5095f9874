//! The run of the program for callers in C: words and input are bytes of the caller, and so are two buffers for
//! the text and for the line that goes to standard error.
#![tactic(auto)]

ghost use Rattle.std.specs.Prelude.{◌≡◌, ◌≤◌, length, take, drop};
ghost use Rattle.pnmlstruct_c.specs.Memory.{Answers};

mod bounded_sink;
mod in_memory;
mod slice_source;
mod spelled_words;
#[cfg(test)]
mod tests;

use in_memory::run_in_memory;
use net_values::NoMemory;
use std::alloc::Global;

// The status where memory is refused.
const OUT_OF_MEMORY: u8 = 10;

/// How many bytes of each buffer a call filled.
#[repr(C)]
#[derive(Drop)]
pub struct Written {
    pub out: usize,
    pub err: usize,
}

/// Runs what the words mean on the input, as the program does with its arguments and its standard input. `words` is
/// the arguments with one space between each two. The text goes to the front of `out`, the line of a status other
/// than 0 to the front of `err`, and `written` tells how many bytes each got; nothing else is changed.
///
/// The status is the program's. A buffer that is too small is like a full device: 9 where the text doesn't fit, whose
/// front is then in `out`, and a cut line where the line doesn't. Where memory is refused it is 10, and then both may
/// have got nothing.
#[unsafe(no_mangle)]
pub extern "C" fn pnmlstruct_run(
    alloc: Global,
    words: &[u8],
    input: &[u8],
    out: &mut [u8],
    err: &mut [u8],
    written: &mut Written,
) -> u8
    ensures answers { Answers words.now input.now (take written.new.out out.new) (length out.new)
        (take written.new.err err.new) (length err.new) result }
    ensures out_within { written.new.out ≤ length out.new }
    ensures err_within { written.new.err ≤ length err.new }

    // What comes after the bytes told stays as it was.
    ensures out_rest { drop written.new.out out.new ≡ drop written.new.out out.old }
    ensures err_rest { drop written.new.err err.new ≡ drop written.new.err err.old }
{
    match run_in_memory(alloc, words, input, out.len(), err.len()) {
        Ok(ran) => {
            written.out = fill(ran.text.as_slice(), out);
            written.err = fill(ran.line.as_slice(), err);
            ran.status
        }
        Err(NoMemory) => {
            written.out = 0;
            written.err = 0;
            OUT_OF_MEMORY
        }
    }
}

// Puts the bytes into the front of a buffer, and gives their number.
fn fill(bytes: &[u8], buffer: &mut [u8]) -> usize
    requires { length bytes.now ≤ length buffer.old }
    ensures count { result ≡ length bytes.now }
    ensures front { take result buffer.new ≡ bytes.now }
    ensures rest { drop result buffer.new ≡ drop result buffer.old }
{
    let front = &mut buffer[..bytes.len()];
    front.copy_from_slice(bytes);
    bytes.len()
}
