ghost use Rattle.std.specs.Prelude.{◌≤◌, ℕ, List, length, IfOk};
ghost use Rattle.pnmlstruct_c.specs.Memory.{Spells, HasRunInMemory};

use crate::bounded_sink::BoundedSink;
use crate::slice_source::SliceSource;
use crate::spelled_words::read_words;
use net_values::NoMemory;
use std::alloc::Global;
use struct_core::run;

/// A run that is over: its status, and what its two sinks hold.
#[derive(Drop)]
pub(crate) struct Ran {
    pub(crate) status: u8,
    pub(crate) text: Vec<u8>,
    pub(crate) line: Vec<u8>,
}

/// Runs the words that the bytes spell, with this much room for the text and for the line.
pub(crate) fn run_in_memory(
    alloc: Global,
    bytes: &[u8],
    input: &[u8],
    text_room: usize,
    line_room: usize,
) -> Result<Ran, NoMemory>
    ensures ran { IfOk result (λ ran. (words : List (List ℕ)) × Spells bytes.now words
        × HasRunInMemory words input.now ran.text.items text_room ran.line.items line_room ran.status) }
    ensures text { IfOk result (λ ran. length ran.text.items ≤ text_room) }
    ensures line { IfOk result (λ ran. length ran.line.items ≤ line_room) }
{
    let words = read_words(alloc, bytes)?;
    let mut source = SliceSource::new(input);
    let mut text = BoundedSink::new(alloc, text_room)?;
    let mut line = BoundedSink::new(alloc, line_room)?;
    let status = run(alloc, &words, &mut source, &mut text, &mut line);
    // The run left the room as it was; its clause speaks of what a sink holds and of its faults only.
    match (text.into_held(text_room), line.into_held(line_room)) {
        (Some(text), Some(line)) => Ok(Ran { status, text, line }),
        _ => Err(NoMemory),
    }
}
