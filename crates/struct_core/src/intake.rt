ghost use Rattle.std.specs.Prelude.{◌≡◌, ◌+◌, ◌<◌, ◌^◌, ℕ, List, [], ◌++◌, length, IfOk, OnOk};
ghost use Rattle.pnml_decode.specs.Feeding.{fed_by};
ghost use Rattle.struct_core.specs.declared.order.Task.{Task as Tasks};
ghost use Rattle.struct_core.specs.Intaking.{HasTaken, IsNext};
ghost use Rattle.struct_core.specs.declared.intake.Part.TheVariants as parts;

use crate::order::Task;
use memchr::memchr;
use net_values::NoMemory;
use pnml_decode::Decoder;
use std::alloc::Global;

/// What the next byte of an input belongs to.
#[derive(Clone, Copy)]
pub(crate) enum Part {
    /// The document, which goes on to the end of input.
    Document,
    /// The document, which goes on through the first line feed.
    FirstLine,
    /// What the task reads after the document.
    Rest,
}

/// The input of a task as it comes: the bytes of the document are decoded, and those after them kept.
#[derive(Drop)]
pub(crate) struct Intake {
    pub(crate) part: Part,
    pub(crate) decoder: Decoder,
    pub(crate) rest: Vec<u8>,
}

impl Intake {
    /// No byte was taken.
    pub(crate) fn new(alloc: Global, task: Task) -> Result<Intake, NoMemory>
        ensures { IfOk result (λ intake. HasTaken task intake []) }
    {
        Ok(Intake {
            part: first_part(task),
            decoder: Decoder::new(alloc)?,
            rest: Vec::new(alloc),
        })
    }

    /// Takes the whole piece.
    pub(crate) fn take(&mut self, piece: &[u8]) -> Result<(), NoMemory>
        requires { fed_by self.old.decoder + length piece.now < 2 ^ 63 }
        ensures { OnOk result ((task : Tasks) (bytes : List ℕ) → HasTaken task self.old bytes → HasTaken task self.new (bytes ++ piece.now)) }
    {
        match self.part {
            Part::Document => self.decoder.feed(piece),
            Part::FirstLine => self.take_line(piece),
            Part::Rest => Ok(self.rest.extend_from_slice(piece)?),
        }
    }

    /// Takes the whole piece, which goes on in the first line.
    fn take_line(&mut self, piece: &[u8]) -> Result<(), NoMemory>
        requires room { fed_by self.old.decoder + length piece.now < 2 ^ 63 }
        requires part { self.old.part ≡ parts.FirstLine }
        ensures { OnOk result ((task : Tasks) (bytes : List ℕ) → HasTaken task self.old bytes → HasTaken task self.new (bytes ++ piece.now)) }
    {
        let Some(before) = memchr(b'\n', piece) else {
            return self.decoder.feed(piece);
        };
        let (line, rest) = piece.split_at(before + 1);
        self.decoder.feed(line)?;
        self.part = Part::Rest;
        Ok(self.rest.extend_from_slice(rest)?)
    }
}

/// What the first byte belongs to.
fn first_part(task: Task) -> Part
    ensures { IsNext task result [] }
{
    match task {
        Task::Verify | Task::Resume | Task::Replay => Part::FirstLine,
        _ => Part::Document,
    }
}
