ghost use Rattle.std.specs.Prelude.{map};
ghost use Rattle.pnml_source.specs.Writing.{IsWritten};
ghost use Rattle.report.specs.FaultLines.{joined, offset_line, id_line, unknown_line, no_net_line, rule_line, wide_line, wide_bound_line, member_line, numbered_line, budget_line, limit_line};
ghost use Rattle.report.specs.Refusals.{line_of, fault_line, excess_line};

use crate::reason_words::reason_words;
use crate::refusal::{Excess, Refusal};
use itoa::Buffer;
use net_values::Text;
use page_flatten::FlatFault;
use pnml_decode::DocFault;
use pnml_source::{Sink, WriteFault, write_all};

/// Writes the line that tells a refusal. It takes no memory.
pub fn tell<O: Sink>(sink: &mut O, refusal: &Refusal) -> Result<(), WriteFault>
    ensures { IsWritten (O.held sink.old) (O.held sink.new) (O.faults sink.old) (O.faults sink.new) (line_of refusal.now) result }
{
    match refusal {
        Refusal::Usage => write_all(
            sink,
            b"usage: pnmlstruct TASK [--net K] [--rows N] [--sets N], or pnmlstruct sample N\n",
        ),
        Refusal::Document(fault) => tell_document(sink, fault),
        Refusal::Rule(net, fault) => tell_rule(sink, *net, fault),
        Refusal::Excess(excess) => tell_excess(sink, excess),
        Refusal::Malformed(number) => tell_line(sink, b"certificate malformed", *number),
        Refusal::Rejected(number) => tell_line(sink, b"certificate rejected", *number),
        Refusal::MalformedPending(number) => tell_line(sink, b"pending malformed", *number),
        Refusal::RejectedPending(number) => tell_line(sink, b"pending rejected", *number),
        Refusal::MalformedFiring(number) => tell_line(sink, b"firing list malformed", *number),
        Refusal::RejectedFiring(member, id) => tell_member(
            sink,
            b"firing list rejected at line ",
            *member,
            b": ",
            id,
            b" lacks tokens\n",
        ),
        Refusal::TooLong => write_all(sink, b"input too long\n"),
        Refusal::ReadFault => write_all(sink, b"read fault\n"),
        Refusal::WriteFault => write_all(sink, b"write fault\n"),
        Refusal::NoMemory => write_all(sink, b"out of memory\n"),
    }
}

/// Where the input stops to be a document, and why.
fn tell_document<O: Sink>(sink: &mut O, fault: &DocFault) -> Result<(), WriteFault>
    ensures { IsWritten (O.held sink.old) (O.held sink.new) (O.faults sink.old) (O.faults sink.new) (fault_line fault.now) result }
{
    match fault {
        DocFault::NoMemory => write_all(sink, b"out of memory\n"),
        DocFault::NotUtf8(offset) => tell_offset(sink, *offset, b"not UTF-8"),
        DocFault::At(offset, reason) => tell_offset(sink, *offset, reason_words(*reason)),
        DocFault::Truncated(length) => tell_offset(sink, *length, b"truncated"),
    }
}

/// Which rule the document breaks, and where, or that it has no net of this number.
fn tell_rule<O: Sink>(sink: &mut O, net: u32, fault: &FlatFault) -> Result<(), WriteFault>
    ensures { IsWritten (O.held sink.old) (O.held sink.new) (O.faults sink.old) (O.faults sink.new) (rule_line net fault.now) result }
{
    match fault {
        FlatFault::NoMemory => write_all(sink, b"out of memory\n"),
        FlatFault::DuplicateId(id) => tell_id(sink, b"duplicate id", id),
        FlatFault::UnknownId(id, by) => tell_unknown(sink, id, by),
        FlatFault::RefKind(id) => tell_id(sink, b"wrong reference kind", id),
        FlatFault::RefCycle(id) => tell_id(sink, b"reference cycle", id),
        FlatFault::ArcEnds(id) => tell_id(sink, b"wrong arc ends", id),
        FlatFault::NoNet(_) => tell_no_net(sink, net),
    }
}

/// Where an elimination fails, or which limit a search passes.
fn tell_excess<O: Sink>(sink: &mut O, excess: &Excess) -> Result<(), WriteFault>
    ensures { IsWritten (O.held sink.old) (O.held sink.new) (O.faults sink.old) (O.faults sink.new) (excess_line excess.now) result }
{
    match excess {
        Excess::WideSum(id) => tell_wide(sink, b"wide sum", id),
        Excess::WideRow(id) => tell_wide(sink, b"wide row", id),
        Excess::WideBound(row) => tell_wide_bound(sink, *row),
        Excess::WideCheck(row, id) => {
            tell_member(sink, b"wide sum in semiflow ", *row, b" at ", id, b"\n")
        }
        Excess::WideMarking(member, id) => {
            tell_member(sink, b"wide marking at line ", *member, b" in ", id, b"\n")
        }
        Excess::RowBudget(budget, id, count) => tell_budget(sink, *budget, id, *count),
        Excess::SetLimit(limit) => tell_limit(sink, *limit),
    }
}

#[tactic(auto, unfolding(crate::specs::FaultLines::wide_line))]
fn tell_wide<O: Sink>(sink: &mut O, words: &[u8], id: &Text) -> Result<(), WriteFault>
    ensures { IsWritten (O.held sink.old) (O.held sink.new) (O.faults sink.old) (O.faults sink.new) (wide_line words.now id.now) result }
{
    write_pieces(sink, &[words, b" at ", id.as_bytes(), b"\n"])
}

#[tactic(auto, unfolding(crate::specs::FaultLines::wide_bound_line))]
fn tell_wide_bound<O: Sink>(sink: &mut O, row: usize) -> Result<(), WriteFault>
    ensures { IsWritten (O.held sink.old) (O.held sink.new) (O.faults sink.old) (O.faults sink.new) (wide_bound_line row) result }
{
    let mut buffer = Buffer::new();
    let number = buffer.format(row as u128 + 1).as_bytes();
    write_pieces(sink, &[b"wide bound in semiflow ", number, b"\n"])
}

/// A number, told from 1, and an id, between words.
fn tell_member<O: Sink>(
    sink: &mut O,
    front: &'static [u8],
    number: usize,
    between: &'static [u8],
    id: &Text,
    rear: &'static [u8],
) -> Result<(), WriteFault>
    ensures { IsWritten (O.held sink.old) (O.held sink.new) (O.faults sink.old) (O.faults sink.new) (member_line front.now number between.now id.now rear.now) result }
{
    let mut buffer = Buffer::new();
    let line = number as u128 + 1;
    let digits = buffer.format(line).as_bytes();
    write_pieces(sink, &[front, digits, between, id.as_bytes(), rear])
}

#[tactic(auto, unfolding(crate::specs::FaultLines::budget_line))]
fn tell_budget<O: Sink>(sink: &mut O, budget: u32, id: &Text, count: u64) -> Result<(), WriteFault>
    ensures { IsWritten (O.held sink.old) (O.held sink.new) (O.faults sink.old) (O.faults sink.new) (budget_line budget id.now count) result }
{
    let mut budget_buffer = Buffer::new();
    let mut count_buffer = Buffer::new();
    write_pieces(
        sink,
        &[
            b"row budget ",
            budget_buffer.format(budget).as_bytes(),
            b" passed at ",
            id.as_bytes(),
            b": ",
            count_buffer.format(count).as_bytes(),
            b" candidates\n",
        ],
    )
}

#[tactic(auto, unfolding(crate::specs::FaultLines::limit_line))]
fn tell_limit<O: Sink>(sink: &mut O, limit: u32) -> Result<(), WriteFault>
    ensures { IsWritten (O.held sink.old) (O.held sink.new) (O.faults sink.old) (O.faults sink.new) (limit_line limit) result }
{
    let mut buffer = Buffer::new();
    write_pieces(
        sink,
        &[b"set limit ", buffer.format(limit).as_bytes(), b" passed\n"],
    )
}

/// A bad line of what follows the document.
#[tactic(auto, unfolding(crate::specs::FaultLines::numbered_line))]
fn tell_line<O: Sink>(sink: &mut O, words: &[u8], number: u64) -> Result<(), WriteFault>
    ensures { IsWritten (O.held sink.old) (O.held sink.new) (O.faults sink.old) (O.faults sink.new) (numbered_line words.now number) result }
{
    let mut buffer = Buffer::new();
    let digits = buffer.format(number).as_bytes();
    write_pieces(sink, &[words, b" at line ", digits, b"\n"])
}

/// At an offset in the input, by the words of the reason.
#[tactic(auto, unfolding(crate::specs::FaultLines::offset_line))]
fn tell_offset<O: Sink>(sink: &mut O, offset: u64, words: &[u8]) -> Result<(), WriteFault>
    ensures { IsWritten (O.held sink.old) (O.held sink.new) (O.faults sink.old) (O.faults sink.new) (offset_line offset words.now) result }
{
    let mut buffer = Buffer::new();
    let number = buffer.format(offset).as_bytes();
    write_pieces(
        sink,
        &[b"document refused at ", number, b": ", words, b"\n"],
    )
}

/// A rule that the element of an id breaks.
#[tactic(auto, unfolding(crate::specs::FaultLines::id_line))]
fn tell_id<O: Sink>(sink: &mut O, words: &[u8], id: &Text) -> Result<(), WriteFault>
    ensures { IsWritten (O.held sink.old) (O.held sink.new) (O.faults sink.old) (O.faults sink.new) (id_line words.now id.now) result }
{
    write_pieces(
        sink,
        &[b"document refused: ", words, b" ", id.as_bytes(), b"\n"],
    )
}

/// An id that no node has, and the element that mentions it.
#[tactic(auto, unfolding(crate::specs::FaultLines::unknown_line))]
fn tell_unknown<O: Sink>(sink: &mut O, id: &Text, by: &Text) -> Result<(), WriteFault>
    ensures { IsWritten (O.held sink.old) (O.held sink.new) (O.faults sink.old) (O.faults sink.new) (unknown_line id.now by.now) result }
{
    write_pieces(
        sink,
        &[
            b"document refused: unknown id ",
            id.as_bytes(),
            b" in ",
            by.as_bytes(),
            b"\n",
        ],
    )
}

/// The number of a net that the document lacks.
#[tactic(auto, unfolding(crate::specs::FaultLines::no_net_line))]
fn tell_no_net<O: Sink>(sink: &mut O, net: u32) -> Result<(), WriteFault>
    ensures { IsWritten (O.held sink.old) (O.held sink.new) (O.faults sink.old) (O.faults sink.new) (no_net_line net) result }
{
    let mut buffer = Buffer::new();
    let number = buffer.format(net).as_bytes();
    write_pieces(sink, &[b"document refused: no net ", number, b"\n"])
}

/// Writes the pieces, one after the other.
fn write_pieces<O: Sink>(sink: &mut O, pieces: &[&[u8]]) -> Result<(), WriteFault>
    ensures { IsWritten (O.held sink.old) (O.held sink.new) (O.faults sink.old) (O.faults sink.new) (joined (map (λ piece. piece.now) pieces.now)) result }
{
    for piece in pieces {
        write_all(sink, piece)?;
    }
    Ok(())
}
