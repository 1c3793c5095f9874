ghost use Rattle.std.specs.Prelude.{◌≡◌};
ghost use Rattle.report.specs.Refusals.{status_of, document_status, rule_status, excess_status};

use net_values::{NoMemory, Text};
use page_flatten::FlatFault;
use pnml_decode::DocFault;
use pnml_source::{ReadPieceFault, WriteFault};

/// Why a run wrote no text, or not all of it.
#[derive(Drop)]
pub enum Refusal {
    /// The words mean nothing.
    Usage,
    /// The input spells no document.
    Document(DocFault),
    /// The document breaks a rule, or has no net of this number, counted from 1.
    Rule(u32, FlatFault),
    /// A number is out of range, or a list out of reach.
    Excess(Excess),
    /// The bytes after the document spell no certificate, by this line, counted from 1.
    Malformed(u64),
    /// The condition of this line of the certificate, counted from 1, is false of the net.
    Rejected(u64),
    /// The bytes after the document begin with no pending token, by this line, counted from 1.
    MalformedPending(u64),
    /// The class of this line of the pending token, counted from 1, has a place that the net lacks or isn't disjoint
    /// from that of an earlier line.
    RejectedPending(u64),
    /// The bytes after the document are no firing list, by this line, counted from 1.
    MalformedFiring(u64),
    /// The transition of this member of the firing list, counted from 0, isn't enabled: the place of this id
    /// lacks tokens.
    RejectedFiring(usize, Text),
    /// The input has more bytes than may be read.
    TooLong,
    /// The source of the input failed.
    ReadFault,
    /// The sink for the text failed.
    WriteFault,
    /// The system refused memory.
    NoMemory,
}

/// Why the semiflows, the bounds, the siphons or the traps of a net aren't listed, its bounds not certified, or a
/// firing list not replayed.
#[derive(Drop)]
pub enum Excess {
    /// A sum at the column of this id exceeds 2^127 - 1.
    WideSum(Text),
    /// An entry of a combination at the column of this id exceeds 2^127 - 1.
    WideRow(Text),
    /// The sum of the initial tokens, weighed by this row of the list, counted from 0, exceeds 2^127 - 1.
    WideBound(usize),
    /// A sum of this row of the list, counted from 0, at the column of this id exceeds 2^127 - 1.
    WideCheck(usize, Text),
    /// The transition of this member of the firing list, counted from 0, would give the place of this id more
    /// than 2^127 - 1 tokens.
    WideMarking(usize, Text),
    /// The budget, the id of the column that passes it, and its number of candidates.
    RowBudget(u32, Text, u64),
    /// More siphons or traps than this are grown.
    SetLimit(u32),
}

/// The status of a refusal.
pub fn status(refusal: &Refusal) -> u8
    ensures { result ≡ status_of refusal.now }
{
    match refusal {
        Refusal::Usage => 2,
        Refusal::Document(fault) => status_of_document(fault),
        Refusal::Rule(_, fault) => status_of_rule(fault),
        Refusal::Excess(excess) => status_of_excess(excess),
        Refusal::Malformed(_)
        | Refusal::Rejected(_)
        | Refusal::MalformedPending(_)
        | Refusal::RejectedPending(_)
        | Refusal::MalformedFiring(_)
        | Refusal::RejectedFiring(..) => 1,
        Refusal::TooLong => 7,
        Refusal::ReadFault => 8,
        Refusal::WriteFault => 9,
        Refusal::NoMemory => 10,
    }
}

fn status_of_document(fault: &DocFault) -> u8
    ensures { result ≡ document_status fault.now }
{
    match fault {
        DocFault::NoMemory => 10,
        _ => 3,
    }
}

fn status_of_rule(fault: &FlatFault) -> u8
    ensures { result ≡ rule_status fault.now }
{
    match fault {
        FlatFault::NoMemory => 10,
        _ => 3,
    }
}

fn status_of_excess(excess: &Excess) -> u8
    ensures { result ≡ excess_status excess.now }
{
    match excess {
        Excess::WideSum(_)
        | Excess::WideRow(_)
        | Excess::WideBound(_)
        | Excess::WideCheck(..)
        | Excess::WideMarking(..) => 4,
        Excess::RowBudget(..) => 5,
        Excess::SetLimit(_) => 6,
    }
}

impl From<NoMemory> for Refusal {
    ghost use Rattle.report.specs.declared.refusal.Refusal.{Refusal};

    ghost from_gives = { λ _ refusal. refusal ≡ Refusal.NoMemory };

    fn from(_error: NoMemory) -> Refusal {
        Refusal::NoMemory
    }
}

impl From<DocFault> for Refusal {
    ghost use Rattle.report.specs.declared.refusal.Refusal.{Refusal};

    ghost from_gives = { λ fault refusal. refusal ≡ Refusal.Document fault };

    fn from(fault: DocFault) -> Refusal {
        Refusal::Document(fault)
    }
}

impl From<ReadPieceFault> for Refusal {
    ghost use Rattle.report.specs.Refusals.{reading_refusal};

    ghost from_gives = { λ fault refusal. refusal ≡ reading_refusal fault };

    fn from(fault: ReadPieceFault) -> Refusal {
        match fault {
            ReadPieceFault::ReadFault => Refusal::ReadFault,
            ReadPieceFault::TooLong => Refusal::TooLong,
        }
    }
}

impl From<WriteFault> for Refusal {
    ghost use Rattle.report.specs.declared.refusal.Refusal.{Refusal};

    ghost from_gives = { λ _ refusal. refusal ≡ Refusal.WriteFault };

    fn from(_fault: WriteFault) -> Refusal {
        Refusal::WriteFault
    }
}
