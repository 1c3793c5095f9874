ghost use Rattle.std.specs.Prelude.{IfOk, IfErr};
ghost use Rattle.net_values.specs.FlatNets.{net_of};
ghost use Rattle.struct_core.specs.Answers.{FailsWith};
ghost use Rattle.struct_core.specs.Certificates.{VerifyOutcome};

use cert_check::{Rejected, Scratch, check};
use certificates::{ReadFault, read};
use net_values::{FlatNet, Text};
use report::{Refusal, verified_text};
use std::alloc::Global;

/// The text of `verify` for the bytes that follow the document.
pub(crate) fn verify_report(alloc: Global, net: &FlatNet, bytes: &[u8]) -> Result<Text, Refusal>
    ensures text { IfOk result (VerifyOutcome (net_of net.now) bytes.now 0) }
    ensures refused { IfErr result (FailsWith (VerifyOutcome (net_of net.now) bytes.now)) }
{
    let certificate = match read(alloc, bytes) {
        Ok(certificate) => certificate,
        Err(ReadFault::BadLine(number)) => return Err(Refusal::Malformed(number)),
        Err(ReadFault::NoMemory) => return Err(Refusal::NoMemory),
    };
    let mut scratch = Scratch::new(alloc, net.places())?;
    match check(net, &certificate, &mut scratch) {
        Ok(()) => Ok(verified_text(alloc, net, &certificate)?),
        Err(Rejected(number)) => Err(Refusal::Rejected(number)),
    }
}
