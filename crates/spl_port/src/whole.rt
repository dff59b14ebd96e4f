ghost use Rattle.std.specs.Prelude.{◌≡◌, ◌≢◌, ◌≤◌, ◌<◌, ◌+◌, [], Some, None, length, vec_len, IfOk, IfSome, OnOk, OnErr};
ghost use Rattle.spl_port.specs.Bytes.{Gives, Loses, Takes, TakesPart};
ghost use Rattle.spl_port.specs.Counts.{raised_count};
ghost use Rattle.spl_port.specs.declared.whole.ReadFault.TheVariants.{Failed as input_failed, NoMemory as out_of_memory};

use crate::{Failed, Sink, Source};
use spl_base::NoMemory;
use std::alloc::{AllocError, Global};
use std::error::Error;
use std::fmt;

/// How many bytes one read asks for at most.
const PIECE: usize = 65536;

/// Why an input could not be read to its end.
#[derive(Clone, Copy, Debug, PartialEq, Eq)]
pub enum ReadFault {
    Failed,
    NoMemory,
}

impl fmt::Display for ReadFault {
    fn fmt<W: fmt::Write>(&self, f: &mut fmt::Formatter<W>) -> fmt::Result {
        match self {
            ReadFault::Failed => write!(f, "the input failed"),
            ReadFault::NoMemory => write!(f, "out of memory"),
        }
    }
}

impl Error for ReadFault {}

impl From<Failed> for ReadFault {
    ghost from_gives = { λ _ e. e ≡ input_failed };

    fn from(_: Failed) -> ReadFault {
        ReadFault::Failed
    }
}

impl From<NoMemory> for ReadFault {
    ghost from_gives = { λ _ e. e ≡ out_of_memory };

    fn from(_: NoMemory) -> ReadFault {
        ReadFault::NoMemory
    }
}

impl From<AllocError> for ReadFault {
    ghost from_gives = { λ _ e. e ≡ out_of_memory };

    fn from(_: AllocError) -> ReadFault {
        ReadFault::NoMemory
    }
}

#[tactic(auto, using(crate::proofs::BytesLemmas::takes_next))]
/// Writes all of the text, in as many pieces as the sink takes.
pub fn write_whole<O: Sink>(out: &mut O, text: &[u8]) -> Result<(), Failed>
    ensures ok { OnOk result (Takes (O.means out.old).held (O.means out.new).held text.now) }
    ensures ok_count { OnOk result ((O.means out.new).faults ≡ (O.means out.old).faults) }

    // The sink stopped short of the end: one write failed, the last one.
    ensures err { OnErr result (TakesPart (O.means out.old).held (O.means out.new).held text.now) }
    ensures failed { OnErr result ((O.means out.new).faults ≡ raised_count (O.means out.old).faults) }
    ensures never_falls { (O.means out.old).faults ≤ (O.means out.new).faults }

    // Each write has a byte to take.
    ensures writes { (O.means out.new).writes ≤ (O.means out.old).writes + length text.now }
{
    let mut at = 0;
    while at < text.len() {
        at += out.write(&text[at..])?;
    }
    Ok(())
}

#[tactic(auto, using(crate::proofs::BytesLemmas::gives_next))]
/// Reads to the end of the input, or until `limit` bytes were read. At the end it makes no further read.
///
/// After an error the bytes that were read so far are lost.
pub fn read_whole<I: Source>(
    alloc: Global,
    input: &mut I,
    limit: usize,
) -> Result<Vec<u8>, ReadFault>
    ensures bound { IfOk result (λ text. vec_len text ≤ limit) }
    ensures ok { IfOk result (λ text. Gives (I.means input.old).left (I.means input.new).left text.items) }
    ensures end { IfOk result (λ text. vec_len text < limit → IfSome (I.means input.new).left (λ rest. rest ≡ [])) }
    ensures err { OnErr result (Loses (I.means input.old).left (I.means input.new).left limit) }

    // Where no read had met the end before, the last one does, or none.
    ensures met { (I.means input.old).late ≡ None → IfOk result (λ text. vec_len text < limit → (I.means input.new).late ≡ Some 0) }
    ensures full { (I.means input.old).late ≡ None → IfOk result (λ text. vec_len text ≡ limit → (I.means input.new).late ≡ None) }
    ensures unmet { (I.means input.old).late ≡ None → OnErr result ((I.means input.new).late ≡ None) }

    // It has failed exactly where a read failed.
    ensures failed { result ≡ Err ReadFault.Failed → (I.means input.new).faults ≡ raised_count (I.means input.old).faults }
    ensures count { result ≢ Err ReadFault.Failed → (I.means input.new).faults ≡ (I.means input.old).faults }
    ensures never_falls { (I.means input.old).faults ≤ (I.means input.new).faults }
{
    let mut text = Vec::new(alloc);
    let mut buffer = vec![in alloc; 0u8; PIECE.min(limit)]?;
    while text.len() < limit {
        let asked = buffer.len().min(limit - text.len());
        let piece = &mut buffer[..asked];
        let given = input.read(piece)?;
        if given == 0 {
            break;
        }
        text.extend_from_slice(&piece[..given])?;
    }
    Ok(text)
}
