ghost use Rattle.std.specs.Prelude.{◌≡◌, ◌++◌, OnOk, IfOk, decimal};
ghost use Rattle.exi_run.specs.Endings.{ending_of, kind_words, last_line, status_of};

use crate::status::Status;
use exi_bits::{Fault, Kind};
use exi_processing::End;
use itoa::Buffer;
use std::alloc::{AllocError, Global};

/// How the reading of a stream ends.
#[derive(Clone, Copy, Debug, PartialEq, Eq)]
pub enum Ending {
    /// It was read to its end, which is at this bit.
    Done(u64),
    /// It has this fault.
    Fault(Fault),
}

pub(crate) fn push_number(out: &mut Vec<u8>, word: &[u8], number: u64) -> Result<(), AllocError>
    ensures { OnOk result (out.new.items ≡ out.old.items ++ (word.now ++ decimal number)) }
{
    out.extend_from_slice(word)?;
    let mut digits = Buffer::new();
    out.extend_from_slice(digits.format(number).as_bytes())
}

pub(crate) fn push_kind(out: &mut Vec<u8>, kind: Kind) -> Result<(), AllocError>
    ensures { OnOk result (out.new.items ≡ out.old.items ++ kind_words kind) }
{
    out.extend_from_slice(kind.word().as_bytes())?;
    if let Kind::Unsupported(part) = kind {
        out.push(b' ')?;
        out.extend_from_slice(part.word().as_bytes())?;
    }
    Ok(())
}

impl Ending {
    /// What is told of the end of a sequence.
    pub(crate) fn of(end: End) -> Ending
        ensures { result ≡ ending_of end }
    {
        match end {
            End::Done { bit, .. } => Ending::Done(bit),
            End::Fault { fault, .. } => Ending::Fault(fault),
        }
    }

    /// Its status.
    pub(crate) fn status(self) -> Status
        ensures { result ≡ status_of self }
    {
        match self {
            Ending::Done(_) => Status::Ok,
            Ending::Fault(_) => Status::Fault,
        }
    }

    /// Its line.
    #[tactic(auto, unfolding(crate::specs::Endings::last_line))]
    pub(crate) fn line(self, alloc: Global) -> Result<Vec<u8>, AllocError>
        ensures { IfOk result (λ text. text.items ≡ last_line self) }
    {
        let mut out = Vec::new(alloc);
        match self {
            Ending::Done(bit) => push_number(&mut out, b"done ", bit)?,
            Ending::Fault(fault) => {
                out.extend_from_slice(b"fault ")?;
                push_kind(&mut out, fault.kind)?;
                push_number(&mut out, b" ", fault.bit)?;
            }
        }
        out.push(b'\n')?;
        Ok(out)
    }
}
