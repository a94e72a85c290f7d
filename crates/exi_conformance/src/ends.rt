//! The end of a body.

use exi_bits::Fault;
use exi_cases::show;
use exi_evtext::push_event;
use exi_meter::Tally;
use exi_names::{EventRef, QName};
use exi_processing::End;
use std::alloc::{AllocError, Global};

/// How it ended, what was charged, and the name of a fragment's root where it was read.
pub fn push_end(alloc: Global, all: &mut String, end: &End) -> Result<(), AllocError> {
    match end {
        End::Done { bit, tally, root } => {
            push_done(alloc, all, *bit)?;
            push_rest(alloc, all, *tally, root.as_ref())
        }
        End::Fault { fault, tally, root } => {
            push_fault(alloc, all, *fault)?;
            push_rest(alloc, all, *tally, root.as_ref())
        }
    }
}

fn push_done(alloc: Global, all: &mut String, bit: u64) -> Result<(), AllocError> {
    let text = format!(in alloc; "done {bit}")?;
    all.push_str(text.as_str())
}

fn push_fault(alloc: Global, all: &mut String, fault: Fault) -> Result<(), AllocError> {
    let text = show::fault(alloc, fault)?;
    all.push_str(text.as_str())
}

fn push_rest(
    alloc: Global,
    all: &mut String,
    tally: Tally,
    root: Option<&QName>,
) -> Result<(), AllocError> {
    push_tally(alloc, all, tally)?;
    match root {
        Some(name) => push_root(all, name),
        None => Ok(()),
    }
}

fn push_tally(alloc: Global, all: &mut String, tally: Tally) -> Result<(), AllocError> {
    let Tally {
        events,
        text,
        deepest,
    } = tally;
    let charged = format!(in alloc; " tally {events}:{text}:{deepest}")?;
    all.push_str(charged.as_str())
}

fn push_root(all: &mut String, name: &QName) -> Result<(), AllocError> {
    all.push_str(" root ")?;
    push_event(all, &EventRef::Se(name.as_ref()))?;
    all.pop();
    Ok(())
}
