//! What two wildcards allow together (XML Schema 1.0 Part 1, section 3.10.6).

ghost use Rattle.std.specs.Prelude.{◌≡◌, IfOk, filter};
ghost use Rattle.xsd_wildcards.specs.Wildcards.{both, is_in, is_kept};
ghost use Rattle.xsd_wildcards.specs.declared.allowed.Allowed.TheVariants as allows;

use crate::allowed::Allowed;
use crate::words::is_in;
use exi_names::{Txt, TxtList};
use std::alloc::{AllocError, Global};

/// Whether a wildcard that allows any namespace but one allows this.
fn is_kept(own: &Txt, uri: &Txt) -> bool
    ensures { result ≡ is_kept own.now uri.now }
{
    !(uri.same(own) || uri.count() == 0)
}

/// Those of the namespaces that a wildcard allows that allows any but one.
fn others_of(alloc: Global, own: &Txt, uris: &[Txt]) -> Result<TxtList, AllocError>
    ensures { IfOk result (λ l. l ≡ filter (is_kept own.now) uris.now) }
{
    let mut kept = TxtList::new(alloc);
    for uri in uris {
        if is_kept(own, uri) {
            kept.push(uri.copy()?)?;
        }
    }
    Ok(kept)
}

/// Those of the namespaces that are among others.
fn common(alloc: Global, uris: &[Txt], others: &[Txt]) -> Result<TxtList, AllocError>
    ensures { IfOk result (λ l. l ≡ filter (is_in others.now) uris.now) }
{
    let mut kept = TxtList::new(alloc);
    for uri in uris {
        if is_in(others, uri) {
            kept.push(uri.copy()?)?;
        }
    }
    Ok(kept)
}

/// What any namespace but one and any but another are together: of two that are given, the first counts.
fn both_others(own: Txt, uri: Txt) -> Allowed
    ensures { result ≡ both (allows.OtherThan own) (allows.OtherThan uri) }
{
    if own.count() == 0 {
        Allowed::OtherThan(uri)
    } else {
        Allowed::OtherThan(own)
    }
}

/// What both allow together. Of two that allow all but one namespace, the first that names one counts.
///
/// # Errors
///
/// `AllocError` where memory is refused.
pub fn both(alloc: Global, one: Allowed, other: Allowed) -> Result<Allowed, AllocError>
    ensures { IfOk result (λ a. a ≡ both one other) }
{
    match (one, other) {
        (Allowed::Every, other) => Ok(other),
        (one, Allowed::Every) => Ok(one),
        (Allowed::OtherThan(own), Allowed::OtherThan(uri)) => Ok(both_others(own, uri)),
        (Allowed::OtherThan(own), Allowed::These(uris)) => {
            Ok(Allowed::These(others_of(alloc, &own, uris.as_slice())?))
        }
        (Allowed::These(uris), Allowed::OtherThan(own)) => {
            Ok(Allowed::These(others_of(alloc, &own, uris.as_slice())?))
        }
        (Allowed::These(uris), Allowed::These(others)) => {
            Ok(Allowed::These(common(alloc, uris.as_slice(), others.as_slice())?))
        }
    }
}
