ghost use Rattle.std.specs.Prelude.{◌≡◌, [], ◌∷◌, ◌++◌, List, ℕ, map, IfOk};
ghost use Rattle.std.specs.Str.{chars};
ghost use Rattle.exi_names.specs.StartTables.{first_names, IsStart};

use crate::txt::Txt;
use crate::txt_list::{TxtList, TxtLists};
use std::alloc::{AllocError, Global};
use std::marker::Model;

const URIS: [&str; 3] = [
    "",
    "http://www.w3.org/XML/1998/namespace",
    "http://www.w3.org/2001/XMLSchema-instance",
];

const XML_NAMES: [&str; 4] = ["base", "id", "lang", "space"];

const XSI_NAMES: [&str; 2] = ["nil", "type"];

/// The string tables' first URIs, and for each of them its first local names (EXI 1.0, appendix D).
///
/// There are as many lists of local names as URIs; the first three URIs are the empty one, that of the
/// prefix `xml` and that of `xsi`; the list of the third begins with `nil` and `type`; and no list has
/// more than 2^30 texts.
#[derive(Debug, Drop)]
pub struct StartNames {
    uris: TxtList,
    locals: TxtLists,
}

impl Model for StartNames {
    ghost use Rattle.exi_names.specs.StartTables.{Names, IsStart};

    ghost Value = { Names };

    ghost view = { λ n. record { uris = n.uris; locals = n.locals } };

    ghost invariant = { λ n. IsStart (record { uris = n.uris; locals = n.locals }) };
}

impl StartNames {
    /// The first tables of these lists.
    pub fn of(uris: TxtList, locals: TxtLists) -> StartNames
        requires { IsStart (record { uris = uris; locals = locals }) }
        ensures { result ≡ record { uris = uris; locals = locals } }
    {
        StartNames { uris, locals }
    }

    /// The first tables where there is no schema.
    ///
    /// # Errors
    ///
    /// `AllocError` where memory is refused.
    pub fn without_schema(alloc: Global) -> Result<StartNames, AllocError>
        ensures { IfOk result (λ n. n ≡ first_names) }
    {
        let mut locals = TxtLists::new(alloc);
        locals.push(TxtList::new(alloc))?;
        locals.push(texts(alloc, &XML_NAMES)?)?;
        locals.push(texts(alloc, &XSI_NAMES)?)?;
        Ok(StartNames {
            uris: texts(alloc, &URIS)?,
            locals,
        })
    }

    /// The URIs.
    pub fn uris(&self) -> &TxtList
        ensures uris { result.now ≡ self.now.uris }
        ensures start { IsStart self.now }
    {
        &self.uris
    }

    /// The lists of local names, one for each URI.
    pub fn locals(&self) -> &TxtLists
        ensures locals { result.now ≡ self.now.locals }
        ensures start { IsStart self.now }
    {
        &self.locals
    }
}

/// A list of these texts.
fn texts(alloc: Global, texts: &[&str]) -> Result<TxtList, AllocError>
    ensures { IfOk result (λ l. l ≡ map (λ t. chars t.now) texts.now) }
{
    let mut list = TxtList::new(alloc);
    for text in texts {
        list.push(Txt::of(alloc, text)?)?;
    }
    Ok(list)
}
