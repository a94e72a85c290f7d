ghost use Rattle.std.specs.Prelude.{◌≡◌, ◌-◌, ◌^◌, ◌&&◌, None, Some, true, IfOk, IfSome, if◌then◌else◌};
ghost use Rattle.exi_bits.specs.declared.fault.Kind.TheVariants as kind;
ghost use Rattle.exi_gram.specs.Switches.{align_of, prefixes, strict};
ghost use Rattle.exi_names.specs.Datatypes as datatype;
ghost use Rattle.exi_names.specs.Seen.{seen};
ghost use Rattle.exi_names.specs.Seen as shape;
ghost use Rattle.exi_names.specs.Shown.{named};
ghost use Rattle.exi_names.specs.declared.names.NameId.{NameId};
ghost use Rattle.exi_processing.specs.Changes.{innermost};
ghost use Rattle.exi_processing.specs.Handing.{datatype_in, rule_in, telling_of};
ghost use Rattle.exi_processing.specs.Plans.{alone_in, wrong_element};
ghost use Rattle.exi_processing.specs.Rules.{known, spelled, under};
ghost use Rattle.exi_processing.specs.declared.rule.Telling.TheVariants as Told;
ghost use Rattle.exi_tables.specs.Growth.{NoneLonger};
ghost use Rattle.exi_tables.specs.Partitions.{IsName, least_place, uris};
ghost use Rattle.exi_typed.specs.Written.{after_local, after_name};
ghost use Rattle.exi_writing.specs.Contents.{told_name};
ghost use Rattle.exi_writing.specs.Contents as contents;
ghost use Rattle.exi_pen.specs.Pages.{PutsIn, PutsLast, id_of};
ghost use Rattle.std.specs.Option.{is_none, option_copied};
ghost use Rattle.exi_processing.specs.Contents.{named_type};
ghost use Rattle.exi_choice.specs.Fitting.{as_nil, as_type, declared_in, declaring};
ghost use Rattle.exi_choice.specs.Wanted.{is_told, place_told, told_of};
ghost use Rattle.exi_names.specs.Datatypes.{represented};
ghost use Rattle.exi_pen.specs.Told.{valuing_on};
ghost use Rattle.exi_pen.specs.Values.{FitsAs, HasRoomBehind, IsSpelledAs, declared_value, value_by};
ghost use Rattle.exi_writing.specs.Pieces as piece;
ghost use Rattle.exi_writing.specs.Pieces.{can_be_spelled};
ghost use Rattle.exi_writing.specs.Pruned.{pruned_name};

use crate::moves::valuing;
use crate::pen::Pen;
use exi_choice::{Declared, declaration_of, place_told, told_of};
use exi_gram::Options;
use exi_names::{Datatype, NameId, NameRef, Txt, Val};
use exi_pieces::{
    put_declaration, put_known, put_literal, put_name, put_spelled, put_under, put_value,
};
use exi_processing::{Alone, Rule, Telling, alone_in, innermost, is_strict, keeps_prefixes};
use exi_tables::Tables;
use exi_toll::{PutStop, Toll};

/// The name without its prefix, where prefixes are not kept.
fn kept_name<'b>(options: &Options, name: NameRef<'b>) -> NameRef<'b>
    ensures { named result ≡ pruned_name options.now (named name.entry) }
{
    if keeps_prefixes(options) {
        return name;
    }
    NameRef {
        uri: name.uri,
        local: name.local,
        prefix: None,
    }
}

/// The least place of a URI, where it stands at this place too.
#[inline(always)]
fn uri_there<T: Tables>(tables: &T, place: u32, text: &Txt) -> Option<u32>
    ensures { IfSome result (λ uri. least_place (uris (T.held tables.now)) text.now ≡ Some uri) }
{
    let Some(held) = tables.uri_at(place) else {
        return None;
    };
    if held.same(text) {
        return Some(tables.least_uri(place));
    }
    None
}

/// What a code can tell of a name whose URI may well stand at this place: it is then not looked up.
#[inline(always)]
fn told_near<T: Tables>(tables: &T, place: u32, name: NameRef<'_>) -> Telling
    ensures { result ≡ told_of (T.held tables.now) (named name.entry) }
{
    let Some(uri) = uri_there(tables, place, name.uri) else {
        return told_of(tables, name);
    };
    match tables.local_of(uri, name.local) {
        Some(local) => Telling::Known(NameId { uri, local }),
        None => Telling::Under(uri),
    }
}

impl<'a, T: Tables + Drop> Pen<'a, T> {
    /// The name without its prefix, where prefixes are not kept.
    pub fn kept<'b>(&self, name: NameRef<'b>) -> NameRef<'b>
        ensures { named result ≡ pruned_name self.now.setting.options (named name.entry) }
    {
        kept_name(self.book.options(), name)
    }

    /// What a code can tell of a name. Most stand under the URI of the innermost element, or under none.
    #[inline(always)]
    pub fn told_of(&self, name: NameRef<'_>) -> Telling
        ensures { result ≡ told_of self.now.config.tables (named name.entry) }
    {
        let near = if name.uri.count() == 0 {
            0
        } else {
            self.inside().uri
        };
        told_near(&self.tables, near, name)
    }

    /// How the value of an attribute of this name is represented under a production, where a code can tell so much of the
    /// name.
    pub fn declared(&self, rule: Rule<'a>, told: Telling, name: NameRef<'_>) -> Declared<'a>
        ensures { declaring result ≡ declared_in self.now.setting.schema (valuing_on (rule_in rule.entry).on) (place_told told) (named name.entry) }
    {
        declaration_of(
            self.book,
            valuing(rule),
            rule.datatype,
            place_told(told),
            name,
        )
    }

    /// The name of the innermost element.
    pub fn inside(&self) -> NameId
        ensures { result ≡ innermost self.now.config.elements }
    {
        innermost(&self.elements)
    }

    /// Whether the element of a fragment is to come, and has another name.
    pub fn is_other(&self, name: NameRef<'_>) -> bool
        ensures { wrong_element (alone_in self.now.config.elements self.now.config.outer) self.now.config.aside (named name.entry) ≡ (if result then Some kind.ScRoot else None) }
    {
        match alone_in(&self.elements, self.outer) {
            Alone::AtFirst => self.aside.refuse(name),
            Alone::Nowhere | Alone::AtStart | Alone::AtEnd => false,
        }
    }

    /// Writes a name that has bits of its own, or what is left of one that the code tells.
    #[inline(always)]
    pub fn put_told(
        &mut self,
        toll: &mut Toll,
        telling: Telling,
        name: NameRef<'_>,
    ) -> Result<NameId, PutStop>
        requires few { NoneLonger (2 ^ 31 - 2) self.old.config.tables }
        requires told { is_told (told_of self.old.config.tables (named name)) (telling_of telling) ≡ true }
        ensures put { PutsIn result (told_name self.old.setting (telling_of telling) (named name.entry) self.old.config.tables) self.old self.new toll.old toll.new }
        ensures id { IfOk result (λ id. id_of (told_name self.old.setting (telling_of telling) (named name.entry) self.old.config.tables) id) }
        ensures name { IfOk result (λ id. IsName self.new.config.tables id) }
        ensures few { IfOk result (λ id. NoneLonger (2 ^ 31) self.new.config.tables) }
    {
        match telling {
            Telling::Spelled => self.put_name(toll, name),
            Telling::Known(id) => self.put_known(toll, id, name),
            Telling::Under(uri) => self.put_under(toll, uri, name),
        }
    }

    /// Writes a name that has bits of its own.
    #[inline(never)]
    fn put_name(&mut self, toll: &mut Toll, name: NameRef<'_>) -> Result<NameId, PutStop>
        requires few { NoneLonger (2 ^ 31) self.old.config.tables }
        ensures put { PutsIn result (told_name self.old.setting spelled (named name.entry) self.old.config.tables) self.old self.new toll.old toll.new }
        ensures id { IfOk result (λ id. id_of (told_name self.old.setting spelled (named name.entry) self.old.config.tables) id) }
        ensures name { IfOk result (λ id. IsName self.new.config.tables id) }
        ensures tables { IfOk result (λ id. self.new.config.tables ≡ after_name self.old.config.tables (named name.entry)) }
    {
        let options = self.book.options();
        let tables = &mut self.tables;
        let id = put_name(self.alloc, options, &mut self.out, toll, tables, name)?;
        let Some(id) = id else {
            return Err(PutStop::NotDerived);
        };
        Ok(id)
    }

    /// Writes what is left of a name of which the code tells the URI.
    #[inline(never)]
    fn put_under(&mut self, toll: &mut Toll, uri: u32, name: NameRef<'_>) -> Result<NameId, PutStop>
        requires few { NoneLonger (2 ^ 31) self.old.config.tables }
        requires told { least_place (uris self.old.config.tables) (named name).uri ≡ Some uri }
        ensures put { PutsIn result (told_name self.old.setting (under uri) (named name.entry) self.old.config.tables) self.old self.new toll.old toll.new }
        ensures id { IfOk result (λ id. id_of (told_name self.old.setting (under uri) (named name.entry) self.old.config.tables) id) }
        ensures name { IfOk result (λ id. IsName self.new.config.tables id) }
        ensures tables { IfOk result (λ id. self.new.config.tables ≡ after_local self.old.config.tables uri (named name.entry).local) }
    {
        let options = self.book.options();
        let tables = &mut self.tables;
        let id = put_under(self.alloc, options, &mut self.out, toll, tables, uri, name)?;
        let Some(id) = id else {
            return Err(PutStop::NotDerived);
        };
        Ok(id)
    }

    /// Writes what is left of a name that the code tells.
    #[inline(always)]
    fn put_known(
        &mut self,
        toll: &mut Toll,
        id: NameId,
        name: NameRef<'_>,
    ) -> Result<NameId, PutStop>
        requires told { told_of self.old.config.tables (named name) ≡ Told.Known id }
        ensures put { PutsIn result (told_name self.old.setting (known id) (named name.entry) self.old.config.tables) self.old self.new toll.old toll.new }
        ensures id { IfOk result (λ id. id_of (told_name self.old.setting (known id) (named name.entry) self.old.config.tables) id) }
        ensures same { IfOk result (λ known. known ≡ id) }
        ensures tables { self.new.config.tables ≡ self.old.config.tables }
    {
        let options = self.book.options();
        if put_known(options, &mut self.out, toll, &self.tables, id, name)? {
            return Ok(id);
        }
        Err(PutStop::NotDerived)
    }

    /// Writes the value of an attribute that is represented so.
    pub fn put_declared(
        &mut self,
        toll: &mut Toll,
        declared: Declared<'_>,
        name: NameId,
        value: &Val,
    ) -> Result<(), PutStop>
        requires name { IsName self.old.config.tables name }
        requires few { NoneLonger (2 ^ 31) self.old.config.tables }
        requires roomy { HasRoomBehind toll.old self.old.config.tables }
        requires fits { FitsAs (declaring declared) (seen value.now) }
        ensures put { PutsLast result (declared_value self.old.setting (declaring declared.entry) name (seen value.now) self.old.config.tables) self.old self.new toll.old toll.new }
    {
        match declared {
            Declared::Type => self.put_type(toll, name, value),
            Declared::Nil => self.put_nil(toll, name, value),
            Declared::Datatype(datatype) => self.put_by(toll, datatype, name, value),
        }
    }

    /// Writes the value of an attribute that names the type by which its element goes on: a name. In a strict stream that
    /// type has to be there.
    fn put_type(&mut self, toll: &mut Toll, name: NameId, value: &Val) -> Result<(), PutStop>
        requires few { NoneLonger (2 ^ 31) self.old.config.tables }
        requires fits { FitsAs as_type (seen value.now) }
        ensures put { PutsLast result (declared_value self.old.setting as_type name (seen value.now) self.old.config.tables) self.old self.new toll.old toll.new }
    {
        let Val::Name(found) = value else {
            return Err(PutStop::NotDerived);
        };
        if self.misses_type(value) {
            return Err(PutStop::NotDerived);
        }
        let name = self.kept(found.as_ref());
        toll.text(1);
        self.put_type_name(toll, name)
    }

    /// Whether a value names a type that has to be there, in a strict stream, and is not.
    fn misses_type(&self, value: &Val) -> bool
        ensures { result ≡ (strict self.now.setting.options && is_none (named_type self.now.setting (seen value.now))) }
    {
        is_strict(self.book.options()) && self.type_named(value).is_none()
    }

    /// Writes the value of `xsi:nil`.
    fn put_nil(&mut self, toll: &mut Toll, name: NameId, value: &Val) -> Result<(), PutStop>
        requires name { IsName self.old.config.tables name }
        requires roomy { HasRoomBehind toll.old self.old.config.tables }
        requires fits { FitsAs as_nil (seen value.now) }
        ensures put { PutsLast result (declared_value self.old.setting as_nil name (seen value.now) self.old.config.tables) self.old self.new toll.old toll.new }
    {
        let datatype = Datatype::Boolean { pattern: false };
        self.put_typed(toll, &datatype, name, value)
    }

    /// Writes a value of a datatype, or a string, under a name.
    #[inline(always)]
    pub fn put_by(
        &mut self,
        toll: &mut Toll,
        datatype: Option<&Datatype>,
        name: NameId,
        value: &Val,
    ) -> Result<(), PutStop>
        requires name { IsName self.old.config.tables name }
        requires few { NoneLonger (2 ^ 31) self.old.config.tables }
        requires roomy { HasRoomBehind toll.old self.old.config.tables }
        requires fits { IsSpelledAs (datatype_in (option_copied datatype)) (seen value.now) }
        ensures put { PutsLast result (value_by self.old.setting (datatype_in (option_copied datatype.entry)) name (seen value.now) self.old.config.tables) self.old self.new toll.old toll.new }
    {
        match datatype {
            Some(datatype) => self.put_typed(toll, datatype, name, value),
            None => self.put_string_of(toll, name, value),
        }
    }

    /// Writes a value of a datatype under a name.
    #[inline(never)]
    fn put_typed(
        &mut self,
        toll: &mut Toll,
        datatype: &Datatype,
        name: NameId,
        value: &Val,
    ) -> Result<(), PutStop>
        requires name { IsName self.old.config.tables name }
        requires roomy { HasRoomBehind toll.old self.old.config.tables }
        requires fits { IsSpelledAs (represented datatype.now) (seen value.now) }
        ensures put { PutsLast result (value_by self.old.setting (represented datatype.now) name (seen value.now) self.old.config.tables) self.old self.new toll.old toll.new }
    {
        let options = self.book.options();
        let tables = &mut self.tables;
        let out = &mut self.out;
        put_value(
            self.alloc, options, out, toll, tables, datatype, name, value,
        )?;
        Ok(())
    }

    /// Writes a name that is a value. Its unit is charged.
    fn put_type_name(&mut self, toll: &mut Toll, name: NameRef<'_>) -> Result<(), PutStop>
        requires few { NoneLonger (2 ^ 31) self.old.config.tables }
        ensures put { PutsIn result (piece.name (prefixes self.old.setting.options) (align_of self.old.setting.options) (named name.entry) self.old.config.tables) self.old self.new toll.old toll.new }
    {
        self.put_name(toll, name)?;
        Ok(())
    }

    /// Writes a string under a name.
    fn put_string(&mut self, toll: &mut Toll, name: NameId, text: &Txt) -> Result<(), PutStop>
        requires can { can_be_spelled text.now ≡ true }
        requires name { IsName self.old.config.tables name }
        requires few { NoneLonger (2 ^ 31) self.old.config.tables }
        ensures put { PutsIn result (piece.value datatype.text (align_of self.old.setting.options) name (shape.text text.now) self.old.config.tables) self.old self.new toll.old toll.new }
    {
        let options = self.book.options();
        let tables = &mut self.tables;
        put_spelled(self.alloc, options, &mut self.out, toll, tables, name, text)?;
        Ok(())
    }

    /// Writes a value that is a string.
    fn put_string_of(&mut self, toll: &mut Toll, name: NameId, value: &Val) -> Result<(), PutStop>
        requires name { IsName self.old.config.tables name }
        requires few { NoneLonger (2 ^ 31) self.old.config.tables }
        requires fits { IsSpelledAs datatype.text (seen value.now) }
        ensures put { PutsLast result (value_by self.old.setting datatype.text name (seen value.now) self.old.config.tables) self.old self.new toll.old toll.new }
    {
        match value {
            Val::Text(text) => self.put_string(toll, name, text),
            Val::Bool { .. }
            | Val::Int(_)
            | Val::Dec { .. }
            | Val::Flo { .. }
            | Val::Mom(_)
            | Val::Bin { .. }
            | Val::Items(_)
            | Val::Name(_) => Err(PutStop::NotDerived),
        }
    }

    /// Writes a text that stands in no string table.
    pub fn put_literal(&mut self, toll: &mut Toll, text: &Txt) -> Result<(), PutStop>
        ensures put { PutsIn result (contents.text self.old.setting text.now self.old.config.tables) self.old self.new toll.old toll.new }
    {
        if put_literal(self.alloc, self.book.options(), &mut self.out, toll, text)? {
            return Ok(());
        }
        Err(PutStop::NotDerived)
    }

    /// Writes a namespace declaration.
    pub fn put_declaration(
        &mut self,
        toll: &mut Toll,
        uri: &Txt,
        prefix: &Txt,
        element: bool,
    ) -> Result<(), PutStop>
        requires few { NoneLonger (2 ^ 31) self.old.config.tables }
        ensures put { PutsIn result (piece.declaration (align_of self.old.setting.options) (record { uri = uri.now; prefix = prefix.now; element = element }) self.old.config.tables) self.old self.new toll.old toll.new }
    {
        let options = self.book.options();
        let tables = &mut self.tables;
        let out = &mut self.out;
        if put_declaration(self.alloc, options, out, toll, tables, uri, prefix, element)? {
            return Ok(());
        }
        Err(PutStop::NotDerived)
    }
}
