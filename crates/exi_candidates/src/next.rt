ghost use Rattle.std.specs.Prelude.{◌≡◌, ◌<◌, ◌^◌, IfSome, length, map};
ghost use Rattle.exi_gram.specs.Books.{IsStateOf, state_at};
ghost use Rattle.exi_gram.specs.Codes.{coded};
ghost use Rattle.exi_gram.specs.Tables.{coded_of, size};
ghost use Rattle.exi_candidates.specs.Keys.{attribute_keys, element_keys, keys, wide_keys};
ghost use Rattle.exi_candidates.specs.Order.{IsNext, first_of, floor_in, floor_of};

use crate::key::Key;
use crate::nearest::{nearest, rank};
use crate::sought::Sought;
use exi_gram::{Book, Class, Coded, Named};
use exi_names::NameId;

/// A class without a name.
fn wide(class: Class) -> Key
    ensures { result ≡ record { class = class; name = record { uri = 0; local = 0 } } }
{
    Key {
        class,
        name: NameId { uri: 0, local: 0 },
    }
}

/// A class and a URI.
fn within(class: Class, uri: u32) -> Key
    ensures { result ≡ record { class = class; name = record { uri = uri; local = 0 } } }
{
    Key {
        class,
        name: NameId { uri, local: 0 },
    }
}

/// A class and a name.
fn of(class: Class, name: NameId) -> Key
    ensures { result ≡ record { class = class; name = name } }
{
    Key { class, name }
}

/// The number that the next has to pass.
fn floor(coded: &[Coded], after: Option<u32>) -> u64
    requires there { IfSome after (λ place. place < length coded.now) }
    ensures { result ≡ floor_in (map coded_of coded.now) after }
{
    match after {
        None => 0,
        Some(place) => rank(coded, place),
    }
}

/// The next production that one of the keys looks up.
fn next_of(book: &Book, grammar: u32, state: u32, keys: &[Key], after: Option<u32>) -> Option<u32>
    requires exists { IsStateOf book.now grammar state }
    requires after { IfSome after (λ place. place < size (state_at book.now grammar state)) }
    ensures { IsNext (state_at book.now grammar state) keys.now after result }
{
    let coded = book.state(grammar, state).coded();
    let floor = floor(coded, after);
    let mut best = None;
    for key in keys {
        let places = book.candidates(grammar, state, key.class, key.name);
        best = nearest(coded, floor, best, places);
    }
    best
}

/// The next production that reads the start of an element.
fn next_element(
    book: &Book,
    grammar: u32,
    state: u32,
    named: Named,
    after: Option<u32>,
) -> Option<u32>
    requires exists { IsStateOf book.now grammar state }
    requires after { IfSome after (λ place. place < size (state_at book.now grammar state)) }
    ensures { IsNext (state_at book.now grammar state) (element_keys named) after result }
{
    let any = wide(Class::SeAny);
    match named {
        Named::Nothing => next_of(book, grammar, state, &[any], after),
        Named::Uri(uri) => {
            let keys = [within(Class::SeIn, uri), any];
            next_of(book, grammar, state, &keys, after)
        }
        Named::Name(name) => {
            let keys = [of(Class::Se, name), within(Class::SeIn, name.uri), any];
            next_of(book, grammar, state, &keys, after)
        }
    }
}

/// The next production that reads an attribute, among those that a class without a name looks up and those for
/// attributes.
fn next_attribute(
    book: &Book,
    grammar: u32,
    state: u32,
    special: Class,
    named: Named,
    after: Option<u32>,
) -> Option<u32>
    requires exists { IsStateOf book.now grammar state }
    requires after { IfSome after (λ place. place < size (state_at book.now grammar state)) }
    ensures { IsNext (state_at book.now grammar state) (attribute_keys special named) after result }
{
    let first = wide(special);
    let any = wide(Class::AtAny);
    let text = wide(Class::AtAnyText);
    match named {
        Named::Nothing => next_of(book, grammar, state, &[first, any, text], after),
        Named::Uri(uri) => {
            let keys = [first, within(Class::AtIn, uri), any, text];
            next_of(book, grammar, state, &keys, after)
        }
        Named::Name(name) => {
            let own = of(Class::At, name);
            let own_text = of(Class::AtText, name);
            let keys = [
                first,
                own,
                own_text,
                within(Class::AtIn, name.uri),
                any,
                text,
            ];
            next_of(book, grammar, state, &keys, after)
        }
    }
}

/// The next production that a class without a name looks up.
fn next_wide(book: &Book, grammar: u32, state: u32, class: Class, after: Option<u32>) -> Option<u32>
    requires exists { IsStateOf book.now grammar state }
    requires after { IfSome after (λ place. place < size (state_at book.now grammar state)) }
    ensures { IsNext (state_at book.now grammar state) (wide_keys class) after result }
{
    next_of(book, grammar, state, &[wide(class)], after)
}

/// The production to try next for an event in a state of a grammar, which has to exist: the first, or the one behind the
/// one that was tried before. None of those that can write the event is left out; those with fewer parts in their codes
/// come first, and among these those with lesser codes. `None` where there is no other.
///
/// Nothing is walked but the lists of the classes that can write the event, and no memory is taken.
pub fn next_candidate(
    book: &Book,
    grammar: u32,
    state: u32,
    sought: Sought,
    after: Option<u32>,
) -> Option<u32>
    requires exists { IsStateOf book.now grammar state }
    requires after { IfSome after (λ place. place < size (state_at book.now grammar state)) }
    ensures { IsNext (state_at book.now grammar state) (keys sought) after result }
{
    match sought {
        Sought::Se(named) => next_element(book, grammar, state, named, after),
        Sought::At(named) => next_attribute(book, grammar, state, Class::AtAny, named, after),
        Sought::Type(named) => next_attribute(book, grammar, state, Class::XsiType, named, after),
        Sought::Nil(named) => next_attribute(book, grammar, state, Class::XsiNil, named, after),
        Sought::Ch => {
            let keys = [wide(Class::Ch), wide(Class::ChText)];
            next_of(book, grammar, state, &keys, after)
        }
        Sought::Sd => next_wide(book, grammar, state, Class::Sd, after),
        Sought::Ed => next_wide(book, grammar, state, Class::Ed, after),
        Sought::Ee => next_wide(book, grammar, state, Class::Ee, after),
        Sought::Ns => next_wide(book, grammar, state, Class::Ns, after),
        Sought::Sc => next_wide(book, grammar, state, Class::Sc, after),
        Sought::Er => next_wide(book, grammar, state, Class::Er, after),
        Sought::Cm => next_wide(book, grammar, state, Class::Cm, after),
        Sought::Pi => next_wide(book, grammar, state, Class::Pi, after),
        Sought::Dt => next_wide(book, grammar, state, Class::Dt, after),
    }
}
