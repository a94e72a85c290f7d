ghost use Rattle.std.specs.Prelude.{◌≡◌, None, Some, IfNone, IfSome};
ghost use Rattle.exi_builtin.specs.Learning.{IsRoom, state_behind};
ghost use Rattle.exi_builtin.specs.Learning.{Learning};
ghost use Rattle.exi_processing.specs.Configurations.{Setting, built_in};
ghost use Rattle.exi_processing.specs.Rules.{fragment_start, start_document};
ghost use Rattle.exi_processing.specs.Handing.{rule_in, telling_of, terminal_in};
ghost use Rattle.exi_processing.specs.Rules.{built_in_terminal};
ghost use Rattle.exi_choice.specs.declared.choice.Way.TheVariants as Way;
ghost use Rattle.exi_choice.specs.Choices.{Chooses, IsChoice};
ghost use Rattle.exi_choice.specs.Wanted.{LacksSpecial, general, is_of, is_told, special, special_terminal};

use exi_builtin::{Learnable, Overlay, Room};
use exi_gram::{Book, Code};
use exi_processing::{Content, Rule, Telling, state_behind};

/// How the code of a production is written.
#[derive(Clone, Copy, Debug)]
pub enum Way {
    /// It takes no bits.
    Nothing,
    /// As a code of a built-in state.
    BuiltIn(Room, Code),
    /// As that of the production at a place, in a state of the book.
    Book {
        /// The place of the grammar.
        grammar: u32,
        /// The place of the state.
        state: u32,
        /// The place of the production.
        place: u32,
    },
}

/// A production, and how its code is written.
#[derive(Clone, Copy)]
pub struct Choice<'a> {
    /// The production.
    pub rule: Rule<'a>,
    /// How its code is written.
    pub way: Way,
}

/// SD of a fragment, whose code takes no bits.
fn start<'a>() -> Choice<'a>
    ensures rule { rule_in result.rule ≡ record { on = start_document; to = 1; inner = None } }
    ensures way { result.way ≡ Way.Nothing }
{
    Choice {
        rule: Rule {
            on: Content::StartDocument,
            to: 1,
            inner: None,
            datatype: None,
        },
        way: Way::Nothing,
    }
}

/// The production of a fragment's start that stands for an event.
pub fn choose_start<'a>(wanted: Content) -> Option<Choice<'a>>
    ensures { (g : Setting) (l : Learning) → Chooses g l wanted fragment_start result }
{
    match wanted {
        Content::StartDocument => Some(start()),
        Content::EndDocument
        | Content::Element(_)
        | Content::Attribute(_, _)
        | Content::Characters
        | Content::EndElement
        | Content::Declaration
        | Content::SelfContained
        | Content::Comment
        | Content::Instruction
        | Content::DocumentType
        | Content::Entity => None,
    }
}

/// The production of a built-in state for the event alone, where it may have one.
#[inline(always)]
fn special(wanted: Content) -> Option<Learnable>
    ensures { result ≡ special wanted }
{
    match wanted {
        Content::Element(Telling::Known(name)) => Some(Learnable::Known(name, false)),
        Content::Attribute(Telling::Known(name), _) => Some(Learnable::Known(name, true)),
        Content::Characters => Some(Learnable::Ch(true)),
        Content::EndElement => Some(Learnable::Ee(true)),
        _ => None,
    }
}

/// The production of a built-in state for all events of the kind.
#[inline(always)]
fn general(wanted: Content) -> Option<Learnable>
    ensures { result ≡ general wanted }
{
    match wanted {
        Content::Element(_) => Some(Learnable::SeAny),
        Content::Attribute(_, _) => Some(Learnable::AtAny),
        Content::Characters => Some(Learnable::Ch(false)),
        Content::EndElement => Some(Learnable::Ee(false)),
        Content::EndDocument => Some(Learnable::Ed),
        Content::Declaration => Some(Learnable::Ns),
        Content::SelfContained => Some(Learnable::Sc),
        Content::Entity => Some(Learnable::Er),
        Content::Comment => Some(Learnable::Cm),
        Content::Instruction => Some(Learnable::Pi),
        Content::StartDocument | Content::DocumentType => None,
    }
}

/// A production of a built-in state, with its code.
#[inline(always)]
fn coded_as<'a>(room: Room, production: Learnable, code: Code) -> Choice<'a>
    ensures rule { rule_in result.rule ≡ record { on = built_in_terminal production; to = state_behind room production; inner = None } }
    ensures way { result.way ≡ Way.BuiltIn room code }
{
    Choice {
        rule: Rule::of_built_in(production, state_behind(room, production)),
        way: Way::BuiltIn(room, code),
    }
}

/// The production of a built-in state for an event alone, where it has one: [`choose_built_in`] then takes it.
#[inline(always)]
pub fn choose_special<'a>(
    book: &'a Book,
    overlay: &Overlay,
    room: Room,
    wanted: Content,
) -> Option<Choice<'a>>
    requires room { IsRoom overlay.now room }
    ensures choice { IfSome result (λ choice. IsChoice book.now overlay.now wanted (built_in book.now overlay.now room) choice) }
    ensures on { IfSome result (λ choice. Some (rule_in choice.rule).on ≡ special_terminal wanted) }
    ensures none { IfNone result (LacksSpecial book.now.options overlay.now room wanted) }
{
    let options = book.options();
    let _ = overlay.learned(room);
    let production = special(wanted)?;
    let code = overlay.code_of(room, production, options)?;
    Some(coded_as(room, production, code))
}

/// The production of a built-in state that stands for an event: the one for it alone before the one for its kind.
#[inline(always)]
pub fn choose_built_in<'a>(
    book: &'a Book,
    overlay: &Overlay,
    room: Room,
    wanted: Content,
) -> Option<Choice<'a>>
    requires room { IsRoom overlay.now room }
    ensures { Chooses book.now overlay.now wanted (built_in book.now overlay.now room) result }
{
    if let Some(choice) = choose_special(book, overlay, room, wanted) {
        return Some(choice);
    }
    let options = book.options();
    let _ = overlay.learned(room);
    let production = general(wanted)?;
    let code = overlay.code_of(room, production, options)?;
    Some(coded_as(room, production, code))
}

/// Whether a name is told so: in bits of its own, by its URI's place, or by its places.
fn is_told(own: Telling, told: Telling) -> bool
    ensures { result ≡ is_told own (telling_of told) }
{
    match (own, told) {
        (_, Telling::Spelled) => true,
        (Telling::Known(own), Telling::Known(told)) => {
            told.uri == own.uri && told.local == own.local
        }
        (Telling::Known(own), Telling::Under(uri)) => own.uri == uri,
        (Telling::Under(own), Telling::Under(uri)) => own == uri,
        (Telling::Spelled | Telling::Under(_), Telling::Known(_))
        | (Telling::Spelled, Telling::Under(_)) => false,
    }
}

/// Whether a production stands for an event.
pub fn is_for(wanted: Content, on: Content) -> bool
    ensures { result ≡ is_of wanted (terminal_in on None) }
{
    match (wanted, on) {
        (Content::Element(own), Content::Element(told))
        | (Content::Attribute(own, _), Content::Attribute(told, _)) => is_told(own, told),
        (Content::StartDocument, Content::StartDocument)
        | (Content::EndDocument, Content::EndDocument)
        | (Content::Characters, Content::Characters)
        | (Content::EndElement, Content::EndElement)
        | (Content::Declaration, Content::Declaration)
        | (Content::SelfContained, Content::SelfContained)
        | (Content::Comment, Content::Comment)
        | (Content::Instruction, Content::Instruction)
        | (Content::DocumentType, Content::DocumentType)
        | (Content::Entity, Content::Entity) => true,
        _ => false,
    }
}
