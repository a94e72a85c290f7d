//! The words behind a command.

ghost use Rattle.std.specs.Prelude.{◌≡◌, IfSome, Some, option_copied, option_map};
ghost use Rattle.exi_run.specs.Tasks.{gathered, walked};
ghost use Rattle.exi_run.specs.Words.{IsFit, ended, given_by, with_option, word_taken, words_taken};

use crate::given::Given;
use crate::names::{Named, Valued, is_hyphened, split_at_equals};
use exi_names::Txt;

/// What the next word is.
#[derive(Clone, Copy, Debug, PartialEq, Eq)]
pub(crate) enum Next {
    /// An option, or the file.
    Any,
    /// The value of this option.
    Value(Valued),
    /// The file: the word `--` stood before.
    File,
}

/// With an option, whose value may stand in the same word.
fn take_option<'a>(
    given: Given<'a>,
    named: Option<Named>,
    value: Option<&'a str>,
) -> Option<(Given<'a>, Next)>
    ensures { option_map walked result ≡ with_option named (option_copied value.entry) (gathered given.entry) }
{
    match (named?, value) {
        (Named::Switch(flag), None) => Some((given.with_switch(flag)?, Next::Any)),
        (Named::Mark(mark), None) => Some((given.with_mark(mark)?, Next::Any)),
        (Named::Switch(_) | Named::Mark(_), Some(_)) => None,
        (Named::Value(option), None) => Some((given, Next::Value(option))),
        (Named::Value(option), Some(text)) => Some((given.with_value(option, text)?, Next::Any)),
    }
}

/// With an option or the file.
#[tactic(auto, unfolding(crate::specs::Words::word_taken))]
fn take_any<'a>(given: Given<'a>, word: &'a Txt) -> Option<(Given<'a>, Next)>
    ensures { option_map walked result ≡ word_taken (gathered given.entry) Next.Any word.now }
{
    let text = word.as_str();
    if text == "--" {
        return Some((given, Next::File));
    }
    if is_hyphened(text) {
        let (name, value) = split_at_equals(text);
        return take_option(given, Named::of(name), value);
    }
    Some((given.with_file(word)?, Next::Any))
}

/// With the value of an option.
#[tactic(auto, unfolding(crate::specs::Words::word_taken))]
fn take_value<'a>(given: Given<'a>, option: Valued, word: &'a Txt) -> Option<(Given<'a>, Next)>
    ensures { option_map walked result ≡ word_taken (gathered given.entry) (Next.Value option) word.now }
{
    let text = word.as_str();
    if is_hyphened(text) {
        return None;
    }
    Some((given.with_value(option, text)?, Next::Any))
}

/// With one word more.
#[tactic(auto, unfolding(crate::specs::Words::word_taken))]
fn take_word<'a>(given: Given<'a>, next: Next, word: &'a Txt) -> Option<(Given<'a>, Next)>
    ensures { option_map walked result ≡ word_taken (gathered given.entry) next word.now }
{
    match next {
        Next::Any => take_any(given, word),
        Next::Value(option) => take_value(given, option, word),
        Next::File => Some((given.with_file(word)?, Next::File)),
    }
}

/// What is given where there are no more words.
fn finish(given: Given<'_>, next: Next) -> Option<Given<'_>>
    ensures { option_map gathered result ≡ ended (Some (gathered given.entry, next)) }
{
    match next {
        Next::Any | Next::File => Some(given),
        Next::Value(_) => None,
    }
}

/// With all the words. Each gives something that none before has given, or names an option, so no more than some twenty
/// are taken, and the calls lie no deeper.
fn take_words<'a>(given: Given<'a>, next: Next, words: &'a [Txt]) -> Option<Given<'a>>
    ensures { option_map gathered result ≡ ended (words_taken (Some (gathered given.entry, next)) words.now) }
{
    let [word, others @ ..] = words else {
        return finish(given, next);
    };
    let (given, next) = take_word(given, next, word)?;
    take_words(given, next, others)
}

/// What the words behind a command give, where they have its form.
pub(crate) fn gather<'a>(words: &'a [Txt]) -> Option<Given<'a>>
    ensures given { option_map gathered result ≡ given_by words.now }
    ensures fit { IfSome result (λ g. IsFit (gathered g)) }
{
    take_words(Given::nothing(), Next::Any, words)
}
