//! A command, as the words say it.

ghost use Rattle.std.specs.Prelude.{◌≡◌, IfSome, false};
ghost use Rattle.exi_gram.specs.Switches.{conflicts};
ghost use Rattle.exi_run.specs.Tasks.{IsReady, IsReadyIf, gathered, task, task_as, task_of, tasked, verb_of};
ghost use Rattle.exi_run.specs.Wishes.{options_of};
ghost use Rattle.exi_run.specs.Words.{IsFit};

use crate::form::Form;
use crate::given::Given;
use crate::words::gather;
use exi_gram::Options;
use exi_names::Txt;

/// What a command does.
#[derive(Clone, Copy, Debug, PartialEq, Eq)]
pub(crate) enum Verb {
    /// It tells a stream, in this form.
    Tell(Form),
    /// It writes a stream.
    Write,
    /// It counts what a schema document declares.
    Count,
}

/// A stream is told.
#[derive(Debug, Drop)]
pub(crate) struct Telling<'a> {
    /// In which form.
    pub form: Form,
    /// The name of its file.
    pub file: &'a Txt,
    /// The options that its header may leave to the words.
    pub options: Options,
    /// The name of the file with a schema's document, where one is given.
    pub document: Option<&'a str>,
    /// The schema's name, where one is given.
    pub name: Option<&'a str>,
}

/// A stream is written.
#[derive(Clone, Copy, Debug)]
pub(crate) struct Writing<'a> {
    /// The name of the file with its event text.
    pub file: &'a Txt,
    /// What the words say of it.
    pub given: Given<'a>,
}

/// What the words ask for.
#[derive(Debug, Drop)]
pub(crate) enum Command<'a> {
    /// A stream is told.
    Tell(Telling<'a>),
    /// A stream is written.
    Write(Writing<'a>),
    /// What the schema document in the file of this name declares is counted.
    Count(&'a Txt),
}

/// What the command of this name does.
fn verb_of(name: &str) -> Option<Verb>
    ensures { result ≡ verb_of name.now }
{
    if name == "read" {
        Some(Verb::Tell(Form::Text))
    } else if name == "index" {
        Some(Verb::Tell(Form::Starts))
    } else if name == "write" {
        Some(Verb::Write)
    } else if name == "schema" {
        Some(Verb::Count)
    } else {
        None
    }
}

/// The command of a verb, where the words give nothing that it does not take.
fn command_of<'a>(verb: Verb, file: &'a Txt, given: Given<'a>) -> Option<Command<'a>>
    requires free { conflicts (options_of (gathered given)) ≡ false }
    requires fit { IsFit (gathered given) }
    ensures task { tasked result ≡ task_as verb file.now (gathered given.entry) }
    ensures ready { IfSome result (λ c. IsReady (task c)) }
{
    match verb {
        Verb::Tell(_) if given.told || given.cookie => None,
        Verb::Tell(form) => Some(Command::Tell(Telling {
            form,
            file,
            options: given.options(),
            document: given.document,
            name: given.schema,
        })),
        Verb::Write => Some(Command::Write(Writing { file, given })),
        Verb::Count if given.is_bare() => Some(Command::Count(file)),
        Verb::Count => None,
    }
}

impl<'a> Command<'a> {
    /// The command that the words are, where they are of a command's form.
    pub(crate) fn of(words: &'a [Txt]) -> Option<Command<'a>>
        ensures task { tasked result ≡ task_of words.now }
        ensures ready { IfSome result (λ c. IsReady (task c)) }
    {
        let [name, others @ ..] = words else {
            return None;
        };
        let verb = verb_of(name.as_str())?;
        let given = gather(others)?;
        let file = given.file?;
        if given.options().conflicts() {
            return None;
        }
        command_of(verb, file, given)
    }
}

/// The command that the words are, where they are of a command's form.
pub(crate) fn command_in(words: &[Txt]) -> Option<Command<'_>>
    ensures task { tasked result ≡ task_of words.now }
    ensures ready { IfSome result (λ c. IsReady (task c)) }
    ensures words { IsReadyIf (task_of words.now) }
{
    Command::of(words)
}
