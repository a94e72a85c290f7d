//! A command, as the words say it.

ghost use Rattle.std.specs.Prelude.{◌≡◌, IfOk, IfSome, map, option_map};
ghost use Rattle.exi_words.specs.Found.{rows_found};
ghost use Rattle.exi_words.specs.Meanings.{IsSound, asked_as, asked_of, lines_of, meant};
ghost use Rattle.exi_words.specs.Meanings.{reading_meant, reading_of};

use crate::table::given_by;
use crate::terms::{Terms, terms_of};
use crate::values::{number_or, number_within, stands, value};
use crate::verb::{Verb, verb_of};
use clap::ArgMatches;
use std::alloc::{AllocError, Global};
use std::convert::AsStr;

/// The most workers beside the reader.
const MOST_WORKERS: u32 = 64;

/// The most pages of the workers' pool.
const MOST_PAGES: u32 = 65_536;

/// The pages of the pool where the words give none.
const USUAL_PAGES: u32 = 1_024;

/// The most lines of an order that is made.
const MOST_LINES: u32 = 65_536;

/// A stream is read.
#[derive(Debug, Drop)]
pub struct Reading<'a> {
    /// What the words say of the stream.
    pub terms: Terms<'a>,
    /// The name of the file with the bytes at which self-contained elements begin, where one is given.
    pub hints: Option<&'a str>,
    /// How many workers read ahead: at most 64, and 0 where the words give none.
    pub workers: u32,
    /// How many pages they share: at most 65,536, and 1,024 where the words give none.
    pub pages: u32,
}

/// A stream is written.
#[derive(Debug, Drop)]
pub struct Writing<'a> {
    /// What the words say of the stream.
    pub terms: Terms<'a>,
    /// Whether its header has the options document.
    pub told: bool,
    /// Whether its header begins with the cookie.
    pub cookie: bool,
}

/// What the words ask for.
#[derive(Debug, Drop)]
pub enum Command<'a> {
    /// A stream is read.
    Read(Reading<'a>),
    /// The bytes at which a stream's self-contained elements begin are listed.
    Index(Terms<'a>),
    /// A stream is written.
    Write(Writing<'a>),
    /// What the schema document in the file of this name declares is counted.
    Schema(&'a str),
    /// An order of so many lines, 1 to 65,536, is made, written and read.
    Gen(u32),
}

/// How a stream is read.
#[tactic(auto, unfolding(crate::specs::Meanings::reading_of))]
fn reading_of<'a>(matches: &ArgMatches<'a>) -> Option<Reading<'a>>
    ensures { option_map reading_meant result ≡ reading_of (rows_found matches.now) }
{
    let terms = terms_of(matches)?;
    let workers = number_or(0, MOST_WORKERS, value(matches, "workers"))?;
    let pages = number_or(USUAL_PAGES, MOST_PAGES, value(matches, "pages"))?;
    Some(Reading {
        terms,
        hints: value(matches, "hints"),
        workers,
        pages,
    })
}

/// How many lines an order has.
fn lines_of(matches: &ArgMatches<'_>) -> Option<u32>
    ensures { result ≡ lines_of (rows_found matches.now) }
{
    number_within(1, MOST_LINES, value(matches, "N")?)
}

/// The command of a verb, where each value is such as its option may have.
#[tactic(auto, unfolding(crate::specs::Meanings::asked_as))]
fn asked_as<'a>(verb: Verb, matches: &ArgMatches<'a>) -> Option<Command<'a>>
    ensures { option_map meant result ≡ asked_as verb (rows_found matches.now) }
{
    match verb {
        Verb::Read => Some(Command::Read(reading_of(matches)?)),
        Verb::Index => Some(Command::Index(terms_of(matches)?)),
        Verb::Write => Some(Command::Write(Writing {
            terms: terms_of(matches)?,
            told: stands(matches, "told"),
            cookie: stands(matches, "cookie"),
        })),
        Verb::Schema => Some(Command::Schema(value(matches, "FILE")?)),
        Verb::Gen => Some(Command::Gen(lines_of(matches)?)),
    }
}

/// The command that the words are, of which the first is its name; `None` where they are no command's.
///
/// # Errors
///
/// `AllocError` where memory is refused.
#[tactic(auto, unfolding(crate::specs::Meanings::asked_of))]
pub fn command_of<'a, S: AsStr>(
    alloc: Global,
    words: &'a [S],
) -> Result<Option<Command<'a>>, AllocError>
    // What the definition makes of the words, whatever they are.
    ensures command { IfOk result (λ c.
        option_map meant c ≡ asked_of (map S.text words.entry.now)) }
    // The numbers of a command are in range, and its options exclude nothing.
    ensures ready { IfOk result (λ c. IfSome c (λ c. IsSound (meant c))) }
    // So it is by the definition alone, where memory is refused too.
    ensures sound { IfSome (asked_of (map S.text words.entry.now)) IsSound }
{
    let Some(name) = words.first() else {
        return Ok(None);
    };
    let Some(verb) = verb_of(name.as_str()) else {
        return Ok(None);
    };
    match given_by(alloc, verb, words)? {
        Some(matches) => Ok(asked_as(verb, &matches)),
        None => Ok(None),
    }
}
