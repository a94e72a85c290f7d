//! Escapes (XML Schema 1.0 Part 2, appendix F.1.1).

ghost use Rattle.std.specs.Prelude.{◌≡◌, option_map};
ghost use Rattle.exi_pattern.specs.Escapes.{is_category, are_block_chars, is_block, kinds_of, escaped, property, escape};

use crate::member::Member;
use crate::splits::split_at_mark;

/// The second letters of a general category.
fn kinds_of(class: char) -> &'static [char]
    ensures { result.now ≡ kinds_of class }
{
    match class {
        'L' => &['u', 'l', 't', 'm', 'o'],
        'M' => &['n', 'c', 'e'],
        'N' => &['d', 'l', 'o'],
        'P' => &['c', 'd', 's', 'e', 'i', 'f', 'o'],
        'Z' => &['s', 'l', 'p'],
        'S' => &['m', 'c', 'k', 'o'],
        'C' => &['c', 'f', 'o', 'n'],
        _ => &[],
    }
}

/// Whether this names a general category, as `L` or `Lu`.
fn is_category(name: &[char]) -> bool
    ensures { result ≡ is_category name.now }
{
    match name {
        [class] => matches!(class, 'L' | 'M' | 'N' | 'P' | 'Z' | 'S' | 'C'),
        [class, kind] => kinds_of(*class).contains(kind),
        _ => false,
    }
}

/// Whether each is a letter, a digit or `-`.
fn are_block_chars(name: &[char]) -> bool
    ensures { result ≡ are_block_chars name.now }
{
    for c in name {
        if !matches!(*c, 'a'..='z' | 'A'..='Z' | '0'..='9' | '-') {
            return false;
        }
    }
    true
}

/// Whether this is `Is` and the name of a block; which blocks there are is not asked.
fn is_block(name: &[char]) -> bool
    ensures { result ≡ is_block name.now }
{
    match name {
        ['I', 's', block @ ..] => !block.is_empty() && are_block_chars(block),
        _ => false,
    }
}

/// What is left behind a category or a block in braces.
fn property(rest: &[char]) -> Option<&[char]>
    ensures { option_map (λ r. r.now) result ≡ property rest.now }
{
    let ['{', rest @ ..] = rest else {
        return None;
    };
    match split_at_mark(rest, '}') {
        (name, Some(rest)) if is_category(name) || is_block(name) => Some(rest),
        _ => None,
    }
}

/// What an escape of one character stands for, if it is one.
fn escaped(c: char) -> Option<Member>
    ensures { result ≡ escaped c }
{
    match c {
        'n' => Some(Member::Span('\n', '\n')),
        'r' => Some(Member::Span('\r', '\r')),
        't' => Some(Member::Span('\t', '\t')),
        '\\' | '|' | '.' | '?' | '*' | '+' | '(' | ')' | '{' | '}' | '-' | '[' | ']' | '^' => {
            Some(Member::Span(c, c))
        }
        's' => Some(Member::Spaces),
        'S' | 'i' | 'I' | 'c' | 'C' | 'd' | 'D' | 'w' | 'W' => Some(Member::Others),
        _ => None,
    }
}

/// What stands behind a `\`, and what is left, if it is an escape.
#[tactic(auto, unfolding(crate::specs::Escapes::escape))]
pub(crate) fn escape(rest: &[char]) -> Option<(Member, &[char])>
    ensures { option_map (λ x. (x.0, x.1.now)) result ≡ escape rest.now }
{
    match rest {
        [] => None,
        ['p' | 'P', rest @ ..] => Some((Member::Others, property(rest)?)),
        [c, rest @ ..] => Some((escaped(*c)?, rest)),
    }
}
