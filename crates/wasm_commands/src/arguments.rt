// Parses the arguments of a command: options and operands, in any order, as GNU programs do.
ghost use Rattle.std.specs.Prelude.{◌≡◌, ◌∷◌, ◌++◌, [], IfOk, OnOk, map, option_map, string_bytes, true};
ghost use Rattle.wasm_commands.specs.ArgumentLists.{arguments_of, attached_of, has_option, is_joined, is_option as is_dashed, last_value, name_of, operand, operands_in, option, read_one as one_read, read_value, value_in, values_in};
ghost use Rattle.wasm_commands.specs.Options.{takes_of};
ghost use Rattle.wasm_commands.specs.Parsing.{IsSplit, Steps, one_of, parsed_of, read_of, reads_of, text_if_any, texts};

use crate::options::{Flag, Takes, Verb, flag_of};
use std::alloc::{AllocError, Global};

/// A parsed argument.
#[derive(Clone, Copy)]
pub(crate) enum Argument<'a> {
    /// An option, and its value if it has one.
    Option(Flag, Option<&'a str>),
    /// An argument that is not an option, such as a file.
    Operand(&'a str),
}

/// What is wrong with an argument.
#[derive(Clone, Copy)]
pub(crate) enum Refusal<'a> {
    /// The command has no such option.
    UnknownOption(&'a str),
    /// The option needs a value.
    NoValue(&'a str),
    /// The option takes no value.
    UnwantedValue(&'a str),
}

/// The arguments of a command.
#[derive(Drop)]
pub(crate) struct Arguments<'a> {
    parsed: Vec<Argument<'a>>,
}

// An argument, and whether the next one is its value.
#[derive(Clone, Copy)]
struct One<'a> {
    argument: Argument<'a>,
    takes_next: bool,
}

// The name of an option, and the value attached to it.
#[derive(Clone, Copy)]
struct Parts<'a> {
    name: &'a str,
    value: Option<&'a str>,
}

// What is read from the front of the arguments.
#[derive(Clone, Copy)]
enum Step<'a> {
    // An argument, and those after it.
    Argument(Argument<'a>, &'a [String]),
    // These are all operands.
    Operands(&'a [String]),
    // An argument is wrong.
    Refused(Refusal<'a>),
}

// Splits an option at its first `=`.
fn split_at_equals(word: &str) -> Parts<'_>
    ensures { IsSplit result word.now }
{
    match word.split_once('=') {
        Some((name, value)) => Parts {
            name,
            value: Some(value),
        },
        None => Parts {
            name: word,
            value: None,
        },
    }
}

// Splits `-oVALUE` after its letter.
fn split_after_letter(word: &str) -> Parts<'_>
    requires { is_joined word.now ≡ true }
    ensures name { result.name.now ≡ name_of word.now }
    ensures value { text_if_any result.value ≡ attached_of word.now }
{
    match word.split_once('o') {
        Some((_, value)) => Parts {
            name: "-o",
            value: Some(value),
        },
        None => Parts {
            name: word,
            value: None,
        },
    }
}

// Splits an option into its name and its value. Of the short options, only `-o` may have its value attached.
fn split_attached(word: &str) -> Parts<'_>
    ensures name { result.name.now ≡ name_of word.now }
    ensures value { text_if_any result.value ≡ attached_of word.now }
{
    match word.as_bytes() {
        [b'-', b'-', ..] => split_at_equals(word),
        [b'-', b'o', _, ..] => split_after_letter(word),
        _ => Parts {
            name: word,
            value: None,
        },
    }
}

/// Returns whether an argument is an option: a dash, and more.
pub(crate) fn is_option(word: &str) -> bool
    ensures { result ≡ is_dashed word.now }
{
    match word.as_bytes() {
        [b'-', _, ..] => true,
        _ => false,
    }
}

// Returns an option with a value, which may be the next argument.
fn with_value<'a>(flag: Flag, value: Option<&'a str>, takes_next: bool) -> One<'a>
    ensures argument { read_of result.argument ≡ option flag (text_if_any value.entry) }
    ensures next { result.takes_next ≡ takes_next }
{
    One {
        argument: Argument::Option(flag, value),
        takes_next,
    }
}

// Reads an option with its value, which may be the next argument.
fn read_option<'a>(
    flag: Flag,
    parts: Parts<'a>,
    next: Option<&'a str>,
) -> Result<One<'a>, Refusal<'a>>
    ensures { one_of result ≡ read_value (takes_of flag) flag parts.entry.name.now
        (text_if_any parts.entry.value) (text_if_any next.entry) }
{
    let Parts { name, value } = parts;
    match flag.takes() {
        Takes::Attached => Ok(with_value(flag, value, false)),
        Takes::Nothing => match value {
            Some(_) => Err(Refusal::UnwantedValue(name)),
            None => Ok(with_value(flag, None, false)),
        },
        Takes::Value => match value {
            Some(_) => Ok(with_value(flag, value, false)),
            None => match next {
                Some(_) => Ok(with_value(flag, next, true)),
                None => Err(Refusal::NoValue(name)),
            },
        },
    }
}

// Reads an argument that is not `--`.
fn read_one<'a>(verb: Verb, word: &'a str, next: Option<&'a str>) -> Result<One<'a>, Refusal<'a>>
    ensures { one_of result ≡ one_read verb word.now (text_if_any next.entry) }
{
    if !is_option(word) {
        return Ok(One {
            argument: Argument::Operand(word),
            takes_next: false,
        });
    }
    let parts = split_attached(word);
    match flag_of(parts.name) {
        Some(flag) => {
            if flag.is_of(verb) {
                read_option(flag, parts, next)
            } else {
                Err(Refusal::UnknownOption(word))
            }
        }
        None => Err(Refusal::UnknownOption(word)),
    }
}

// Reads the last argument.
fn read_last<'a>(verb: Verb, word: &'a str, none: &'a [String]) -> Step<'a>
    requires { none.now ≡ [] }
    ensures { Steps verb (word.now ∷ []) result }
{
    if word == "--" {
        return Step::Operands(none);
    }
    match read_one(verb, word, None) {
        Ok(one) => Step::Argument(one.argument, none),
        Err(refusal) => Step::Refused(refusal),
    }
}

// Reads an argument before others.
fn read_before<'a>(
    verb: Verb,
    word: &'a str,
    next: &'a str,
    rest: &'a [String],
    later: &'a [String],
) -> Step<'a>
    requires { map string_bytes rest.now ≡ next.now ∷ map string_bytes later.now }
    ensures { Steps verb (word.now ∷ map string_bytes rest.now) result }
{
    if word == "--" {
        return Step::Operands(rest);
    }
    match read_one(verb, word, Some(next)) {
        Ok(one) => Step::Argument(one.argument, if one.takes_next { later } else { rest }),
        Err(refusal) => Step::Refused(refusal),
    }
}

// Reads what is at the front of the arguments, of which there are some.
fn next_step<'a>(verb: Verb, word: &'a str, rest: &'a [String]) -> Step<'a>
    ensures { Steps verb (word.now ∷ map string_bytes rest.now) result }
{
    match rest {
        [] => read_last(verb, word, rest),
        [next, later @ ..] => read_before(verb, word, next.as_str(), rest, later),
    }
}

// Adds arguments that are all operands.
fn push_operands<'a>(words: &'a [String], parsed: &mut Vec<Argument<'a>>) -> Result<(), AllocError>
    ensures { OnOk result (map read_of parsed.new.items
        ≡ map read_of parsed.old.items ++ map operand (map string_bytes words.now)) }
{
    let mut rest = words;
    'words: while let [word, more @ ..] = rest {
        parsed.push(Argument::Operand(word.as_str()))?;
        rest = more;
    }
    Ok(())
}

/// Parses the arguments of a command. `--` ends the options.
///
/// # Errors
///
/// `AllocError` when an allocation fails.
pub(crate) fn parse<'a>(
    alloc: Global,
    verb: Verb,
    words: &'a [String],
) -> Result<Result<Arguments<'a>, Refusal<'a>>, AllocError>
    // Proved: arguments are read as GNU programs read them: options before and after other
    //   arguments, values after `=`, after the letter `-o` or as the next argument, and after `--` no
    //   options; of wrong arguments the first is refused
    ensures { IfOk result (λ parsed. parsed_of parsed ≡ arguments_of verb (map string_bytes words.now)) }
{
    let mut parsed = Vec::new(alloc);
    let mut rest = words;
    'words: while let [word, more @ ..] = rest {
        match next_step(verb, word.as_str(), more) {
            Step::Argument(argument, after) => {
                parsed.push(argument)?;
                rest = after;
            }
            Step::Operands(operands) => {
                push_operands(operands, &mut parsed)?;
                return Ok(Ok(Arguments { parsed }));
            }
            Step::Refused(refusal) => return Ok(Err(refusal)),
        }
    }
    Ok(Ok(Arguments { parsed }))
}

// Returns the value of an option, if this argument is that option.
fn value_of<'a>(argument: &Argument<'a>, flag: Flag) -> Option<Option<&'a str>>
    ensures { option_map text_if_any result ≡ value_in flag (read_of argument.now) }
{
    match argument {
        Argument::Option(one, value) => { if flag.is(*one) { Some(*value) } else { None } }
        Argument::Operand(_) => None,
    }
}

impl<'a> Arguments<'a> {
    /// Returns whether an option is among them.
    pub(crate) fn has(&self, flag: Flag) -> bool
        // Proved: which options, values and other arguments there are [`has`, `last`, `values` and
        //   `operands` of `Arguments`]
        ensures { result ≡ has_option flag (reads_of self.now) }
    {
        let mut rest = self.parsed.as_slice();
        'arguments: while let [argument, more @ ..] = rest {
            if value_of(argument, flag).is_some() {
                return true;
            }
            rest = more;
        }
        false
    }

    /// Returns the value of the last option of this kind: `None` if there is none, and `Some(None)` if it has no value.
    pub(crate) fn last(&self, flag: Flag) -> Option<Option<&'a str>>
        ensures { option_map text_if_any result ≡ last_value flag None (reads_of self.now) }
    {
        let mut last = None;
        let mut rest = self.parsed.as_slice();
        'arguments: while let [argument, more @ ..] = rest {
            if let Some(value) = value_of(argument, flag) {
                last = Some(value);
            }
            rest = more;
        }
        last
    }

    /// Returns the values of all options of this kind, in order.
    pub(crate) fn values(&self, alloc: Global, flag: Flag) -> Result<Vec<&'a str>, AllocError>
        ensures { IfOk result (λ values. texts values.items ≡ values_in flag (reads_of self.now)) }
    {
        let mut values = Vec::new(alloc);
        let mut rest = self.parsed.as_slice();
        'arguments: while let [argument, more @ ..] = rest {
            if let Some(Some(value)) = value_of(argument, flag) {
                values.push(value)?;
            }
            rest = more;
        }
        Ok(values)
    }

    /// Returns the operands, in order.
    pub(crate) fn operands(&self, alloc: Global) -> Result<Vec<&'a str>, AllocError>
        ensures { IfOk result (λ operands. texts operands.items ≡ operands_in (reads_of self.now)) }
    {
        let mut operands = Vec::new(alloc);
        let mut rest = self.parsed.as_slice();
        'arguments: while let [argument, more @ ..] = rest {
            if let Argument::Operand(word) = argument {
                operands.push(*word)?;
            }
            rest = more;
        }
        Ok(operands)
    }
}
