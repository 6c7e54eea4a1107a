// What the program says on standard error.
ghost use Rattle.std.specs.Prelude.{◌≡◌, Some, codes};
ghost use Rattle.wasm_base.specs.FaultAt.{fault_at};
ghost use Rattle.wasm_base.specs.Message.{number_text};
ghost use Rattle.wasm_commands.specs.Messages.{SaysTo, command_text, complaint_text, failure_text, fault_line, fault_text, file_text, missing_text, name_shown, reason_if_any, refusal_text};
ghost use Rattle.wasm_commands.specs.Messages.{about_word, begins_with_digit, hint_for, hint_unless, no_value_text, values_of, wrong_value_text};
ghost use Rattle.wasm_commands.specs.Reasons.{reason_of};

use crate::arguments::Refusal;
use crate::options::Verb;
use crate::reasons::{Cause, words_if_any};
use wasm_base::Error;
use wasm_console::say;
use wasm_grammar::section_named;
use wasm_io::{Base, ListError, Sink, write_number, write_offset, write_word};

/// Why the devices of a run failed, as far as they said so.
#[derive(Clone, Copy)]
pub struct Causes {
    /// Why the input failed.
    pub input: Option<Cause>,
    /// Why the output failed.
    pub output: Option<Cause>,
}

/// Returns the name of an input in messages.
pub(crate) fn shown_name(name: &str) -> &str
    ensures { result.now ≡ name_shown name.now }
{
    match name {
        "-" => "standard input",
        _ => name,
    }
}

// Says why a file or device can't be used.
fn say_why<'a, E: Sink>(name: &'a str, words: &'a [u8], errors: &mut E)
    ensures { SaysTo E.Sink errors.old errors.new (file_text name.now words.now) }
{
    say(
        errors,
        &[
            b"pulleynavy: ".as_slice(),
            name.as_bytes(),
            b": ",
            words,
            b"\n",
        ],
    );
}

// Says why a device failed, if that is known.
fn say_cause<E: Sink>(name: &str, cause: Option<Cause>, errors: &mut E)
    ensures { SaysTo E.Sink errors.old errors.new (file_text name.now (reason_if_any cause)) }
{
    let words = words_if_any(cause);
    say_why(name, words, errors);
}

/// Says why a file can't be opened, read or written. Returns the exit status 3.
pub(crate) fn refuse_file<E: Sink>(name: &str, cause: Cause, errors: &mut E) -> u8
    ensures status { result ≡ 3 }
    ensures says { SaysTo E.Sink errors.old errors.new (file_text name.now (reason_of cause)) }
{
    say_why(name, cause.words(), errors);
    3
}

/// Says why a run over the input with this name failed. Returns the exit status 3.
pub(crate) fn refuse_run<E: Sink>(name: &str, why: ListError, causes: Causes, errors: &mut E) -> u8
    // Proved: the message and the status of a run that failed name the file or device, and the
    //   system's reason [`refuse_run` (`failure_text`), `refuse_file`, `refuse_target`]
    ensures status { result ≡ 3 }
    ensures says { SaysTo E.Sink errors.old errors.new (failure_text name.now why causes) }
{
    match why {
        ListError::Input => say_cause(shown_name(name), causes.input, errors),
        ListError::Output => say_cause("standard output", causes.output, errors),
        ListError::Memory => say(errors, &[b"pulleynavy: out of memory\n".as_slice()]),
    }
    3
}

/// Says that memory ran out. Returns the exit status 3.
pub(crate) fn stop_for_memory<E: Sink>(errors: &mut E) -> u8
    ensures status { result ≡ 3 }
    ensures says { SaysTo E.Sink errors.old errors.new (codes "pulleynavy: out of memory\n") }
{
    say(errors, &[b"pulleynavy: out of memory\n".as_slice()]);
    3
}

/// Says why a file could not be written. Returns the exit status 3.
pub(crate) fn refuse_target<E: Sink>(name: &str, causes: Causes, errors: &mut E) -> u8
    ensures status { result ≡ 3 }
    ensures says { SaysTo E.Sink errors.old errors.new
        (file_text name.now (reason_if_any causes.output)) }
{
    say_cause(name, causes.output, errors);
    3
}

/// Says at which fault a file stops, as `check` says it. Returns the exit status 1.
pub(crate) fn report_fault<E: Sink>(name: &str, error: &Error, errors: &mut E) -> u8
    // Proved: a fault is reported with the program, the file, the offset, the message and the number
    //   [`report_fault` (`fault_text`)]
    ensures status { result ≡ 1 }
    ensures says { SaysTo E.Sink errors.old errors.new (fault_text name.now (fault_at error.now)) }
{
    let mut bytes = [0u8; 20];
    let end = write_offset(&mut bytes, 0, Base::Hexadecimal, error.offset());
    let message = error.message().as_bytes();
    match error.number() {
        Some(number) => say_number(shown_name(name), &bytes[..end], message, number, errors),
        None => say_fault(shown_name(name), &bytes[..end], message, b"", errors),
    }
    1
}

// Says a fault with what comes after its message.
fn say_fault<'a, E: Sink>(
    name: &'a str,
    offset: &'a [u8],
    message: &'a [u8],
    after: &'a [u8],
    errors: &mut E,
)
    ensures { SaysTo E.Sink errors.old errors.new
        (fault_line name.now offset.now message.now after.now) }
{
    say(
        errors,
        &[
            b"pulleynavy: ".as_slice(),
            name.as_bytes(),
            b": ",
            offset,
            b": ",
            message,
            after,
            b"\n",
        ],
    );
}

// Says a fault with its number.
fn say_number<E: Sink>(name: &str, offset: &[u8], message: &[u8], number: u64, errors: &mut E)
    ensures { SaysTo E.Sink errors.old errors.new
        (fault_line name.now offset.now message.now (number_text (Some number))) }
{
    let mut bytes = [0u8; 22];
    let start = write_word(&mut bytes, 0, ": ");
    let end = write_number(&mut bytes, start, number);
    say_fault(name, offset, message, &bytes[..end], errors);
}

// Returns whether a word begins as an id does.
fn begins_with_digit(word: &str) -> bool
    ensures { result ≡ begins_with_digit word.now }
{
    matches!(word.as_bytes(), [b'0'..=b'9', ..])
}

// Returns the names of sections in the standard, with words before them, for words that are none.
fn hint_unless<'a>(is_known: bool) -> &'a [u8]
    ensures { result.now ≡ hint_unless is_known }
{
    if is_known {
        b""
    } else {
        b"; the standard's are custom, type, import, function, table, memory, tag, global, export, start, element, datacount, code and data"
    }
}

// Returns what follows a word that chose no section.
fn hint_for<'a>(verb: Verb, word: &str) -> &'a [u8]
    ensures { result.now ≡ hint_for verb word.now }
{
    match verb {
        Verb::Dump => hint_unless(section_named(word).is_some() || begins_with_digit(word)),
        _ => b"",
    }
}

/// Says that a section was not found in a file.
pub(crate) fn warn_of_missing<E: Sink>(verb: Verb, name: &str, word: &str, errors: &mut E)
    ensures says { SaysTo E.Sink errors.old errors.new (missing_text verb name.now word.now) }
{
    say(
        errors,
        &[
            command_words(verb),
            b": ".as_slice(),
            shown_name(name).as_bytes(),
            b": no section '",
            word.as_bytes(),
            b"'",
            hint_for(verb, word),
            b"\n",
        ],
    );
}

// The words before a message about the arguments of a command.
fn command_words<'a>(verb: Verb) -> &'a [u8]
    ensures { result.now ≡ command_text verb }
{
    match verb {
        Verb::List => b"pulleynavy list",
        Verb::Dump => b"pulleynavy dump",
        Verb::Check => b"pulleynavy check",
        Verb::Strip => b"pulleynavy strip",
        Verb::Extract => b"pulleynavy extract",
        Verb::Add => b"pulleynavy add",
        Verb::Producers => b"pulleynavy producers",
    }
}

/// What is wrong with the arguments.
#[derive(Clone, Copy)]
pub(crate) enum Complaint<'a> {
    /// An argument of a command is wrong.
    Argument(Verb, Refusal<'a>),
    /// Two options of a command exclude each other.
    Excluded(Verb, &'a str, &'a str),
    /// A value is none of those that an option takes.
    WrongValue(Verb, &'a str, &'a str),
    /// A command has more operands than it takes: the first one of these.
    Extra(Verb, &'a str),
    /// A command needs more operands: these.
    Few(Verb, &'a str),
    /// An operand of `add` has no `=`.
    NoData(&'a str),
    /// A section with this name is too large to be written.
    TooLarge(Verb, &'a str),
    /// There is no such command.
    UnknownCommand(&'a str),
    /// There is no such option before a command.
    UnknownOption(&'a str),
    /// There is no command.
    NoCommand,
    /// The names of a file that can be read only once can't be shown.
    NamesOf(&'a str),
    /// Several operands of `add` are standard input.
    InputTwice,
    /// The output, to which `strip` is to write a module, is a terminal.
    Terminal,
    /// An argument is not valid UTF-8.
    NotUtf8,
}

// Says what is wrong with an argument, and where to look.
fn complain_of<'a, E: Sink>(
    verb: Verb,
    before: &'a [u8],
    word: &'a str,
    after: &'a [u8],
    errors: &mut E,
)
    ensures says { SaysTo E.Sink errors.old errors.new
        (about_word verb before.now word.now after.now) }
{
    let words = command_words(verb);
    say(
        errors,
        &[
            words,
            b": ".as_slice(),
            before,
            word.as_bytes(),
            after,
            b"\nTry '",
            words,
            b" --help'.\n",
        ],
    );
}

// Returns the values that an option takes.
fn values_of<'a>(option: &str) -> &'a [u8]
    ensures { result.now ≡ values_of option.now }
{
    match option {
        "--color" => b"always, never or auto",
        "--section" => b"an id, a name of the standard, as import, or the name of a custom section",
        "--keep" | "--only" => b"the name of a custom section",
        "--index" => b"a number from 1 on",
        "--set" => b"FIELD=NAME[:VERSION], and FIELD is language, processed-by or sdk",
        _ => b"the name of a file",
    }
}

// Says that an option needs a value, and which ones it takes.
fn complain_of_no_value<E: Sink>(verb: Verb, option: &str, errors: &mut E)
    ensures says { SaysTo E.Sink errors.old errors.new (no_value_text verb option.now) }
{
    let words = command_words(verb);
    say(
        errors,
        &[
            words,
            b": option '".as_slice(),
            option.as_bytes(),
            b"' needs a value: ",
            values_of(option),
            b"\nTry '",
            words,
            b" --help'.\n",
        ],
    );
}

// Says that an option does not take a value, and which ones it takes.
fn complain_of_value<E: Sink>(verb: Verb, option: &str, value: &str, errors: &mut E)
    ensures says { SaysTo E.Sink errors.old errors.new
        (wrong_value_text verb option.now value.now) }
{
    say(
        errors,
        &[
            command_words(verb),
            b": wrong value '".as_slice(),
            value.as_bytes(),
            b"' of option '",
            option.as_bytes(),
            b"': it takes ",
            values_of(option),
            b"\n",
        ],
    );
}

// Says what is wrong with an option.
fn complain_of_option<E: Sink>(verb: Verb, refusal: Refusal<'_>, errors: &mut E)
    ensures says { SaysTo E.Sink errors.old errors.new (refusal_text verb refusal.entry) }
{
    match refusal {
        Refusal::UnknownOption(word) => complain_of(verb, b"unknown option '", word, b"'", errors),
        Refusal::NoValue(word) => complain_of_no_value(verb, word, errors),
        Refusal::UnwantedValue(word) => {
            complain_of(verb, b"option '", word, b"' takes no value", errors);
        }
    }
}

/// Says what is wrong with the arguments. Returns the exit status 2.
pub(crate) fn complain<E: Sink>(complaint: Complaint<'_>, errors: &mut E) -> u8
    // Proved: wrong arguments give the status 2, and the message names the one that is wrong
    //   [`complain` (`complaint_text`)]
    ensures status { result ≡ 2 }
    ensures says { SaysTo E.Sink errors.old errors.new (complaint_text complaint.entry) }
{
    match complaint {
        Complaint::Argument(verb, refusal) => complain_of_option(verb, refusal, errors),
        Complaint::Excluded(verb, first, second) => say(
            errors,
            &[
                command_words(verb),
                b": options '".as_slice(),
                first.as_bytes(),
                b"' and '",
                second.as_bytes(),
                b"' exclude each other\n",
            ],
        ),
        Complaint::WrongValue(verb, option, value) => {
            complain_of_value(verb, option, value, errors);
        }
        Complaint::Extra(verb, word) => {
            complain_of(verb, b"unexpected argument '", word, b"'", errors);
        }
        Complaint::Few(verb, words) => complain_of(verb, b"needs ", words, b"", errors),
        Complaint::NoData(word) => {
            complain_of(Verb::Add, b"'", word, b"' is not NAME=DATA", errors);
        }
        Complaint::TooLarge(verb, word) => say(
            errors,
            &[
                command_words(verb),
                b": section '".as_slice(),
                word.as_bytes(),
                b"' is too large\n",
            ],
        ),
        Complaint::UnknownCommand(word) => say(
            errors,
            &[
                b"pulleynavy: unknown command '".as_slice(),
                word.as_bytes(),
                b"'\nTry 'pulleynavy --help'.\n",
            ],
        ),
        Complaint::UnknownOption(word) => say(
            errors,
            &[
                b"pulleynavy: unknown option '".as_slice(),
                word.as_bytes(),
                b"'\nTry 'pulleynavy --help'.\n",
            ],
        ),
        Complaint::NoCommand => say(
            errors,
            &[
                b"usage: pulleynavy COMMAND [OPTION]... [FILE]...\nTry 'pulleynavy --help'.\n".as_slice(),
            ],
        ),
        Complaint::NamesOf(name) => say(
            errors,
            &[
                b"pulleynavy dump: --names reads each file twice, and ".as_slice(),
                shown_name(name).as_bytes(),
                b" can't be: name regular files\n",
            ],
        ),
        Complaint::InputTwice => {
            complain_of(Verb::Add, b"'", "-", b"' can be read only once", errors);
        }
        Complaint::Terminal => say(
            errors,
            &[
                b"pulleynavy strip: the output is a terminal: name a file with -o OUT, or redirect the output\n".as_slice(),
            ],
        ),
        Complaint::NotUtf8 => say(
            errors,
            &[b"pulleynavy: an argument is not valid UTF-8\n".as_slice()],
        ),
    }
    2
}
