// The commands and their options.
ghost use Rattle.std.specs.Prelude.{◌≡◌};
ghost use Rattle.wasm_commands.specs.Options.{accepts_option, is_same, option_named, place_of, takes_of, verb_named};

/// A command that works on files.
#[derive(Clone, Copy)]
pub(crate) enum Verb {
    /// `list`
    List,
    /// `dump`
    Dump,
    /// `check`
    Check,
    /// `strip`
    Strip,
    /// `extract`
    Extract,
    /// `add`
    Add,
    /// `producers`
    Producers,
}

/// An option of a command.
#[derive(Clone, Copy)]
pub(crate) enum Flag {
    /// `--help`, `-h`
    Help,
    /// `--version`, `-V`
    Version,
    /// `--json`
    Json,
    /// `--names`
    Names,
    /// `--bytes`
    Bytes,
    /// `--hex`
    Hex,
    /// `--color`
    Color,
    /// `--section`
    Section,
    /// `--quiet`, `-q`
    Quiet,
    /// `--keep-names`
    KeepNames,
    /// `--keep`
    Keep,
    /// `--only`
    Only,
    /// `--debug`
    Debug,
    /// `--output`, `-o`
    Output,
    /// `--no-progress`
    NoProgress,
    /// `--index`
    Index,
    /// `--replace`
    Replace,
    /// `--set`
    Set,
}

/// Whether an option takes a value.
#[derive(Clone, Copy)]
pub(crate) enum Takes {
    /// It takes none.
    Nothing,
    /// It takes one: after `=`, or the next argument.
    Value,
    /// It may take one, after `=`.
    Attached,
}

/// Returns the command with this name.
pub(crate) fn verb_of(word: &str) -> Option<Verb>
    // Proved: the commands, their options, and whether each takes a value [`verb_of`, `flag_of`,
    //   `is_of`, `takes`]
    ensures { result ≡ verb_named word.now }
{
    match word {
        "list" => Some(Verb::List),
        "dump" => Some(Verb::Dump),
        "check" => Some(Verb::Check),
        "strip" => Some(Verb::Strip),
        "extract" => Some(Verb::Extract),
        "add" => Some(Verb::Add),
        "producers" => Some(Verb::Producers),
        _ => None,
    }
}

/// Returns the option with this name, whatever the command.
pub(crate) fn flag_of(word: &str) -> Option<Flag>
    ensures { result ≡ option_named word.now }
{
    match word {
        "--help" | "-h" => Some(Flag::Help),
        "--version" | "-V" => Some(Flag::Version),
        "--json" => Some(Flag::Json),
        "--names" => Some(Flag::Names),
        "--bytes" => Some(Flag::Bytes),
        "--hex" => Some(Flag::Hex),
        "--color" => Some(Flag::Color),
        "--section" => Some(Flag::Section),
        "--quiet" | "-q" => Some(Flag::Quiet),
        "--keep-names" => Some(Flag::KeepNames),
        "--keep" => Some(Flag::Keep),
        "--only" => Some(Flag::Only),
        "--debug" => Some(Flag::Debug),
        "--output" | "-o" => Some(Flag::Output),
        "--no-progress" => Some(Flag::NoProgress),
        "--index" => Some(Flag::Index),
        "--replace" => Some(Flag::Replace),
        "--set" => Some(Flag::Set),
        _ => None,
    }
}

impl Flag {
    /// Returns whether a command has this option.
    pub(crate) fn is_of(self, verb: Verb) -> bool
        ensures { result ≡ accepts_option verb self }
    {
        match self {
            Flag::Help | Flag::Version | Flag::NoProgress => true,
            Flag::Json => matches!(verb, Verb::List | Verb::Dump),
            Flag::Names | Flag::Bytes | Flag::Hex | Flag::Color | Flag::Section => {
                matches!(verb, Verb::Dump)
            }
            Flag::Quiet => matches!(verb, Verb::Check),
            Flag::KeepNames | Flag::Keep | Flag::Only | Flag::Debug => matches!(verb, Verb::Strip),
            Flag::Output => {
                matches!(
                    verb,
                    Verb::Strip | Verb::Extract | Verb::Add | Verb::Producers
                )
            }
            Flag::Index => matches!(verb, Verb::Extract),
            Flag::Replace => matches!(verb, Verb::Add),
            Flag::Set => matches!(verb, Verb::Producers),
        }
    }

    /// Returns whether this is that option.
    pub(crate) fn is(self, other: Flag) -> bool
        ensures { result ≡ is_same self other }
    {
        self.place() == other.place()
    }

    // Returns the place of the option in the list of options.
    fn place(self) -> u8
        ensures { result ≡ place_of self }
    {
        self as u8
    }

    /// Returns whether the option takes a value.
    pub(crate) fn takes(self) -> Takes
        ensures { result ≡ takes_of self }
    {
        match self {
            Flag::Section | Flag::Keep | Flag::Only | Flag::Output | Flag::Index | Flag::Set => {
                Takes::Value
            }
            Flag::Color => Takes::Attached,
            _ => Takes::Nothing,
        }
    }
}
