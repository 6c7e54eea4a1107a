// What the program prints of itself: help texts and the version. `tools/generate program` writes the texts.
use crate::options::Verb;

/// What a help text is about.
#[derive(Clone, Copy)]
pub(crate) enum Topic {
    /// The program.
    Program,
    /// A command.
    Command(Verb),
}

// The text of `--help`.
const PROGRAM: &[u8] = b"usage: pulleynavy COMMAND [OPTION]... [FILE]...
       pulleynavy help [COMMAND]
       pulleynavy --version

pulleynavy reads WebAssembly modules, and the headers of components. It does
not validate them, and it does not decode function bodies.

Commands:
  list       list the parts of binaries
  dump       show every item of binaries
  check      find malformed items in binaries
  strip      remove custom sections
  extract    write the data of a custom section
  add        append or replace custom sections
  producers  show or set the tools of a module

Options come before or after files. The value of an option is the next
argument, or follows the '=' of a long option or the letter of a short one, as
in -oOUT. Without a FILE, or with '-', a command reads standard input.
'pulleynavy COMMAND --help' says more.
";

// The text of `list --help`.
const LIST: &[u8] = b"usage: pulleynavy list [--json] [FILE...]

Writes a line for each part of each FILE: the header, each section with its
offsets and its number of items, each function body, and the end. A fault of
the file is the last line, with its offset.

Lines for sections have their names in the standard and their sizes, those for
function bodies their sizes. Those for custom sections end with their own
names, in quotes. With several files, each listing follows the name of its
file.

Options:
  --json         Each line is a JSON object, for programs. Its last member,
                 file, is the name of the file.
  --no-progress  Shows no progress. For files above 64 MiB it is otherwise a
                 line on standard error, if that is a terminal.
  --             Ends the options: all arguments after it are files.
  -h, --help     Prints a summary.
  -V, --version  Prints the version, and that of the wasmparser crate whose
                 names it follows.

Exit status:
  0  All files were read to their ends. Headers, and the order, sizes and
     counts of sections and bodies, are checked. A malformed item does not
     change the status.
  1  A file has a fault at which reading stops.
  2  The arguments are wrong.
  3  A file or device failed, or memory ran out. The reason is printed to
     standard error, unless the output is a pipe that its reader has closed.

With several files the exit status is the greatest of theirs.
";

// The text of `dump --help`.
const DUMP: &[u8] = b"usage: pulleynavy dump [--names] [--bytes] [--hex] [--color[=WHEN]] [--json]
                       [--section ID|NAME]... [FILE...]

Shows what each FILE contains: a line for each section and function body, and
below it a line for each item, which begins with the offset of the item in the
file. With several files, each dump follows the name of its file.

In an object file a relocation ends with the name of its symbol.

A malformed item is a line that begins with fault, and the next section
follows. A fault of the file itself is the last line. Function bodies are
ranges of bytes.

Options:
  --names         Each file is read twice, and items, and what refers to them,
                  are shown with their names from the custom sections called
                  'name', or else from the symbol table of an object file. Only
                  regular files can be read twice: standard input and pipes are
                  refused.
  --bytes         Each line follows the bytes that it was read from, in
                  hexadecimal. In the line itself only the first 16 of raw
                  bytes are shown, and '..' if there are more.
  --hex           Offsets are hexadecimal, as 0x1f. All other numbers stay
                  decimal.
  --color[=WHEN]  The text has colors for a terminal: 'always', which is also
                  meant without WHEN, 'never', or 'auto' if the output is a
                  terminal.
  --json          Each line is a JSON object, for programs. Its last member,
                  file, is the name of the file. Excludes --bytes, --hex and
                  --color.
  --section ID|NAME
                  Only sections with this id, with this name in the standard
                  (custom, type, import, function, table, memory, tag, global,
                  export, start, element, datacount, code, data), or custom
                  sections with this name are shown. The option may be
                  repeated. If a file has none of them, a warning says so.
  --no-progress   Shows no progress. For files above 64 MiB it is otherwise a
                  line on standard error, if that is a terminal.
  --              Ends the options: all arguments after it are files.
  -h, --help      Prints a summary.
  -V, --version   Prints the version, and that of the wasmparser crate whose
                  names it follows.

Exit status:
  0  All files were read to their ends, and each --section chose something of
     each. A malformed item does not change the status.
  1  A file has a fault at which reading stops, or lacks a section that was
     asked for.
  2  The arguments are wrong.
  3  A file or device failed, or memory ran out. The reason is printed to
     standard error, unless the output is a pipe that its reader has closed.

With several files the exit status is the greatest of theirs.
";

// The text of `check --help`.
const CHECK: &[u8] = b"usage: pulleynavy check [--quiet] [FILE...]

Reads the items of every section that it knows, and writes a line for the first
malformed one of each list: the file, the offset, what is wrong, and the
section. It writes nothing of a well-formed file, except a warning for each
section with an unknown id.

It knows the sections of the core standard, and of the custom sections name,
producers, target_features, linking, reloc.*, dylink.0, branch hints and core
dumps. If the data of such a section cannot be read, that is a fault. It does
not look at the instructions of function bodies, and it does not validate.

Options:
  -q, --quiet    Writes nothing. The exit status alone says whether there is a
                 fault.
  --no-progress  Shows no progress. For files above 64 MiB it is otherwise a
                 line on standard error, if that is a terminal.
  --             Ends the options: all arguments after it are files.
  -h, --help     Prints a summary.
  -V, --version  Prints the version, and that of the wasmparser crate whose
                 names it follows.

Exit status:
  0  No file has a fault.
  1  A file has a fault.
  2  The arguments are wrong.
  3  A file or device failed, or memory ran out. The reason is printed to
     standard error, unless the output is a pipe that its reader has closed.

With several files the exit status is the greatest of theirs.
";

// The text of `strip --help`.
const STRIP: &[u8] = b"usage: pulleynavy strip [--keep-names] [--keep NAME]... [--only NAME]...
                        [--debug] [-o OUT] [FILE]

Writes FILE without its custom sections, such as names and debugging
information. All other bytes stay as they are. If FILE is malformed, nothing is
written. Nothing is written to a terminal either: name OUT, or redirect the
output.

A NAME that ends with '*' stands for all names that begin with what is before
the '*'. Elsewhere in a NAME a '*' stands for itself. Quote it, so that the
shell does not replace it.

A regular file is read twice instead of being kept in memory: first to check
it, then to write it. Standard input is read into memory.

Do not use --keep, --only or --debug on object files: their relocations name
sections by number, and removing a section changes the numbers of those after
it. Without these options all relocations are removed.

Options:
  --keep-names   Keeps the custom sections called 'name'.
  --keep NAME    Keeps the custom sections with this name. The option may be
                 repeated.
  --only NAME    Removes only the custom sections with this name, and those
                 that other such options name. A section that another option
                 keeps is not removed.
  --debug        Removes only the debug sections, as --only '.debug_*' does,
                 and those that --only names.
  -o, --output OUT
                 Writes to OUT instead of standard output. OUT is replaced once
                 all of it is written, and may be FILE itself. It keeps its
                 owner and permissions as far as the system allows, but not its
                 set-user-ID and set-group-ID bits. A new file gets the
                 permissions of FILE.
  --no-progress  Shows no progress. For files above 64 MiB it is otherwise a
                 line on standard error, if that is a terminal.
  --             Ends the options: all arguments after it are files.
  -h, --help     Prints a summary.
  -V, --version  Prints the version, and that of the wasmparser crate whose
                 names it follows.

Exit status:
  0  The file was stripped.
  1  The file has a fault, which is printed to standard error.
  2  The arguments are wrong.
  3  A file or device failed, or memory ran out. The reason is printed to
     standard error, unless the output is a pipe that its reader has closed.
";

// The text of `extract --help`.
const EXTRACT: &[u8] = b"usage: pulleynavy extract [--index N] [-o OUT] NAME [FILE]

Writes the data of the custom section called NAME of FILE: the bytes after the
name. Sections after it are not looked at.

FILE is read into memory. Reading it takes up to twice its size.

Options:
  --index N      Writes the N-th section of this name, counted from 1, if there
                 are several.
  -o, --output OUT
                 Writes to OUT instead of standard output. OUT is replaced once
                 all of it is written.
  --no-progress  Shows no progress. For files above 64 MiB it is otherwise a
                 line on standard error, if that is a terminal.
  --             Ends the options: all arguments after it are files.
  -h, --help     Prints a summary.
  -V, --version  Prints the version, and that of the wasmparser crate whose
                 names it follows.

Exit status:
  0  The data was written.
  1  The file has no such section before its first fault, or none at all.
     Nothing is written.
  2  The arguments are wrong.
  3  A file or device failed, or memory ran out. The reason is printed to
     standard error, unless the output is a pipe that its reader has closed.
";

// The text of `add --help`.
const ADD: &[u8] = b"usage: pulleynavy add [--replace] [-o OUT] NAME=DATA... FILE

Writes FILE with a custom section after its other sections for each NAME=DATA:
NAME is its name, and the file DATA, or standard input for '-', has its data.
Only one of the files may be standard input. All other bytes stay as they are.
If FILE is malformed, nothing is written.

A regular FILE is read twice instead of being kept in memory: first to check
it, then to write it. The data is read into memory.

Options:
  --replace      Replaces each custom section of FILE that has one of these
                 names, in its place. A section that FILE does not have is
                 appended.
  -o, --output OUT
                 Writes to OUT instead of standard output. OUT is replaced once
                 all of it is written, and may be FILE itself. It keeps its
                 owner and permissions as far as the system allows, but not its
                 set-user-ID and set-group-ID bits. A new file gets the
                 permissions of FILE.
  --no-progress  Shows no progress. For files above 64 MiB it is otherwise a
                 line on standard error, if that is a terminal.
  --             Ends the options: all arguments after it are files.
  -h, --help     Prints a summary.
  -V, --version  Prints the version, and that of the wasmparser crate whose
                 names it follows.

Exit status:
  0  The sections were added.
  1  The file has a fault, which is printed to standard error.
  2  The arguments are wrong.
  3  A file or device failed, or memory ran out. The reason is printed to
     standard error, unless the output is a pipe that its reader has closed.
";

// The text of `producers --help`.
const PRODUCERS: &[u8] =
    b"usage: pulleynavy producers [--set FIELD=NAME[:VERSION]]... [-o OUT] [FILE]

Shows the custom section called 'producers' of FILE: the languages and tools
that the module was produced with, as 'pulleynavy dump' shows them. With --set
it writes FILE with other ones: in the first such section, or in a new one
after the others. All other bytes stay as they are. If FILE is malformed,
nothing is written.

With --set FILE is read into memory. Reading it takes up to twice its size.

Options:
  --set FIELD=NAME[:VERSION]
                 Sets the version of the language or tool NAME, or adds it.
                 FIELD is 'language', 'processed-by' or 'sdk', NAME is not
                 empty, and VERSION is all after the first colon. The option
                 may be repeated.
  -o, --output OUT
                 With --set, writes to OUT instead of standard output. OUT is
                 replaced once all of it is written, and may be FILE itself. It
                 keeps its owner and permissions as far as the system allows,
                 but not its set-user-ID and set-group-ID bits. A new file gets
                 the permissions of FILE.
  --no-progress  Shows no progress. For files above 64 MiB it is otherwise a
                 line on standard error, if that is a terminal.
  --             Ends the options: all arguments after it are files.
  -h, --help     Prints a summary.
  -V, --version  Prints the version, and that of the wasmparser crate whose
                 names it follows.

Exit status:
  0  The section was shown, or the file was written.
  1  The file has a fault, which is printed to standard error, or no such
     section.
  2  The arguments are wrong.
  3  A file or device failed, or memory ran out. The reason is printed to
     standard error, unless the output is a pipe that its reader has closed.
";

/// The text of `--version`.
const VERSION: &[u8] = b"pulleynavy 0.16.0 (follows wasmparser 0.263.0)\n";

/// Returns a help text.
pub(crate) fn help_of(topic: Topic) -> &'static [u8] {
    match topic {
        Topic::Program => PROGRAM,
        Topic::Command(Verb::List) => LIST,
        Topic::Command(Verb::Dump) => DUMP,
        Topic::Command(Verb::Check) => CHECK,
        Topic::Command(Verb::Strip) => STRIP,
        Topic::Command(Verb::Extract) => EXTRACT,
        Topic::Command(Verb::Add) => ADD,
        Topic::Command(Verb::Producers) => PRODUCERS,
    }
}

/// Returns the text of `--version`.
pub(crate) fn version() -> &'static [u8] {
    VERSION
}
