// Why a file can't be opened, or a device failed.
ghost use Rattle.std.specs.Prelude.{◌≡◌};
ghost use Rattle.std.specs.IoError.{error_kind};
ghost use Rattle.wasm_commands.specs.Messages.{reason_if_any};
ghost use Rattle.wasm_commands.specs.Reasons.{reason_of, reason_of_kind};

use std::io::{Error, ErrorKind};

/// Why a file can't be opened, or a device failed.
#[derive(Clone, Copy)]
pub struct Cause {
    kind: ErrorKind,
    // Whether a standard stream is closed.
    is_closed: bool,
}

// The number of "Bad file descriptor", which a closed standard stream gives, and for which `std` has no kind.
const BAD_FILE_DESCRIPTOR: i32 = 9;

impl Cause {
    /// Returns the cause of an error.
    pub fn of(error: &Error) -> Cause
        ensures { result.kind ≡ error_kind error.now }
    {
        Cause {
            kind: error.kind(),
            is_closed: matches!(error.raw_os_error(), Some(BAD_FILE_DESCRIPTOR)),
        }
    }

    /// Returns whether the reader of a pipe has closed it.
    pub(crate) fn is_closed_pipe(self) -> bool {
        matches!(self.kind, ErrorKind::BrokenPipe)
    }

    /// Returns the words of the system for the cause.
    ///
    /// The texts of `Error` itself would be a twentieth of the program.
    pub(crate) fn words<'a>(self) -> &'a [u8]
        ensures { result.now ≡ reason_of self }
    {
        if self.is_closed {
            b"Bad file descriptor"
        } else {
            words_of(self.kind)
        }
    }
}

/// Returns the words for a device that did not say why it failed.
pub(crate) fn words_if_any<'a>(cause: Option<Cause>) -> &'a [u8]
    ensures { result.now ≡ reason_if_any cause }
{
    match cause {
        Some(cause) => cause.words(),
        None => words_of(ErrorKind::Other),
    }
}

// Returns the words of the system for an error of this kind.
fn words_of<'a>(kind: ErrorKind) -> &'a [u8]
    ensures { result.now ≡ reason_of_kind kind }
{
    match kind {
        ErrorKind::NotFound => b"No such file or directory",
        ErrorKind::PermissionDenied => b"Permission denied",
        ErrorKind::IsADirectory => b"Is a directory",
        ErrorKind::NotADirectory => b"Not a directory",
        ErrorKind::AlreadyExists => b"File exists",
        ErrorKind::StorageFull => b"No space left on device",
        ErrorKind::QuotaExceeded => b"Disk quota exceeded",
        ErrorKind::FileTooLarge => b"File too large",
        ErrorKind::ReadOnlyFilesystem => b"Read-only file system",
        ErrorKind::FilesystemLoop => b"Too many levels of symbolic links",
        ErrorKind::InvalidFilename => b"File name too long",
        ErrorKind::InvalidInput => b"Invalid argument",
        ErrorKind::ResourceBusy => b"Device or resource busy",
        ErrorKind::ExecutableFileBusy => b"Text file busy",
        ErrorKind::BrokenPipe => b"Broken pipe",
        ErrorKind::OutOfMemory => b"Cannot allocate memory",
        _ => b"Input/output error",
    }
}
