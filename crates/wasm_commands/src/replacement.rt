// A file that is written beside another one and then takes its place, so that the other one is never half written.
use crate::reasons::Cause;
use std::alloc::Global;
use std::cell::Cell;
use std::fs::{self, File, OpenOptions, Permissions};
use std::io::{self, ErrorKind, Write};
use std::os::unix::fs::{MetadataExt, OpenOptionsExt, PermissionsExt, chown};
use std::path::Path;
use std::process;
use wasm_io::{Failed, Sink};

// How many names are tried for a temporary file.
const ATTEMPTS: u32 = 100;

// The permissions of a file that is written, until it has its own: of the owner alone.
const PRIVATE: u32 = 0o600;

// The bits of a mode that a replaced file keeps. Those by which a program runs as its owner or group are not among them:
// they were granted to other content.
const KEPT: u32 = 0o1777;

// Who may use a file.
#[derive(Clone, Copy)]
struct Access {
    // The owner and the group, if they are not the caller's.
    owner: Option<u32>,
    group: Option<u32>,
    mode: u32,
}

/// A file that is to replace another one.
#[derive(Drop)]
pub struct Replacement<'a> {
    rt: &'a HostRuntime,
    file: File,
    // The name of the file that is written, if it isn't written in place: a device or a pipe is.
    temporary: Option<String>,
    // The file that is replaced.
    target: String,
    // Who may use the file that replaces it; as the system decides, if that is not known.
    access: Option<Access>,
    // Why a write failed, and whether one did.
    failure: &'a Cell<Option<Cause>>,
    has_failed: bool,
}

// Returns the file that a name leads to, through symbolic links, or the name itself if there is none yet.
fn resolved(rt: &HostRuntime, alloc: Global, name: &str) -> io::Result<String> {
    match fs::canonicalize(rt, name) {
        Ok(path) => Ok(path.into_string()),
        Err(error) => {
            if error.kind() == ErrorKind::NotFound {
                Ok(String::from_str(alloc, name)?)
            } else {
                Err(error)
            }
        }
    }
}

// Returns who may use the file that is replaced, or else a new file: whoever may use the input.
fn access_for(rt: &HostRuntime, input: &str, target: &str) -> Option<Access> {
    match fs::metadata(rt, target) {
        Ok(known) => Some(Access {
            owner: Some(known.uid()),
            group: Some(known.gid()),
            mode: known.mode() & KEPT,
        }),
        Err(_) => match fs::metadata(rt, input) {
            Ok(known) if known.is_file() => Some(Access {
                owner: None,
                group: None,
                mode: known.mode() & KEPT,
            }),
            _ => None,
        },
    }
}

// Gives a file its owner, as far as the system allows, and its permissions.
fn grant(rt: &HostRuntime, file: &File, name: &str, access: Access) -> io::Result<()> {
    if chown(rt, name, access.owner, access.group).is_err() {
        let _ = chown(rt, name, None, access.group);
    }
    file.set_permissions(Permissions::from_mode(access.mode))
}

// Has a file that is written take the place of another one.
fn replace(
    rt: &HostRuntime,
    file: &File,
    temporary: &str,
    target: &str,
    access: Option<Access>,
) -> io::Result<()> {
    if let Some(access) = access {
        grant(rt, file, temporary, access)?;
    }
    file.sync_all()?;
    fs::rename(rt, temporary, target)
}

// Returns how a file is created that is written: for its owner alone, if its permissions are known.
fn creating(is_known: bool) -> OpenOptions {
    let mut options = OpenOptions::new();
    options.write(true).create_new(true);
    if is_known {
        options.mode(PRIVATE);
    }
    options
}

// Creates a file beside this one, under a name that no file has, and that says whose it is if it is left behind.
fn create_beside(
    rt: &HostRuntime,
    alloc: Global,
    target: &str,
    options: &OpenOptions,
) -> io::Result<(File, String)> {
    let id = process::id(rt.process());
    for attempt in 0..ATTEMPTS {
        let name = format!(in alloc; "{target}.pulleynavy-{id}-{attempt}.tmp")?;
        match options.open(rt, name.as_str()) {
            Ok(file) => return Ok((file, name)),
            Err(error) => {
                if error.kind() != ErrorKind::AlreadyExists {
                    return Err(error);
                }
            }
        }
    }
    Err(io::Error::from(ErrorKind::AlreadyExists))
}

impl<'a> Replacement<'a> {
    /// Begins a file that is to replace `name`. One that isn't a regular file, such as a pipe, is written in place.
    pub(crate) fn create(
        rt: &'a HostRuntime,
        failure: &'a Cell<Option<Cause>>,
        alloc: Global,
        input: &str,
        name: &str,
    ) -> io::Result<Self> {
        let target = resolved(rt, alloc, name)?;
        let path = Path::new(target.as_str());
        if path.exists(rt) && !path.is_file(rt) {
            let file = OpenOptions::new().write(true).open(rt, target.as_str())?;
            return Ok(Replacement {
                rt,
                file,
                temporary: None,
                target,
                access: None,
                failure,
                has_failed: false,
            });
        }
        let access = access_for(rt, input, target.as_str());
        let (file, temporary) = create_beside(
            rt,
            alloc,
            target.as_str(),
            &creating(access.is_some()),
        )?;
        Ok(Replacement {
            rt,
            file,
            temporary: Some(temporary),
            target,
            access,
            failure,
            has_failed: false,
        })
    }

    /// Ends the file: it takes the place of the other one if it is complete, and is removed otherwise.
    pub(crate) fn end(self, is_complete: bool) -> io::Result<()> {
        let Replacement {
            rt,
            file,
            temporary,
            target,
            access,
            ..
        } = self;
        let Some(temporary) = temporary else {
            return Ok(());
        };
        if !is_complete {
            return fs::remove_file(rt, temporary.as_str());
        }
        let replaced = replace(rt, &file, temporary.as_str(), target.as_str(), access);
        if replaced.is_err() {
            let _ = fs::remove_file(rt, temporary.as_str());
        }
        replaced
    }
}

impl Sink for Replacement<'_> {
    ghost has_failed = { λ replacement. replacement.has_failed };

    fn write(&mut self, buf: &[u8]) -> Result<usize, Failed> {
        match self.file.write(buf) {
            Ok(count) if count > 0 || buf.is_empty() => Ok(count),
            Ok(_) => {
                self.has_failed = true;
                Err(Failed)
            }
            Err(error) => {
                self.failure.set(Some(Cause::of(&error)));
                self.has_failed = true;
                Err(Failed)
            }
        }
    }

    fn failed(&self) -> bool {
        self.has_failed
    }
}
