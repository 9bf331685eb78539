//! How a file of the system is opened, and what stands beside it.
use crate::change::Sight;
use crate::kind::{OtherKind, other_kind};
use crate::open_fault::OpenFault;
use std::fs::{File, Metadata, OpenOptions};
use std::io::ErrorKind;
use std::os::unix::fs::MetadataExt;
use std::{fs, io};

/// Opens a file for reading and for appending.
fn opened(rt: &HostRuntime, path: &str, create: bool) -> io::Result<File> {
    OpenOptions::new()
        .read(true)
        .append(true)
        .create(create)
        .open(rt, path)
}

/// Refuses what is no regular file: a device may have no end, and a pipe gives nothing back.
fn require_regular(known: &Metadata) -> Result<(), OtherKind> {
    match other_kind(known.mode()) {
        None => Ok(()),
        Some(kind) => Err(kind),
    }
}

/// Has a regular file at a path, an empty one where there was none. It answers whether it was made.
pub(crate) fn make_sure(rt: &HostRuntime, path: &str) -> Result<bool, OpenFault> {
    match fs::metadata(rt, path) {
        Ok(known) => {
            require_regular(&known)?;
            let _there = opened(rt, path, false)?;
            Ok(false)
        }
        Err(error) => {
            if error.kind() != ErrorKind::NotFound {
                return Err(OpenFault::System(error));
            }
            let _made = opened(rt, path, true)?;
            Ok(true)
        }
    }
}

/// Opens the regular file at a path, or makes an empty one.
pub(crate) fn opened_regular(rt: &HostRuntime, path: &str) -> Result<File, OpenFault> {
    let file = opened(rt, path, true)?;
    require_regular(&file.metadata()?)?;
    Ok(file)
}

/// Makes the empty file by whose lock others are kept away, and takes its lock.
pub(crate) fn locked(rt: &HostRuntime, name: &str) -> Result<File, OpenFault> {
    match opened_itself(rt, name) {
        Ok(lock) => {
            lock.try_lock()?;
            Ok(lock)
        }
        Err(OpenFault::System(error)) => {
            let name = String::from_str(rt.alloc(), name).map_err(io::Error::from)?;
            Err(OpenFault::Lock(name, error))
        }
        Err(OpenFault::Kind(kind)) => {
            let name = String::from_str(rt.alloc(), name).map_err(io::Error::from)?;
            Err(OpenFault::LockKind(name, kind))
        }
        Err(fault) => Err(fault),
    }
}

/// Opens the regular file under a name, or makes an empty one. A link under that name isn't followed.
fn opened_itself(rt: &HostRuntime, name: &str) -> Result<File, OpenFault> {
    let made = OpenOptions::new()
        .read(true)
        .append(true)
        .create_new(true)
        .open(rt, name);
    match made {
        Ok(file) => Ok(file),
        Err(error) => {
            if error.kind() != ErrorKind::AlreadyExists {
                return Err(OpenFault::System(error));
            }
            opened_there(rt, name)
        }
    }
}

/// Opens the regular file that stands under a name.
fn opened_there(rt: &HostRuntime, name: &str) -> Result<File, OpenFault> {
    let known = fs::symlink_metadata(rt, name)?;
    require_regular(&known)?;
    let file = opened(rt, name, false)?;
    if Sight::of(&file.metadata()?).is_same(&Sight::of(&known)) {
        return Ok(file);
    }
    // A link may have come under the name in between.
    Err(OpenFault::Kind(OtherKind::Link))
}

/// Removes the regular file under the name of a replacement: one that never took its file's place. Anything else under that name was
/// left by nobody who writes such files, and stays.
pub(crate) fn remove_left(rt: &HostRuntime, name: &str) {
    if let Ok(known) = fs::symlink_metadata(rt, name)
        && require_regular(&known).is_ok()
    {
        let _removed = fs::remove_file(rt, name);
    }
}
