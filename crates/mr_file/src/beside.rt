//! What stands beside a file of the system, under its name with more behind it.
use crate::again::read_again;
use std::alloc::AllocError;
use std::fs::{File, OpenOptions};
use std::io::{ErrorKind, Write};
use std::os::unix::fs::{MetadataExt, OpenOptionsExt, fchown};
use std::path::Path;
use std::{fs, io};

/// So many bytes of a file or of an input are read at once.
pub const PIECE: usize = 65_536;

/// What is written in a file's place has the file's name with this behind it until it takes that.
const NEW: &str = "minired-new";

/// The empty file by whose lock others are kept away has the file's name with this behind it.
const LOCK: &str = "lock";

/// No file has more copies of its ends beside it.
const MOST_COPIES: u32 = 1_000_000;

/// The bits of a mode that say who may read and write.
const PERMISSION_BITS: u32 = 0o777;

/// A copy of a file's end, which was set aside before the end was cut off.
#[derive(Debug, Drop)]
pub struct Aside {
    /// The copy's name.
    pub path: String,
    /// Where in the file its first byte stood.
    pub from: u64,
    /// How many bytes it has.
    pub len: u64,
}

/// A file's name behind all links, and the names of what stands beside it.
#[derive(Drop)]
pub(crate) struct Names {
    pub(crate) file: String,
    /// Of what is to take its place: one that nobody else gives a file.
    pub(crate) new: String,
    /// Of the empty file by whose lock others are kept away.
    pub(crate) lock: String,
}

impl Names {
    /// The names of the file that a path leads to, which is there.
    pub(crate) fn of(rt: &HostRuntime, path: &str) -> io::Result<Names> {
        let file = fs::canonicalize(rt, path)?.into_string();
        let new = with_ending(rt, file.as_str(), NEW)?;
        let lock = with_ending(rt, file.as_str(), LOCK)?;
        Ok(Names { file, new, lock })
    }
}

/// A name with an ending behind it.
fn with_ending(rt: &HostRuntime, name: &str, ending: &str) -> Result<String, AllocError> {
    format!(in rt.alloc(); "{name}.{ending}")
}

/// Has the name of a file reach the disk.
pub(crate) fn sync_folder(rt: &HostRuntime, path: &str) -> io::Result<()> {
    let folder = match Path::new(path).parent() {
        Some(folder) => folder,
        None => Path::new("."),
    };
    File::open(rt, folder)?.sync_all()
}

/// Makes an empty file, which others may read and write as they may the one that it is to be like. Its owner is the same where the
/// system allows that. What stands under the name already is left alone, and is a failure.
pub(crate) fn made_like(rt: &HostRuntime, like: &File, path: &str) -> io::Result<File> {
    let known = like.metadata()?;
    let file = OpenOptions::new()
        .read(true)
        .append(true)
        .create_new(true)
        .mode(known.mode() & PERMISSION_BITS)
        .open(rt, path)?;
    let _allowed = fchown(&file, Some(known.uid()), Some(known.gid()));
    match file.set_permissions(known.permissions()) {
        Ok(()) => Ok(file),
        Err(error) => {
            let _removed = fs::remove_file(rt, path);
            Err(error)
        }
    }
}

/// Makes an empty file beside another one, under the first name that is free: the other's with `.cut-1` behind it, or `.cut-2`, ..
fn made_beside(rt: &HostRuntime, like: &File, name: &str) -> io::Result<(File, String)> {
    for number in 1..=MOST_COPIES {
        let path = format!(in rt.alloc(); "{name}.cut-{number}")?;
        match made_like(rt, like, path.as_str()) {
            Ok(file) => return Ok((file, path)),
            Err(error) => {
                if error.kind() != ErrorKind::AlreadyExists {
                    return Err(error);
                }
            }
        }
    }
    Err(io::Error::from(ErrorKind::AlreadyExists))
}

/// Appends what stands in a file from a place on to another one. It answers how many bytes these are.
fn copy_from(rt: &HostRuntime, file: &File, from: u64, copy: &mut File) -> io::Result<u64> {
    let mut buffer = vec![in rt.alloc(); 0u8; PIECE]?;
    let mut at = from;
    'pieces: loop {
        let count = read_again(file, buffer.as_mut_slice(), at)?;
        if count == 0 {
            return Ok(at - from);
        }
        copy.write_all(&buffer[..count])?;
        at = match at.checked_add(count as u64) {
            Some(at) => at,
            None => return Err(io::Error::from(ErrorKind::InvalidData)),
        };
    }
}

/// Fills a copy with a file's end, and has it reach the disk, its name too.
fn fill(rt: &HostRuntime, file: &File, from: u64, copy: &mut File, path: &str) -> io::Result<u64> {
    let len = copy_from(rt, file, from, copy)?;
    copy.sync_all()?;
    sync_folder(rt, path)?;
    Ok(len)
}

/// Copies a file's end from a place on to a file beside it, on the disk. Where that fails no copy is left.
pub(crate) fn copied(rt: &HostRuntime, file: &File, name: &str, from: u64) -> io::Result<Aside> {
    let (mut copy, path) = made_beside(rt, file, name)?;
    match fill(rt, file, from, &mut copy, path.as_str()) {
        Ok(len) => Ok(Aside { path, from, len }),
        Err(error) => {
            let _removed = fs::remove_file(rt, path.as_str());
            Err(error)
        }
    }
}
