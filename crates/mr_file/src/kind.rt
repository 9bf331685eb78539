//! Files that aren't regular ones.
ghost use Rattle.std.specs.Prelude.{◌≡◌};
ghost use Rattle.mr_file.specs.Kind.{kind_of};

use thiserror::Error;

/// The bits of a mode that say what kind of file it is, and what they say.
const KIND_BITS: u32 = 0o170000;

const REGULAR: u32 = 0o100000;

const FOLDER: u32 = 0o040000;

const LINK: u32 = 0o120000;

const CHARACTER_DEVICE: u32 = 0o020000;

const BLOCK_DEVICE: u32 = 0o060000;

const NAMED_PIPE: u32 = 0o010000;

const SOCKET: u32 = 0o140000;

/// A kind of file that can't be grown at its end and be cut.
#[derive(Clone, Copy, Debug, PartialEq, Eq, Error)]
pub enum OtherKind {
    #[error("a folder")]
    Folder,
    #[error("a symbolic link")]
    Link,
    #[error("a character device")]
    CharacterDevice,
    #[error("a block device")]
    BlockDevice,
    #[error("a named pipe")]
    NamedPipe,
    #[error("a socket")]
    Socket,
    #[error("of an unknown kind")]
    Unknown,
}

/// The kind of a file with this mode, or none of a regular one.
pub(crate) fn other_kind(mode: u32) -> Option<OtherKind>
    ensures { result ≡ kind_of mode }
{
    match mode & KIND_BITS {
        REGULAR => None,
        FOLDER => Some(OtherKind::Folder),
        LINK => Some(OtherKind::Link),
        CHARACTER_DEVICE => Some(OtherKind::CharacterDevice),
        BLOCK_DEVICE => Some(OtherKind::BlockDevice),
        NAMED_PIPE => Some(OtherKind::NamedPipe),
        SOCKET => Some(OtherKind::Socket),
        _ => Some(OtherKind::Unknown),
    }
}
