//! The append-only file of a node.
use crate::failure::{Failure, FileFault};
use crate::kept_file::KeptFile;
use mr_aof::{Loaded, Log, LogFault};
use mr_data::Dataset;
use mr_file::{OpenFault, SyncMode, SystemFile};
use mr_notices::Notices;
use mr_pipe::{PipeConfig, PipeFault, pipe_with};
use std::hash::RandomState;
use std::io::Write;

/// How a file is used: whether a server writes it, and when it is on the disk.
#[derive(Clone, Copy)]
pub struct FileMode {
    pub serves: bool,
    pub sync: SyncMode,
}

/// The failure of the file at this path.
pub fn file_failure(rt: &HostRuntime, path: &str, fault: FileFault) -> Failure {
    match String::from_str(rt.alloc(), path) {
        Ok(path) => Failure::File(path, fault),
        Err(_refused) => Failure::Memory,
    }
}

/// The file at this path. In a server descriptors are kept in reserve, for its replacements.
fn opened_file(rt: &HostRuntime, path: &str, serves: bool) -> Result<KeptFile, Failure> {
    let Ok(of_file) = rt.clone() else {
        return Err(Failure::Memory);
    };
    let Ok(of_kept) = rt.clone() else {
        return Err(Failure::Memory);
    };
    let mut file = match SystemFile::open(of_file, path) {
        Ok(file) => file,
        Err(fault) => return Err(file_failure(rt, path, FileFault::Open(fault))),
    };
    if serves && let Err(error) = file.keep_reserve() {
        let fault = FileFault::Open(OpenFault::System(error));
        return Err(file_failure(rt, path, fault));
    }
    Ok(KeptFile::new(of_kept, file))
}

/// Tells what was cut off the end of the file at this path, if something was.
fn tell_cut(notices: &mut Notices, path: &str, file: &KeptFile) {
    if let Some(aside) = file.system().aside() {
        let (count, from, copy) = (aside.len, aside.from, aside.path.as_str());
        notices.tell(&format_args!(
            "{path}: cut off {count} bytes from offset {from} on, copied to {copy} before"
        ));
    }
}

/// What the program says of itself on standard error.
pub fn notices_of(rt: &HostRuntime) -> Result<Notices, Failure> {
    match Notices::new(rt) {
        Ok(notices) => Ok(notices),
        Err(_refused) => Err(Failure::Memory),
    }
}

/// The log of the file at this path, and the dataset that is kept there. What was cut off its end is told.
pub fn opened(
    rt: &HostRuntime,
    notices: &mut Notices,
    path: &str,
    mode: FileMode,
    seed: RandomState,
) -> Result<(Log<KeptFile>, Dataset), Failure> {
    let FileMode { serves, sync } = mode;
    let file = opened_file(rt, path, serves)?;
    match Log::open(rt.alloc(), seed, file, sync) {
        Ok((log, loaded)) => {
            let Loaded { dataset, used: _ } = loaded;
            tell_cut(notices, path, log.file());
            Ok((log, dataset))
        }
        Err((LogFault::Memory, _file)) => Err(Failure::Memory),
        Err((LogFault::Device, file)) | Err((LogFault::Broken, file)) => {
            let fault = FileFault::Load(file.system().why());
            Err(file_failure(rt, path, fault))
        }
    }
}

/// Why what was to be written to the file at this path wasn't.
pub fn write_failure(rt: &HostRuntime, path: &str, log: &Log<KeptFile>) -> Failure {
    let fault = FileFault::Write(log.file().system().why());
    file_failure(rt, path, fault)
}

/// One node, which begins with the dataset that the file at this path keeps, and keeps its own there.
pub fn run_kept<W: Write>(
    rt: &HostRuntime,
    path: &str,
    config: &PipeConfig,
    seed: RandomState,
    output: &mut W,
) -> Result<(), Failure> {
    let mode = FileMode {
        serves: false,
        sync: SyncMode::Always,
    };
    let (mut log, dataset) = opened(rt, &mut notices_of(rt)?, path, mode, seed)?;
    let ended = pipe_with(
        rt.alloc(),
        config,
        dataset,
        &mut log,
        &mut rt.stdin(),
        output,
    );
    // After a failed append too the replies before it are due.
    let _ = output.flush();
    match ended {
        Err(PipeFault::File) => Err(write_failure(rt, path, &log)),
        Err(fault) => Err(Failure::Pipe(fault)),
        Ok(()) => Ok(()),
    }
}
