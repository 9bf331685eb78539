// A file is read as a log is opened.
ghost use Rattle.std.specs.Prelude.{◌≡◌, ◌+◌, ◌<◌, ◌≤◌, ◌^◌, ◌≢◌, [], false, length, IfOk, IfErr, IfSome, None, Some, OnOk, OnErr, IsErrOf};
ghost use Rattle.std.specs.FinMap.{empty};
ghost use Rattle.mr_file.specs.LogFile.{Rose, Keeps, SetsAside, SetsAsideOrNot};
ghost use Rattle.mr_groups.specs.Folding.{LoadsGroups};
ghost use Rattle.mr_groups.specs.Readers.{IsFresh};
ghost use Rattle.mr_aof.specs.ReadThrough.{CameTo, IsEarlier, IsKnownEnd, IsMade, IsReadThrough, IsWithin};

use crate::fault::LogFault;
use crate::log::Log;
use mr_file::{Failed, LogFile, PIECE, SyncMode};
use mr_groups::{GroupReplay, Loaded, Rest};
use std::alloc::Global;
use std::hash::RandomState;

/// How many bytes of a file were read, and what the last of them are.
#[derive(Clone, Copy)]
struct Reading {
    at: u64,
    rest: Rest,
}

/// What was loaded of a file, and whether more may stand in it.
#[derive(Drop)]
pub(crate) struct Made {
    loaded: Loaded,
    has_more: bool,
}

/// What one reading of a file came to.
#[derive(Drop)]
pub(crate) enum Pass {
    /// What was loaded.
    Made(Made),
    /// The group behind so many bytes was done in part, and the dataset with it was let go.
    Torn(u64),
}

impl<F: LogFile> Log<F> {
    /// Reads a file, and makes a log of it. The longest beginning of its bytes that is a list of notes and texts of groups, of which
    /// each group can be done as a whole in its turn, is what is loaded, and all that the file is left with: what stands behind it
    /// is set aside, byte for byte, before it is cut off. The file is gone through piece by piece, and where a group could be done in part alone,
    /// once more up to that: what is held of it is a piece and a group's text. After a fault its bytes are as before.
    pub fn open(
        alloc: Global,
        seed: RandomState,
        mut file: F,
        mode: SyncMode,
    ) -> Result<(Self, Loaded), (LogFault, F)>
        ensures loaded { IfOk result (λ opened.
            IfSome (F.told file) (λ xs. LoadsGroups xs opened.1.used opened.1.dataset)) }
        ensures kept { IfOk result (λ opened.
            Keeps (F.told file) (F.told opened.0.file) opened.1.used) }
        ensures aside { IfOk result (λ opened.
            SetsAside (F.told file) (F.aside file) (F.aside opened.0.file) opened.1.used) }
        ensures mode { IfOk result (λ opened. opened.0.mode ≡ mode) }
        ensures whole { IfOk result (λ opened. opened.0.broken ≡ false) }
        ensures err { IfErr result (λ failed. F.told failed.1 ≡ F.told file) }
        ensures spared { IfErr result (λ failed.
            SetsAsideOrNot (F.told file) (F.aside file) (F.aside failed.1)) }
        ensures device { IfErr result (λ failed. failed.0 ≡ LogFault.Device →
            Rose (F.failures file) (F.failures failed.1)) }
        ensures not_broken { IfErr result (λ failed. failed.0 ≢ LogFault.Broken) }
    {
        let made = match load_file(alloc, seed, &mut file) {
            Ok(made) => made,
            Err(fault) => return Err((fault, file)),
        };
        let Made { loaded, has_more } = made;
        if cut_rest(&mut file, has_more, loaded.used).is_err() {
            return Err((LogFault::Device, file));
        }
        let log = Log {
            file,
            mode,
            broken: false,
        };
        Ok((log, loaded))
    }
}

/// Sets aside what stands behind so many bytes, and cuts it off, where there is something. What can't be set aside isn't cut off.
fn cut_rest<F: LogFile>(file: &mut F, torn: bool, used: u64) -> Result<(), Failed>
    requires { torn ≡ false → IfSome (F.told file.old) (λ xs. used ≡ length xs) }
    ensures kept { OnOk result (Keeps (F.told file.old) (F.told file.new) used) }
    ensures aside { OnOk result
        (SetsAside (F.told file.old) (F.aside file.old) (F.aside file.new) used) }
    ensures failed { OnErr result (F.told file.new ≡ F.told file.old) }
    ensures spared { OnErr result
        (SetsAsideOrNot (F.told file.old) (F.aside file.old) (F.aside file.new)) }
    ensures later { F.failures file.old ≤ F.failures file.new }
    ensures cause { OnErr result (Rose (F.failures file.old) (F.failures file.new)) }
{
    if torn {
        file.set_aside(used)?;
        return file.cut(used);
    }
    Ok(())
}

/// How many of so many bytes that were read at a place stand before the end, if one is given.
fn count_before(end: Option<u64>, at: u64, count: usize) -> usize
    requires within { IsWithin at end }
    requires countable { at + count < 2 ^ 64 }
    ensures fewer { result ≤ count }
    ensures within { IsWithin (at + result) end }
    ensures all { result < count → end ≡ Some (at + result) }
{
    match end {
        Some(end) if end - at < count as u64 => (end - at) as usize,
        _ => count,
    }
}

/// Reads a file to its end or up to the given one, or to where no group can follow, a buffer at a time.
fn read_pieces<F: LogFile>(
    file: &mut F,
    replay: &mut GroupReplay,
    buffer: &mut [u8],
    end: Option<u64>,
) -> Result<Reading, LogFault>
    requires dataset { replay.old.dataset ≡ empty }
    requires unread { replay.old.unread.items ≡ [] }
    requires reader { IsFresh replay.old.reader }
    requires room { 0 < length buffer.old }
    ensures through { IfOk result (λ r.
        IfSome (F.told file.old) (λ xs.
        IsReadThrough xs end r.at replay.new.dataset replay.new.unread.items r.rest)) }
    ensures counted { IfOk result (λ r. length replay.new.unread.items ≤ r.at) }
    ensures within { IfOk result (λ r. IsWithin r.at end) }
    ensures torn { IfOk result (λ r. r.rest ≡ Rest.Torn → 0 < length replay.new.unread.items) }
    ensures same { F.told file.new ≡ F.told file.old }
    ensures beside { F.aside file.new ≡ F.aside file.old }
    ensures later { F.failures file.old ≤ F.failures file.new }
    ensures device { IsErrOf result LogFault.Device →
        Rose (F.failures file.old) (F.failures file.new) }
    ensures not_broken { IsErrOf result LogFault.Broken → ⊥ }
{
    let mut at = 0;
    'pieces: loop {
        let read = file.read(at, buffer)?;
        let count = count_before(end, at, read);
        if count == 0 {
            let rest = Rest::Open;
            return Ok(Reading { at, rest });
        }
        at += count as u64;
        let rest = replay.feed(&buffer[..count])?;
        match rest {
            Rest::Bad => return Ok(Reading { at, rest }),
            Rest::Torn => return Ok(Reading { at, rest }),
            Rest::Open => {}
        }
    }
}

/// Reads a file to its end or up to the given one, or to where no group can follow.
fn read_through<F: LogFile>(
    alloc: Global,
    file: &mut F,
    replay: &mut GroupReplay,
    end: Option<u64>,
) -> Result<Reading, LogFault>
    requires dataset { replay.old.dataset ≡ empty }
    requires unread { replay.old.unread.items ≡ [] }
    requires reader { IsFresh replay.old.reader }
    ensures through { IfOk result (λ r.
        IfSome (F.told file.old) (λ xs.
        IsReadThrough xs end r.at replay.new.dataset replay.new.unread.items r.rest)) }
    ensures counted { IfOk result (λ r. length replay.new.unread.items ≤ r.at) }
    ensures within { IfOk result (λ r. IsWithin r.at end) }
    ensures torn { IfOk result (λ r. r.rest ≡ Rest.Torn → 0 < length replay.new.unread.items) }
    ensures same { F.told file.new ≡ F.told file.old }
    ensures beside { F.aside file.new ≡ F.aside file.old }
    ensures later { F.failures file.old ≤ F.failures file.new }
    ensures device { IsErrOf result LogFault.Device →
        Rose (F.failures file.old) (F.failures file.new) }
    ensures not_broken { IsErrOf result LogFault.Broken → ⊥ }
{
    let mut buffer = vec![in alloc; 0u8; PIECE]?;
    read_pieces(file, replay, buffer.as_mut_slice(), end)
}

/// Whether more may stand in a file than so many bytes, where it wasn't read further for no reason of its bytes.
fn has_more(reading: Reading, end: Option<u64>, used: u64) -> bool
    ensures { result ≡ false → (end ≡ None) × (reading.at ≤ used) }
{
    end.is_some() || used < reading.at
}

/// What was loaded: the dataset of so many bytes.
fn made_of(replay: GroupReplay, used: u64, has_more: bool) -> Made
    ensures dataset { result.loaded.dataset ≡ replay.dataset }
    ensures used { result.loaded.used ≡ used }
    ensures has_more { result.has_more ≡ has_more }
{
    let dataset = replay.into_dataset();
    let loaded = Loaded { dataset, used };
    Made { loaded, has_more }
}

/// Reads a file once, up to the given end, if there is one.
fn read_pass<F: LogFile>(
    alloc: Global,
    seed: RandomState,
    file: &mut F,
    end: Option<u64>,
) -> Result<Pass, LogFault>
    requires { IfSome (F.told file.old) (λ xs. IsKnownEnd xs end) }
    ensures came { IfOk result (λ pass. IfSome (F.told file.old) (λ xs. CameTo xs pass)) }
    ensures earlier { IfOk result (λ pass. IsEarlier pass end) }
    ensures same { F.told file.new ≡ F.told file.old }
    ensures beside { F.aside file.new ≡ F.aside file.old }
    ensures later { F.failures file.old ≤ F.failures file.new }
    ensures device { IsErrOf result LogFault.Device →
        Rose (F.failures file.old) (F.failures file.new) }
    ensures not_broken { IsErrOf result LogFault.Broken → ⊥ }
{
    let mut replay = GroupReplay::new(alloc, seed);
    let reading = read_through(alloc, file, &mut replay, end)?;
    let used = reading.at - replay.unread().len() as u64;
    match reading.rest {
        Rest::Torn => Ok(Pass::Torn(used)),
        Rest::Open => Ok(Pass::Made(made_of(replay, used, has_more(reading, end, used)))),
        Rest::Bad => Ok(Pass::Made(made_of(replay, used, true))),
    }
}

/// Reads a file; and where a group could be done in part alone, once more up to that.
fn load_file<F: LogFile>(alloc: Global, seed: RandomState, file: &mut F) -> Result<Made, LogFault>
    ensures loaded { IfOk result (λ made.
        IfSome (F.told file.old) (λ xs.
        IsMade xs made.loaded.used made.loaded.dataset made.has_more)) }
    ensures same { F.told file.new ≡ F.told file.old }
    ensures beside { F.aside file.new ≡ F.aside file.old }
    ensures later { F.failures file.old ≤ F.failures file.new }
    ensures device { IsErrOf result LogFault.Device →
        Rose (F.failures file.old) (F.failures file.new) }
    ensures not_broken { IsErrOf result LogFault.Broken → ⊥ }
{
    let mut end = None;
    'passes: loop {
        let pass = read_pass(alloc, seed, file, end)?;
        match pass {
            Pass::Made(made) => return Ok(made),
            Pass::Torn(used) => end = Some(used),
        }
    }
}
