//! What is listed, and the node that starts with it.
use crate::heard_wire::HeardWire;
use crate::host::Host;
use crate::line::Line;
use crate::listed_file::ListedFile;
use crate::listed_source::ListedSource;
use crate::listed_wire::ListedWire;
use mr_aof::{Loaded, Log, LogFault};
use mr_node::{Config, Node};
use mr_repl::ReplId;
use rehearse_shared::{RehearsalFault, count_of, id_of, is_replica, port_of, tell};
use std::alloc::Global;
use std::hash::RandomState;

/// What is listed of the next node, and the node that started last.
#[derive(Drop)]
pub struct Stage {
    alloc: Global,
    seed: RandomState,
    wire: ListedWire,
    source: ListedSource,
    file: ListedFile,
    host: Option<Host>,
}

impl Stage {
    /// Nothing is listed, and no node has started.
    pub fn new(alloc: Global, seed: RandomState) -> Stage {
        Stage {
            alloc,
            seed,
            wire: ListedWire::new(alloc),
            source: ListedSource::new(alloc),
            file: ListedFile::new(alloc),
            host: None,
        }
    }

    /// Makes the call that a line names, and writes what came of it.
    pub fn make(&mut self, line: Line<'_>, out: &mut Vec<u8>) -> Result<(), RehearsalFault> {
        match line.name {
            "start" => self.start(line.words, out),
            "turn" | "serve" | "shows" | "role" | "file" | "loads" | "links" =>
                match &mut self.host {
                    Some(host) => on_host(host, line, out),
                    None => Err(RehearsalFault::Line),
                },
            _ => {
                self.list_all(line)?;
                tell(out, "listed")
            }
        }
    }

    /// Lists each word of a line.
    fn list_all(&mut self, line: Line<'_>) -> Result<(), RehearsalFault> {
        for word in line.words.split(' ') {
            self.list(line.name, word)?;
        }
        Ok(())
    }

    /// Lists a word in the list of this name, or says it of the file. Fails where there is no such list.
    fn list(&mut self, name: &str, word: &str) -> Result<(), RehearsalFault> {
        match name {
            "waits" => self.wire.list_wait(word),
            "reads" => self.wire.list_read(word),
            "writes" => self.wire.list_write(word),
            "accepts" => self.wire.list_accept(word),
            "connects" => self.wire.list_connect(word),
            "moments" => self.source.list_moment(word),
            "passes" => self.source.list_passing(word),
            "words" => self.source.list_word(word),
            "ids" => self.source.list_id(word),
            _ => self.describe(name, word),
        }
    }

    /// Says something of the file.
    fn describe(&mut self, name: &str, word: &str) -> Result<(), RehearsalFault> {
        match name {
            "held" => self.file.set_held(word),
            "sync" => self.file.set_mode(word),
            "fails" => self.file.set_fails(word),
            "short" => self.file.set_most(word),
            _ => Err(RehearsalFault::Line),
        }
    }

    /// Starts a node with all that is listed.
    fn start(&mut self, words: &str, out: &mut Vec<u8>) -> Result<(), RehearsalFault> {
        let mut words = words.split(' ');
        let is_replica = is_replica(words.next().unwrap_or(""))?;
        let id = id_of(words.next().unwrap_or(""))?;
        let port = port_of(words.next().unwrap_or(""))?;
        let backlog = count_of(words.next().unwrap_or(""))? as usize;
        match Config::new(is_replica, port, backlog) {
            Some(config) => self.open(id, config, out),
            None => tell(out, "refused"),
        }
    }

    /// Starts a node with what the file keeps.
    fn open(
        &mut self,
        id: ReplId,
        config: Config,
        out: &mut Vec<u8>,
    ) -> Result<(), RehearsalFault> {
        let (file, mode) = self.file.take();
        match Log::open(self.alloc, self.seed, file, mode) {
            Ok((log, loaded)) => {
                let Loaded { dataset, used: _ } = loaded;
                let wire = HeardWire::new(self.alloc, self.wire.take());
                let source = self.source.take();
                let node = Node::start(self.alloc, id, dataset, config)?;
                let host = Host::new(self.alloc, self.seed, node, log, wire, source)?;
                self.host = Some(host);
                tell(out, "started")
            }
            Err((LogFault::Memory, _file)) => Err(RehearsalFault::Memory),
            Err((_fault, _file)) => tell(out, "fault: file failed"),
        }
    }
}

/// Makes the call on a node that a line names.
fn on_host(host: &mut Host, line: Line<'_>, out: &mut Vec<u8>) -> Result<(), RehearsalFault> {
    match line.name {
        "turn" => host.turn(out)?,
        "serve" => host.serve(count_of(line.words)?, out)?,
        "shows" => host.shows(out)?,
        "role" => host.role(out)?,
        "file" => host.file(out)?,
        "loads" => host.load(out)?,
        "links" => host.links(out)?,
        _ => return Err(RehearsalFault::Line),
    }
    if host.lacks_memory() {
        return Err(RehearsalFault::Memory);
    }
    Ok(())
}
