//! Servers, and the connections between them and to clients.
use crate::connection::Connection;
use crate::joined_wire::JoinedWire;
use crate::line::mode_of;
use crate::server::Server;
use crate::source::NumberedSource;
use crate::telling::tell_number;
use mr_aof::{Loaded, Log};
use mr_file::{MemFile, SyncMode};
use mr_node::{Config, Node};
use mr_source::Source;
use rehearse_shared::{Line, RehearsalFault, count_of, is_replica, place_of, tell};
use std::alloc::Global;
use std::hash::RandomState;
use std::mem;

/// So many servers there are at most.
const SERVERS: usize = 3;

/// The server with the number 0 has this port, and those behind it the next ones.
pub const FIRST_PORT: u16 = 7000;

/// The port of the server with this number.
fn port_of(number: usize) -> u16 {
    if number < SERVERS {
        FIRST_PORT + number as u16
    } else {
        FIRST_PORT
    }
}

/// A server that runs, and its wire.
#[derive(Drop)]
pub struct Running {
    pub server: Server,
    pub wire: JoinedWire,
}

/// A server, where it runs, and what the file of one that doesn't keeps.
#[derive(Drop)]
pub struct Place {
    running: Option<Running>,
    file: Vec<u8>,
}

/// Servers, and the connections between them and to clients.
#[derive(Drop)]
pub struct System {
    pub alloc: Global,
    seed: RandomState,
    places: Vec<Place>,
    pub connections: Vec<Connection>,
}

/// What a server is started with.
#[derive(Clone, Copy)]
struct Start {
    config: Config,
    /// Its ids are the numbers from this one on.
    first: u64,
    mode: SyncMode,
    /// So many bytes are written at an end until they are delivered.
    most: usize,
}

impl System {
    /// No server runs, and their files are empty.
    pub fn new(alloc: Global, seed: RandomState) -> Result<System, RehearsalFault> {
        let mut places = Vec::new(alloc);
        for _ in 0..SERVERS {
            places.push(Place {
                running: None,
                file: Vec::new(alloc),
            })?;
        }
        Ok(System {
            alloc,
            seed,
            places,
            connections: Vec::new(alloc),
        })
    }

    /// Has the event happen that a line names, and writes what came of it.
    pub fn make(&mut self, line: Line<'_>, out: &mut Vec<u8>) -> Result<(), RehearsalFault> {
        let number = place_of(line.number)?;
        match line.name {
            "start" => self.start(number, line, out),
            "kill" => self.kill(number, line, out),
            "turn" => self.turn(number, out),
            "time" => self.pass(number, line, out),
            "show" => self.show(number, out),
            "client" => self.open(number, out),
            _ => self.join(number, line, out),
        }
    }

    /// The server that runs under this number.
    pub fn running(&mut self, number: usize) -> Option<&mut Running> {
        self.places.get_mut(number)?.running.as_mut()
    }

    /// Starts a server with what its file keeps.
    fn start(
        &mut self,
        number: usize,
        line: Line<'_>,
        out: &mut Vec<u8>,
    ) -> Result<(), RehearsalFault> {
        let replica = is_replica(line.first)?;
        let first = count_of(line.second)?;
        let backlog = place_of(line.third)?;
        let mode = mode_of(line.fourth)?;
        let most = place_of(line.fifth)?;
        if number >= self.places.len() || self.running(number).is_some() {
            return tell(out, "refused");
        }
        let Some(config) = Config::new(replica, port_of(number), backlog) else {
            return tell(out, "refused");
        };
        let start = Start {
            config,
            first,
            mode,
            most,
        };
        let running = self.started(number, start)?;
        if let Some(place) = self.places.get_mut(number) {
            place.running = Some(running);
        }
        tell(out, "started")
    }

    /// A server that begins with what its file keeps.
    fn started(&mut self, number: usize, start: Start) -> Result<Running, RehearsalFault> {
        let held = self.take_file(number);
        let file = MemFile::new(held, Vec::new(self.alloc));
        let (log, loaded) = match Log::open(self.alloc, self.seed, file, start.mode) {
            Ok(opened) => opened,
            Err((_fault, _file)) => return Err(RehearsalFault::Memory),
        };
        let Loaded { dataset, used: _ } = loaded;
        let mut source = NumberedSource::new(start.first);
        let node = Node::start(self.alloc, source.id(), dataset, start.config)?;
        let server = Server::new(self.alloc, self.seed, node, log, source)?;
        let wire = JoinedWire::new(self.alloc, start.most);
        Ok(Running { server, wire })
    }

    /// Takes what the file of a server keeps that doesn't run.
    fn take_file(&mut self, number: usize) -> Vec<u8> {
        let empty = Vec::new(self.alloc);
        match self.places.get_mut(number) {
            Some(place) => mem::replace(&mut place.file, empty),
            None => empty,
        }
    }

    /// Ends a server at once. Its file keeps what was synced, and so many bytes behind that.
    fn kill(
        &mut self,
        number: usize,
        line: Line<'_>,
        out: &mut Vec<u8>,
    ) -> Result<(), RehearsalFault> {
        let unsynced = place_of(line.first)?;
        let Some(place) = self.places.get_mut(number) else {
            return tell(out, "down");
        };
        let Some(running) = place.running.take() else {
            return tell(out, "down");
        };
        place.file = running.server.kept(unsynced)?;
        let length = place.file.len();
        self.part(number);
        tell_number(self.alloc, "killed", length, out)
    }

    /// Makes a turn of a server.
    fn turn(&mut self, number: usize, out: &mut Vec<u8>) -> Result<(), RehearsalFault> {
        let next = self.connections.len();
        let Some(running) = self.running(number) else {
            return tell(out, "down");
        };
        running.wire.next = next;
        running.server.turn(&mut running.wire, out)?;
        let told = running.wire.take_told();
        self.carry(number, told, out)
    }

    /// Sets a server's clock to so many milliseconds.
    fn pass(
        &mut self,
        number: usize,
        line: Line<'_>,
        out: &mut Vec<u8>,
    ) -> Result<(), RehearsalFault> {
        let millis = count_of(line.first)?;
        match self.running(number) {
            Some(running) => {
                running.server.set_clock(millis);
                tell(out, "set")
            }
            None => tell(out, "down"),
        }
    }

    /// Writes what a server shows.
    fn show(&mut self, number: usize, out: &mut Vec<u8>) -> Result<(), RehearsalFault> {
        match self.running(number) {
            Some(running) => running.server.show(out),
            None => tell(out, "down"),
        }
    }
}
