//! Nodes side by side.
use crate::host::Host;
use mr_data::Dataset;
use mr_groups::{Loaded, load_groups};
use mr_node::Config;
use mr_repl::ReplId;
use rehearse_shared::{Line, RehearsalFault, bytes_of, id_of, place_of, port_of, tell};
use std::alloc::Global;
use std::hash::RandomState;

/// Nodes side by side, under their numbers.
#[derive(Drop)]
pub struct Stage {
    alloc: Global,
    seed: RandomState,
    hosts: Vec<Host>,
}

impl Stage {
    /// No nodes.
    pub fn new(alloc: Global, seed: RandomState) -> Stage {
        Stage {
            alloc,
            seed,
            hosts: Vec::new(alloc),
        }
    }

    /// Makes the call that a line names, and writes what came of it.
    pub fn make(&mut self, line: Line<'_>, out: &mut Vec<u8>) -> Result<(), RehearsalFault> {
        let number = place_of(line.number)?;
        if line.name == "start" {
            return self.start(number, line, out);
        }
        match self.hosts.as_mut_slice().get_mut(number) {
            Some(host) => host.make(line, out),
            None => Err(RehearsalFault::Line),
        }
    }

    /// A node anew, under a number that was given before, or under the next one.
    fn start(
        &mut self,
        number: usize,
        line: Line<'_>,
        out: &mut Vec<u8>,
    ) -> Result<(), RehearsalFault> {
        let id = id_of(line.first)?;
        let is_replica = is_replica(line.second)?;
        let port = port_of(line.third)?;
        let file = bytes_of(self.alloc, line.fifth)?;
        match Config::new(is_replica, port, place_of(line.fourth)?) {
            Some(config) => {
                let Loaded { dataset, used: _ } = load_groups(
                    self.alloc,
                    self.seed,
                    file.as_slice(),
                )?;
                self.put(number, id, dataset, config)?;
                tell(out, "started")
            }
            None => tell(out, "refused"),
        }
    }

    /// A node with this dataset under a number that was given before, in place of that one, or under the next one.
    /// Fails for a number behind that.
    fn put(
        &mut self,
        number: usize,
        id: ReplId,
        held: Dataset,
        config: Config,
    ) -> Result<(), RehearsalFault> {
        if number > self.hosts.len() {
            return Err(RehearsalFault::Line);
        }
        let host = Host::start(self.alloc, self.seed, id, held, config)?;
        match self.hosts.as_mut_slice().get_mut(number) {
            Some(before) => *before = host,
            None => self.hosts.push(host)?,
        }
        Ok(())
    }
}

/// Whether the word says that a node starts as a replica.
fn is_replica(word: &str) -> Result<bool, RehearsalFault> {
    match word {
        "master" => Ok(false),
        "replica" => Ok(true),
        _ => Err(RehearsalFault::Line),
    }
}
