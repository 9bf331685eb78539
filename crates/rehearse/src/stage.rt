//! A node and its links, and a dataset beside it.
use crate::call::{Call, Role};
use crate::dataset;
use crate::host::Host;
use mr_data::{Dataset, Given};
use mr_node::Config;
use rehearse_shared::{RehearsalFault, tell};
use std::alloc::Global;
use std::hash::RandomState;
use std::mem;

/// A node and its links, a dataset, and the moment and the random word that both are given.
#[derive(Drop)]
pub struct Stage {
    host: Host,
    backlog: usize,
    held: Dataset,
    seed: RandomState,
    given: Given,
}

impl Stage {
    /// An empty master with this backlog, and an empty dataset; None outside the backlog's limits.
    pub fn start(
        alloc: Global,
        seed: RandomState,
        backlog: usize,
    ) -> Result<Option<Stage>, RehearsalFault> {
        let (Some(config), Some(given)) = (Config::new(false, 0, backlog), Given::new(0, 0)) else {
            return Ok(None);
        };
        Ok(Some(Stage {
            host: Host::start(alloc, Dataset::new(alloc, seed), config)?,
            backlog,
            held: Dataset::new(alloc, seed),
            seed,
            given,
        }))
    }

    /// Makes a call, and writes what it answered.
    pub fn make(
        &mut self,
        alloc: Global,
        call: Call,
        out: &mut Vec<u8>,
    ) -> Result<(), RehearsalFault> {
        match call {
            Call::Given(given) => {
                self.given = given;
                tell(out, "given")
            }
            Call::Start(role) => self.start_anew(alloc, role, out),
            Call::OnNode(call) => self.host.make(alloc, call, self.given, out),
            Call::OnDataset(call) => dataset::make(alloc, &mut self.held, call, self.given, out),
        }
    }

    /// A node anew, with the dataset that stood beside the last one. An empty one takes its place.
    fn start_anew(
        &mut self,
        alloc: Global,
        role: Role,
        out: &mut Vec<u8>,
    ) -> Result<(), RehearsalFault> {
        let Some(config) = Config::new(role == Role::Replica, 0, self.backlog) else {
            return tell(out, "refused");
        };
        let held = mem::replace(&mut self.held, Dataset::new(alloc, self.seed));
        self.host = Host::start(alloc, held, config)?;
        tell(out, "started")
    }
}
