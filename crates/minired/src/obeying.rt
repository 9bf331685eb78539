//! A server that begins as a replica.
use crate::failure::Failure;
use itoa::Buffer;
use mr_data::Given;
use mr_links::LinkId;
use mr_loop::LoopFault;
use mr_node::{Node, NodeFault, Step};
use mr_options::Master;
use mr_resp::write_request;
use mr_source::Source;
use std::alloc::AllocError;

/// Has a node follow the master that the options name, as a first request `REPLICAOF HOST PORT` of a client would.
pub fn follow<S: Source>(
    rt: &HostRuntime,
    node: &mut Node,
    master: &Master<'_>,
    source: &mut S,
) -> Result<(), Failure> {
    let mut port = Buffer::new();
    let mut request = Vec::new(rt.alloc());
    if write_follow(
        master.host.as_bytes(),
        port.format(master.port).as_bytes(),
        &mut request,
    )
    .is_err()
    {
        return Err(Failure::Memory);
    }
    match ask(node, request.as_slice(), source) {
        Ok(()) => Ok(()),
        Err(NodeFault::Stopped) => Err(Failure::Loop(LoopFault::Stopped)),
        Err(_refused) => Err(Failure::Memory),
    }
}

/// Writes the request.
fn write_follow<'a>(
    host: &'a [u8],
    port: &'a [u8],
    request: &mut Vec<u8>,
) -> Result<(), AllocError> {
    let name: &'a [u8] = b"REPLICAOF";
    write_request(&[name, host, port], request)
}

/// Asks a node one request on a client's link of its own. The reply is dropped: whom the node follows changes nothing else of one
/// that was just started.
fn ask<S: Source>(node: &mut Node, request: &[u8], source: &mut S) -> Result<(), NodeFault> {
    let link = node.open()?;
    let fed = node.feed(link, request);
    let asked = match fed {
        Ok(()) => step(node, link, source),
        Err(fault) => Err(fault),
    };
    node.close(link);
    asked
}

/// Makes a step at a link, by the source's time and chance. What it gives out is dropped.
fn step<S: Source>(node: &mut Node, link: LinkId, source: &mut S) -> Result<(), NodeFault> {
    let fresh = source.id();
    let now = source.now();
    let word = source.word();
    let Some(given) = Given::new(now, word) else {
        unreachable!()
    };
    match node.step(link, given, fresh)? {
        Step::Done(outs) => {
            node.reuse(outs);
            Ok(())
        }
        Step::Idle | Step::Closed => Ok(()),
    }
}
