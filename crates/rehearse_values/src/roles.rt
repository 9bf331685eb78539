//! What a node tells of its role, by INFO and by ROLE.
use crate::step::Step;
use mr_info::{MasterLink, Replica, info, master_role, replica_role};
use mr_repl::{Backlog, Lineage};
use mr_resp::{Reply, write_reply};
use rehearse_shared::{RehearsalFault, bytes_of, count_of, number_of, tell, tell_bytes};
use std::alloc::Global;

/// What is told of a node with these names of its stream.
pub fn tell_role(
    alloc: Global,
    lineage: &Lineage,
    step: Step<'_>,
    out: &mut Vec<u8>,
) -> Result<(), RehearsalFault> {
    match step.name {
        "informs" => tell_info(alloc, lineage, step, out),
        "alone" => tell_reply(alloc, master_role(alloc, lineage.stream(), &[])?, out),
        "leads" => tell_led(alloc, lineage.stream(), step, out),
        "follows" => tell_following(alloc, lineage.stream(), step, out),
        _ => Err(RehearsalFault::Line),
    }
}

/// INFO's text of a master or a replica that so many links follow.
fn tell_info(
    alloc: Global,
    lineage: &Lineage,
    step: Step<'_>,
    out: &mut Vec<u8>,
) -> Result<(), RehearsalFault> {
    let replica = step.first == "slave";
    let followers = count_of(step.second)? as usize;
    let text = info(alloc, replica, followers, lineage)?;
    tell(out, "text")?;
    tell_bytes(alloc, text.as_slice(), out)
}

/// ROLE of a master with a replica that told its address, its port and its offset, and one that told nothing.
fn tell_led(
    alloc: Global,
    stream: &Backlog,
    step: Step<'_>,
    out: &mut Vec<u8>,
) -> Result<(), RehearsalFault> {
    let address = bytes_of(alloc, step.first)?;
    let port = bytes_of(alloc, step.second)?;
    let acknowledged = number_of(step.third)?;
    let mut replicas = Vec::with_capacity(alloc, 2)?;
    replicas.push(Replica {
        address: Some(address.as_slice()),
        port: Some(port.as_slice()),
        acknowledged: Some(acknowledged),
    })?;
    replicas.push(Replica {
        address: None,
        port: None,
        acknowledged: None,
    })?;
    tell_reply(alloc, master_role(alloc, stream, replicas.as_slice())?, out)
}

/// ROLE of a replica.
fn tell_following(
    alloc: Global,
    stream: &Backlog,
    step: Step<'_>,
    out: &mut Vec<u8>,
) -> Result<(), RehearsalFault> {
    let host = bytes_of(alloc, step.first)?;
    let Ok(port) = u16::try_from(count_of(step.second)?) else {
        return Err(RehearsalFault::Line);
    };
    let link = match step.third {
        "connect" => MasterLink::Connect,
        "sync" => MasterLink::Sync,
        "connected" => MasterLink::Connected,
        _ => return Err(RehearsalFault::Line),
    };
    tell_reply(
        alloc,
        replica_role(alloc, stream, host.as_slice(), port, link)?,
        out,
    )
}

/// The text of a reply.
fn tell_reply(alloc: Global, reply: Reply, out: &mut Vec<u8>) -> Result<(), RehearsalFault> {
    let mut text = Vec::new(alloc);
    write_reply(&reply, &mut text)?;
    tell(out, "text")?;
    tell_bytes(alloc, text.as_slice(), out)
}
