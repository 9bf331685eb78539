//! Lines that say what role the node has come to.
use mr_node::{Node, Role};
use mr_node_output::Address;
use mr_notices::{Notices, Shown};
use std::fmt;

/// What was told last of a node's role.
#[derive(Drop)]
pub struct RoleNotice {
    told: Role,
}

impl RoleNotice {
    /// Nothing is told of a master that begins.
    pub fn new() -> RoleNotice {
        RoleNotice { told: Role::Master }
    }

    /// Tells of the node's role where that is another: that it is a master, that it follows a master's stream, or that it doesn't any
    /// more, or not yet.
    pub fn look(&mut self, notices: &mut Notices, node: &Node) {
        let role = node.role();
        if role == self.told {
            return;
        }
        let streamed = follows_stream(self.told);
        self.told = role;
        match role {
            Role::Master => notices.tell(&format_args!("a master, at offset {}", offset_of(node))),
            Role::Connected => tell_stream(notices, node),
            Role::Connect | Role::Sync => {
                if streamed {
                    tell_apart(notices, node);
                }
            }
        }
    }
}

/// Whether it was told that the node has a stream: its own, or its master's.
fn follows_stream(role: Role) -> bool {
    match role {
        Role::Master | Role::Connected => true,
        Role::Connect | Role::Sync => false,
    }
}

/// Tells whose stream the node follows, and at which offset in bytes.
fn tell_stream(notices: &mut Notices, node: &Node) {
    let offset = offset_of(node);
    if let Some(address) = node.upstream() {
        notices.tell(&format_args!(
            "replica of {}, in its stream at offset {offset}",
            ShownAddress(address)
        ));
    }
}

/// Tells whom the node follows without being in its stream.
fn tell_apart(notices: &mut Notices, node: &Node) {
    if let Some(address) = node.upstream() {
        notices.tell(&format_args!("replica of {}, not in its stream", ShownAddress(address)));
    }
}

/// The offset that a node shows; 0 once it is stopped.
pub fn offset_of(node: &Node) -> u64 {
    match node.shows() {
        Some((_id, offset)) => offset,
        None => 0,
    }
}

/// A host and a port, as they are spelled in options. Of the host, which a client sent, no more is shown than of anything that others sent.
#[derive(Drop)]
pub struct ShownAddress<'a>(pub &'a Address);

impl fmt::Display for ShownAddress<'_> {
    fn fmt<W: fmt::Write>(&self, f: &mut fmt::Formatter<W>) -> fmt::Result {
        let host = Shown(self.0.host());
        let port = self.0.port();
        write!(f, "{host}:{port}")
    }
}
