// Whom a node follows, or nobody.
ghost use Rattle.std.specs.Prelude.{◌≡◌, true};
ghost use Rattle.mr_node_state.specs.Parts.{HasOne, Obeys, promoted_as, shut_one, turned_to};

use crate::state::State;
use mr_links::LinkId;
use mr_node_links::Ends;
use mr_node_output::Address;
use mr_repl::ReplId;

impl State {
    /// The node is a master from now on. The end of the link to its master is closed, and its stream goes on under a fresh id.
    pub fn promote(&mut self, fresh: ReplId)
        ensures { self.new ≡ promoted_as fresh self.old }
    {
        shut_one(&mut self.ends, self.course.name());
        self.course.promote(fresh);
        self.upstream = None;
        self.mark = None;
    }

    /// A replica is to follow another. The end of the link to its master is closed.
    pub fn turn(&mut self, address: Address)
        ensures { self.new ≡ turned_to address self.old }
    {
        shut_one(&mut self.ends, self.course.name());
        self.course.leave();
        self.upstream = Some(address);
    }

    /// A master becomes a replica, which is to follow this one and has its stream to continue. Its replicas' links are closed.
    pub fn obey(&mut self, address: Address)
        requires { self.old.core.master ≡ true }
        ensures { Obeys self.old address self.new }
    {
        self.ends.shut_replicas();
        self.course.obey();
        self.upstream = Some(address);
        self.mark = None;
    }
}

/// Closes the end of this name, if there is one.
fn shut_one(ends: &mut Ends, name: Option<LinkId>)
    requires { HasOne name ends.old }
    ensures { ends.new ≡ shut_one name ends.old }
{
    let Some(name) = name else {
        return;
    };
    ends.shut(name);
}
