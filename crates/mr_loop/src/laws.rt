// What holds of the definitions.
ghost use Rattle.mr_loop.specs.Counting.{KnowsShutdown};
ghost use Rattle.mr_loop.specs.Giving.{TakesEachOnce};
ghost use Rattle.mr_loop.specs.Hearing.{TellsNothingElse, TellsWhatCame};
ghost use Rattle.mr_loop.specs.Outcomes.{TurnsGoForward, TurnsTakeEachOnce};
ghost use Rattle.mr_loop.specs.Sent.{GoesOutInOrder, HaveSocketsAlways, HaveSocketsFirst, IsSentOnceFiled, IsSilentBehindFaults, SendsNothingElse, WireHasWhatIsSent};

/// What was moved on a connection is a beginning of what waited there and of what the node sent on its link, in order; the rest waits.
pub fn what_is_sent_goes_out_in_order()
    ensures { GoesOutInOrder }
{}

/// As bytes are moved to a peer, the node gave them out before, and the file has the texts of all that it gave out by then; with `Always`
/// all of the file is synced then, as soon as anything has gone into it.
pub fn what_is_sent_is_filed()
    ensures { IsSentOnceFiled }
{}

/// A turn that meets a fault sends nothing behind it.
pub fn nothing_is_sent_behind_a_fault()
    ensures { IsSilentBehindFaults }
{}

/// Each connection has an open link of the wire: so it is where there is none, and so it stays.
pub fn connections_have_sockets()
    ensures first { HaveSocketsFirst }
    ensures always { HaveSocketsAlways }
{}

/// What a wire that tells its bytes moved on a connection, with what waits there, is what it had moved, what waited, and what the
/// node sent since.
pub fn the_wire_has_what_is_sent()
    ensures { WireHasWhatIsSent }
{}

/// All that a wire which tells its bytes has sent, on links that are closed since too, is what it had sent and what the writes of the
/// events moved.
pub fn nothing_else_is_sent()
    ensures { SendsNothingElse }
{}

/// The loop holds that a client said SHUTDOWN where one did at a step, or where it held so before.
pub fn shutdown_is_known()
    ensures { KnowsShutdown }
{}

/// Calls that are given ids one after another take them in their order, each once, and the others are left. Of the ids that a source
/// that tells them gave in many turns, those that they took are some, in their order.
pub fn ids_are_taken_once()
    ensures calls { TakesEachOnce }
    ensures turns { TurnsTakeEachOnce }
{}

/// The moments that a source tells in many turns are those of their beginnings, their steps and their ticks, each told for one of them, in
/// order, and none goes back.
pub fn moments_never_go_back()
    ensures { TurnsGoForward }
{}

/// A step at the link to the master is counted as what the node's follower made of it, and one at another link isn't counted as such.
pub fn what_came_is_counted()
    ensures came { TellsWhatCame }
    ensures nothing { TellsNothingElse }
{}
