//! What the story shows. No function here does anything.
ghost use Rattle.law_protocol.specs.Promises.{NoSilentDifference};
ghost use Rattle.law_protocol.specs.Runs.{Moments, nowhere};
ghost use Rattle.law_protocol_example.specs.LateAccept.{IsAnsweredLate};
ghost use Rattle.law_protocol_example.specs.LateAccept as late_accept;
ghost use Rattle.law_protocol_example.specs.Story.{EndsLevel, events, moments};
ghost use Rattle.law_protocol_example.specs.Tiny.{tiny};
ghost use Rattle.law_protocol_example.specs.Transfer.{ActsAtItsEnd};
ghost use Rattle.law_protocol_example.specs.Transfer as transfer;
ghost use Rattle.law_protocol_example.specs.Troubles.{EndsAnew};
ghost use Rattle.law_protocol_example.specs.Troubles as troubles;

use crate::Tiny;
use law_protocol::laws::no_silent_difference;

/// The story is a run: each of its moments follows from the one before by the row of its event.
pub fn a_return_is_a_run()
    ensures { Moments (nowhere tiny) events moments }
{}

/// At its end the old master, which goes on by the id before, has caught up with the new one.
pub fn a_return_ends_level()
    ensures { EndsLevel }
{}

/// Much goes wrong, and that is a run: a node restarts, ticks come, ends break, a replica turns to another host and leaves one that
/// refuses it, what a link may not ask shuts it, acknowledgements are noted, empty requests skipped, senseless ones answered by a
/// fault, a client says goodbye, a command passes the limit, and nodes stop.
pub fn trouble_is_a_run()
    ensures { Moments (nowhere tiny) troubles.events troubles.moments }
{}

/// At its end the node that stopped and started again shows its new id at offset 0, and nothing else.
pub fn trouble_ends_anew()
    ensures { EndsAnew }
{}

/// A client begins a transaction, two requests wait in it, and its end comes: that is a run.
pub fn a_transaction_is_a_run()
    ensures { Moments (nowhere tiny) transfer.events transfer.moments }
{}

/// Nothing of it shows before its end, and all of it at once then.
pub fn a_transaction_acts_at_its_end()
    ensures { ActsAtItsEnd }
{}

/// Links wait: one is accepted after a client's command, one after its replica has closed it, and one by the replica itself. That is a
/// run.
pub fn late_accepts_are_a_run()
    ensures { Moments (nowhere tiny) late_accept.events late_accept.moments }
{}

/// Of the command nothing is sent on the link that waits; the line that stands on it is answered once the master has accepted it.
pub fn a_late_accept_is_answered()
    ensures { IsAnsweredLate }
{}

/// The headline of every language is that of the tiny one.
pub fn the_tiny_never_differ_silently()
    ensures { NoSilentDifference tiny }
{
    no_silent_difference::<Tiny>()
}
