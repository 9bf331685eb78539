// Turns one after another.
ghost use Rattle.std.specs.Prelude.{◌≡◌, [], OnOk, false, true, IsErrOf};
ghost use Rattle.mr_loop.specs.Hosts.{FileGoes};
ghost use Rattle.mr_loop.specs.Stage.{stage};
ghost use Rattle.mr_loop.specs.Outcomes.{Serves, Turns};
ghost use Rattle.mr_loop.specs.Quiet.{AllWait};

use crate::fault::LoopFault;
use crate::links::Links;
use crate::told::Turn;
use crate::turning::turn;
use crate::watch::Watch;
use mr_aof::Log;
use mr_file::LogFile;
use mr_node::Node;
use mr_source::Source;
use mr_wire::Wire;

/// As many turns as who watches wants, or fewer where one meets a fault, or in one a client asks that the program end. That is the last.
pub fn serve<W: Wire, F: LogFile, S: Source, V: Watch<W, F>>(
    node: &mut Node,
    links: &mut Links,
    wire: &mut W,
    log: &mut Log<F>,
    source: &mut S,
    watch: &mut V,
) -> Result<(), LoopFault>
    requires filed { links.old.batch ≡ [] }
    requires runs { links.old.halted ≡ false }
    requires up { node.old.core.up ≡ true }
    ensures went { Serves W.tells log.old.mode (V.turns watch.old) result (S.drawn source.old)
        (S.drawn source.new)
        (stage node.old links.old (W.links wire.old) (W.failures wire.old) (F.told log.old.file)
        (F.synced log.old.file))
        (stage node.new links.new (W.links wire.new) (W.failures wire.new) (F.told log.new.file)
        (F.synced log.new.file)) }
    ensures device { IsErrOf result LoopFault.File → log.new.broken ≡ true }
    ensures goes { FileGoes F.failures log.old log.new }
    ensures written { OnOk result (links.new.batch ≡ []) }
    ensures quiet { AllWait node.old → OnOk result (AllWait node.new) }
{
    for _ in 0..watch.turns() {
        let told = turn_watched(node, links, wire, log, source, watch)?;
        if told.halted {
            return Ok(());
        }
    }
    Ok(())
}

/// One turn, at which is looked then.
fn turn_watched<W: Wire, F: LogFile, S: Source, V: Watch<W, F>>(
    node: &mut Node,
    links: &mut Links,
    wire: &mut W,
    log: &mut Log<F>,
    source: &mut S,
    watch: &mut V,
) -> Result<Turn, LoopFault>
    requires filed { links.old.batch ≡ [] }
    requires runs { links.old.halted ≡ false }
    requires up { node.old.core.up ≡ true }
    ensures went { Turns W.tells log.old.mode [] (S.drawn source.old) (S.drawn source.new) result
        (stage node.old links.old (W.links wire.old) (W.failures wire.old) (F.told log.old.file)
        (F.synced log.old.file))
        (stage node.new links.new (W.links wire.new) (W.failures wire.new) (F.told log.new.file)
        (F.synced log.new.file)) }
    ensures written { OnOk result (links.new.batch ≡ []) }
    ensures mode { log.new.mode ≡ log.old.mode }
    ensures device { IsErrOf result LoopFault.File → log.new.broken ≡ true }
    ensures goes { FileGoes F.failures log.old log.new }
    ensures quiet { AllWait node.old → OnOk result (AllWait node.new) }
    ensures up { OnOk result (node.new.core.up ≡ true) }
{
    let told = turn(node, links, wire, log, source)?;
    watch.look(told, node, links, wire, log.file());
    Ok(told)
}
