// What a node gives out at the link to its master goes to its file and to that link: all of it, or nothing.
ghost use Rattle.std.specs.Prelude.{◌≡◌, OnOk, OnErr};
ghost use Rattle.law_refinement.specs.Carrying.{filed};
ghost use Rattle.mr_world_parts.specs.AtLink.{heard_by};
ghost use Rattle.mr_world_parts.specs.Memory.{TakesMemory};

use crate::carry::copied;
use crate::link::Link;
use crate::slot::Slot;
use mr_node_output::Outs;
use std::alloc::{AllocError, Global};

/// What a step at the link to its master gave out goes to the node's file and to that link: all of it, or nothing. So many bytes are left
/// unread there.
pub fn give_heard(
    alloc: Global,
    slot: &mut Slot,
    link: &mut Link,
    left: Option<usize>,
    outs: &Outs,
) -> Result<(), AllocError>
    ensures file { OnOk result (slot.new ≡
        record slot.old { file = filed outs.now slot.old.file }) }
    ensures link { OnOk result (link.new ≡ heard_by left outs.now.reply link.old) }
    ensures no_file { OnErr result (slot.new ≡ slot.old) }
    ensures no_link { OnErr result (link.new ≡ link.old) }
    ensures memory { OnErr result (TakesMemory outs.now) }
{
    let Ok(replaced) = copied(alloc, outs) else {
        return Err(AllocError);
    };
    if slot.append(outs.appended()).is_err() {
        return Err(AllocError);
    }
    if link.hear(outs.reply(), left).is_err() {
        slot.shorten(outs.appended().len());
        return Err(AllocError);
    }
    slot.replace(replaced);
    Ok(())
}
