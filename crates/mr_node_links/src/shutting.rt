// Ends that are closed together.
ghost use Rattle.std.specs.Prelude.{◌≡◌, [], ◌∷◌};
ghost use Rattle.mr_node_links.specs.Replicas.{ShutsNamed};

use crate::end::LinkEnd;
use mr_links::{LinkId, Links};

/// Closes the end of this name, if it is there.
fn shut_one(links: &mut Links<LinkEnd>, name: LinkId)
    ensures ends { ShutsNamed links.old.open_links (name ∷ []) links.new.open_links }
    ensures opened { links.new.opened ≡ links.old.opened }
{
    let Some(end) = links.get_mut(name) else {
        return;
    };
    end.shut();
}

/// Closes those of these names.
pub(crate) fn shut_all(links: &mut Links<LinkEnd>, names: &[LinkId])
    ensures ends { ShutsNamed links.old.open_links names.now links.new.open_links }
    ensures opened { links.new.opened ≡ links.old.opened }
{
    let mut rest = names;
    while let Some((name, later)) = rest.split_first() {
        shut_one(links, *name);
        rest = later;
    }
}
