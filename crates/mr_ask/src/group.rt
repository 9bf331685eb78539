// What commands are about.
ghost use Rattle.std.specs.Prelude.{◌≡◌};
ghost use Rattle.mr_ask.specs.Asks.{group_of};

use crate::ask::Ask;

/// What a command is about.
#[derive(Clone, Copy, Debug, PartialEq, Eq)]
pub enum Group {
    /// Strings, and keys whatever they hold.
    Keys,
    /// Hashes, lists, sets and sorted sets.
    Collections,
    /// The server itself, or the node. No key is looked at.
    Server,
}

impl Ask<'_, '_> {
    /// What the command is about.
    pub fn group(&self) -> Group
        ensures { result ≡ group_of self.now }
    {
        match self {
            Ask::Texts(_) | Ask::Keys(_) => Group::Keys,
            Ask::Hashes(_) | Ask::Lists(_) | Ask::Sets(_) | Ask::SortedSets(_) => {
                Group::Collections
            }
            Ask::Server(_) | Ask::Node(_) => Group::Server,
        }
    }
}
