// What a client asks about the node.
ghost use Rattle.std.specs.Prelude.{◌≡◌};
ghost use Rattle.mr_cmd_server.specs.Questions.{is_replication, question_of, section_question};

use crate::server_ask::ServerAsk;

/// What a client asks about the node itself, which alone knows it.
#[derive(Clone, Copy, Debug, PartialEq, Eq)]
pub enum Question {
    /// INFO, of its section on replication.
    Replication,
    /// INFO, of a section that isn't there.
    OtherSection,
    /// ROLE
    Role,
}

impl ServerAsk<'_, '_> {
    /// What the command asks about the node, if it does.
    pub fn question(&self) -> Option<Question>
        ensures { result ≡ question_of self.now }
    {
        match self {
            ServerAsk::Info { section: None } => Some(Question::Replication),
            ServerAsk::Info {
                section: Some(section),
            } => Some(section_question(section.as_slice())),
            ServerAsk::Role => Some(Question::Role),
            _ => None,
        }
    }
}

/// What INFO asks with this section: of replication, or of a section that isn't there.
fn section_question(section: &[u8]) -> Question
    ensures { result ≡ section_question section.now }
{
    if is_replication(section) {
        Question::Replication
    } else {
        Question::OtherSection
    }
}

/// Whether INFO tells of replication under this name, in any case.
fn is_replication(section: &[u8]) -> bool
    ensures { result ≡ is_replication section.now }
{
    section.eq_ignore_ascii_case(b"replication")
        || section.eq_ignore_ascii_case(b"all")
        || section.eq_ignore_ascii_case(b"default")
}
