// Commands to the server itself, with their arguments.
use mr_arguments::{Argument, Words};

/// A command to the server itself, with its arguments.
#[derive(Drop)]
pub enum ServerAsk<'a, 't> {
    /// `PING [message]`
    Ping {
        message: Option<Argument<'a>>,
    },
    /// `ECHO message`
    Echo {
        message: Argument<'a>,
    },
    /// `SELECT 0`
    Select,
    /// `QUIT`
    Quit,
    /// `BGREWRITEAOF`
    BgRewriteAof,
    /// `INFO [section]`
    Info {
        section: Option<Argument<'a>>,
    },
    /// `ROLE`
    Role,
    /// `SHUTDOWN [SAVE|NOSAVE]`
    Shutdown {
        saving: Option<Saving>,
    },
    /// `COMMAND [argument ..]`
    Command {
        arguments: Words<'a, 't>,
    },
    /// `CLIENT SETNAME name`
    ClientSetName {
        name: Argument<'a>,
    },
    /// `CLIENT SETINFO attribute value`
    ClientSetInfo {
        attribute: Argument<'a>,
        value: Argument<'a>,
    },
}

/// Whether a dataset is to be saved before the program ends. It is read and says nothing: what is to be kept is in the append-only
/// file already.
#[derive(Clone, Copy, Debug, PartialEq, Eq)]
pub enum Saving {
    /// `SAVE`
    First,
    /// `NOSAVE`
    Never,
}
