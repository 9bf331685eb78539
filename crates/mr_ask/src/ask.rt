// Commands with their arguments.
use mr_cmd_hash::HashAsk;
use mr_cmd_key::KeyAsk;
use mr_cmd_list::ListAsk;
use mr_cmd_node::NodeAsk;
use mr_cmd_server::ServerAsk;
use mr_cmd_set::SetAsk;
use mr_cmd_string::TextAsk;
use mr_cmd_zset::ZSetAsk;

/// A command with its arguments, which are borrowed from the request; by its kind, so that what serves the commands of one kind
/// takes a type of its own.
#[derive(Drop)]
pub enum Ask<'a, 't> {
    /// On strings.
    Texts(TextAsk<'a, 't>),
    /// On keys, whatever they hold.
    Keys(KeyAsk<'a, 't>),
    Hashes(HashAsk<'a, 't>),
    Lists(ListAsk<'a, 't>),
    Sets(SetAsk<'a, 't>),
    SortedSets(ZSetAsk<'a, 't>),
    /// To the server itself.
    Server(ServerAsk<'a, 't>),
    /// To the node: of its replicas, and whom it follows.
    Node(NodeAsk<'a, 't>),
}
