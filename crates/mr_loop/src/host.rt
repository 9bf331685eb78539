use crate::links::Links;
use crate::moment::Moment;
use mr_aof::Log;
use mr_file::LogFile;
use mr_node::Node;
use mr_source::Source;
use mr_wire::Wire;

/// What a turn acts on: a node with its connections and where time and chance come from, and the devices, a wire and a file.
#[derive(Drop)]
pub(crate) struct Host<'n, 'd, W: Wire, F: LogFile, S: Source> {
    pub(crate) node: &'n mut Node,
    pub(crate) own: &'n mut Links,
    pub(crate) source: &'n mut S,
    pub(crate) wire: &'d mut W,
    pub(crate) log: &'d mut Log<F>,
    pub(crate) moment: Moment,
}
