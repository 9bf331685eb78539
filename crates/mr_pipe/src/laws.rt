// What holds of the definitions.
ghost use Rattle.mr_pipe.specs.Folding.{FilesFold, FilesFoldTorn, FilesStaySynced};
ghost use Rattle.mr_pipe.specs.Roles.{ReplicaLinksAreSilent, ReplicaLinksEndSilently, ReplicasOnlyRewrite};
ghost use Rattle.mr_pipe.specs.Transactions.{OpenTransactionsWait, TransactionsLoadWhole};

/// Where a file's bytes make the dataset with which a pipe begins, group by group, at its end they make the dataset of the pipe's
/// node so, also where the file was written anew. After a fault at most the texts of the last step are torn.
pub fn files_fold()
    ensures whole { FilesFold }
    ensures torn { FilesFoldTorn }
{}

/// Where each append is synced, and all bytes of the file were when a pipe began, all are at its end.
pub fn files_stay_synced()
    ensures { FilesStaySynced }
{}

/// Where the node of a pipe is a replica, no request changes its dataset or puts something behind its stream or its file. The file is
/// replaced where the client asks for it, by what makes the dataset again.
pub fn replicas_only_rewrite()
    ensures { ReplicasOnlyRewrite }
{}

/// Once the link of a pipe is a replica's, nothing that comes there is answered, and neither the node nor its file changes.
pub fn replica_links_are_silent()
    ensures steps { ReplicaLinksAreSilent }
    ensures ends { ReplicaLinksEndSilently }
{}

/// While a transaction is open, no request changes the node, its stream or its file: what waits is done at EXEC, or never.
pub fn open_transactions_wait()
    ensures { OpenTransactionsWait }
{}

/// Where the file failed at what was to be put there at EXEC, what is loaded of it is the dataset before EXEC or the one behind it: all
/// that waited, or nothing.
pub fn transactions_load_whole()
    ensures { TransactionsLoadWhole }
{}
