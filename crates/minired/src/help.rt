//! What the program says of itself.
use mr_options::Question;

/// What it is, and its version.
const VERSION: &str = "minired 0.1.0";

/// Its words, and their usual values.
const HELP: &str = "\
minired: an in-memory data structure server in the manner of Redis

usage: minired serve --port P [--aof PATH] [--sync always|no] [--turns N]
                     [--backlog N] [--replicaof HOST:PORT] [--bind A]
                     [--repl-timeout N] [--timeout N] [--tcp-keepalive N]
                     [--maxclients N]
       minired pipe [--aof PATH] [--id H] [--now N] [--word N]
       minired trio
       minired world [--backlog N]
       minired --help | --version

minired serve  answers clients over RESP2, until one says SHUTDOWN
  --port P     the port, from 1 to 65535; there is no usual one
  --aof PATH   the append-only file that keeps the dataset; usually none: it is in memory alone
  --sync MODE  always: a write is on the disk before its answer; no: the system puts it there later; usually always
  --turns N    it ends behind so many turns of its loop; usually 1000000000000
  --backlog N  so many bytes of its stream it keeps for its replicas, from 1 to 1073741824; usually 1048576
  --replicaof HOST:PORT
               the node that it begins as a replica of; usually none: it begins as a master
  --bind A     the IPv4 address that it listens on; who reaches it is asked for no password; usually 127.0.0.1
  --repl-timeout N
               a master, and a replica, is given up once it is silent for so many seconds, from 11 to 86400: a healthy
               master may be silent for 10; usually 60
  --timeout N  a client is closed that asks nothing and takes nothing for so many seconds, from 0 to 2147483647; 0: none
               is; usually 0
  --tcp-keepalive N
               the system asks for a peer that was silent for so many seconds, from 0 to 32767, and fails its link where
               three times nobody answers; 0: it asks for none; usually 300
  --maxclients N
               so many clients may have a link at once, from 1 to 1000000, and at most 32 less than `ulimit -n` says;
               usually 1000000

minired pipe   answers one client on standard input and output, until the input ends; so does minired without a word
  --aof PATH   the append-only file that keeps the dataset; usually none: it is in memory alone
  --id H       the name of the stream, 40 lower-case hexadecimal digits; usually 40 times a
  --now N      the time that all commands see, in milliseconds from 0 to 2305843009213693952; usually 0
  --word N     the number that stands for chance, from 0 to 18446744073709551615; usually 0

minired trio   three nodes that may follow one another, and a client: it asks what the lines of standard input say, as
               `2 REPLICAOF node 1`, and tells the bytes of each reply, and at the end what each node is

minired world  nodes and the links between them, of which all that happens stands on standard input, an event a line, as
               `deliver 0 b 27`; each is answered by a line, and none goes over a network
  --backlog N  so many bytes of its stream each node keeps for its replicas, from 1 to 1073741824; usually 1048576
";

/// Answers a question about the program on standard output. It answers whether that could be written.
pub fn answer(rt: &HostRuntime, question: Question) -> bool {
    match question {
        Question::Help => print!(rt; "{HELP}").is_ok(),
        Question::Version => println!(rt; "{VERSION}").is_ok(),
    }
}
