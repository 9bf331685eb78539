// What is written in answer to a line.
ghost use Rattle.std.specs.Prelude.{◌≡◌, ◌++◌, OnOk, OnErr};
ghost use Rattle.std.specs.Fmt.{decimal};
ghost use Rattle.mr_resp.specs.Appends.{Extends};
ghost use Rattle.mr_world_script.specs.Answers.{answer_line, answer_text, is_plain, numbered, printed, printed_byte, state_text};

use hex::encode_to_slice;
use itoa::Buffer;
use mr_repl::ReplId;
use std::alloc::AllocError;

/// What a line is answered.
#[derive(Clone, Copy)]
pub enum ScriptAnswer<'a> {
    /// A node came, with this number.
    Node(usize),
    /// A link came, with this number.
    Link(usize),
    /// The event was accepted.
    Done,
    /// The event was refused, for the cause with this number.
    Refused(u8),
    /// The line is no line of a script.
    Bad,
    /// The node has this id, and this offset in its stream.
    Shows {
        node: usize,
        id: ReplId,
        offset: u64,
    },
    /// The node is stopped.
    Stopped {
        node: usize,
    },
    /// The client took these bytes.
    Bytes(&'a [u8]),
}

impl<'a> ScriptAnswer<'a> {
    /// Appends the answer on a line of its own. An `Err` changes nothing.
    #[tactic(auto, using(mr_resp::proofs::AppendsLemmas::take_Extends))]
    pub fn write(&self, out: &mut Vec<u8>) -> Result<(), AllocError>
        ensures ok { OnOk result (out.new.items ≡ out.old.items ++ answer_line self.now) }
        ensures err { OnErr result (out.new.items ≡ out.old.items) }
    {
        let start = out.len();
        let written = push_line(self, out);
        if written.is_err() {
            out.truncate(start);
        }
        written
    }
}

/// Appends the answer and a line feed.
#[tactic(auto, unfolding(crate::specs::Answers::answer_line))]
fn push_line(answer: &ScriptAnswer<'_>, out: &mut Vec<u8>) -> Result<(), AllocError>
    ensures ok { OnOk result (out.new.items ≡ out.old.items ++ answer_line answer.now) }
    ensures kept { Extends out.old.items out.new.items }
{
    push_text(answer, out)?;
    out.push(b'\n')?;
    Ok(())
}

/// Appends the text of the answer.
fn push_text(answer: &ScriptAnswer<'_>, out: &mut Vec<u8>) -> Result<(), AllocError>
    ensures ok { OnOk result (out.new.items ≡ out.old.items ++ answer_text answer.now) }
    ensures kept { Extends out.old.items out.new.items }
{
    match answer {
        ScriptAnswer::Node(node) => push_numbered(b"node", *node, out),
        ScriptAnswer::Link(link) => push_numbered(b"link", *link, out),
        ScriptAnswer::Done => out.extend_from_slice(b"ok"),
        ScriptAnswer::Refused(cause) => push_numbered(b"refused", usize::from(*cause), out),
        ScriptAnswer::Bad => out.extend_from_slice(b"bad line"),
        ScriptAnswer::Shows { node, id, offset } => push_shown(*node, *id, *offset, out),
        ScriptAnswer::Stopped { node } => {
            push_number(*node as u64, out)?;
            out.extend_from_slice(b" stopped")
        }
        ScriptAnswer::Bytes(bytes) => push_printed(bytes, out),
    }
}

/// Appends a word, a space and a number.
fn push_numbered(word: &[u8], number: usize, out: &mut Vec<u8>) -> Result<(), AllocError>
    ensures ok { OnOk result (out.new.items ≡ out.old.items ++ numbered word.now number) }
    ensures kept { Extends out.old.items out.new.items }
{
    out.extend_from_slice(word)?;
    out.push(b' ')?;
    push_number(number as u64, out)
}

/// Appends a number.
fn push_number(number: u64, out: &mut Vec<u8>) -> Result<(), AllocError>
    ensures ok { OnOk result (out.new.items ≡ out.old.items ++ decimal number) }
    ensures kept { Extends out.old.items out.new.items }
{
    let mut buffer = Buffer::new();
    out.extend_from_slice(buffer.format(number).as_bytes())
}

/// Appends the state of a node: its number, the digits of its id, and its offset.
fn push_shown(node: usize, id: ReplId, offset: u64, out: &mut Vec<u8>) -> Result<(), AllocError>
    ensures ok { OnOk result (out.new.items ≡ out.old.items ++ state_text node id offset) }
    ensures kept { Extends out.old.items out.new.items }
{
    push_number(node as u64, out)?;
    out.push(b' ')?;
    out.extend_from_slice(&id.digits())?;
    out.push(b' ')?;
    push_number(offset, out)
}

/// Appends bytes as they are printed.
#[tactic(auto, using(mr_resp::proofs::AppendsLemmas::Extends_steps), unfolding(crate::specs::Answers::printed))]
fn push_printed(bytes: &[u8], out: &mut Vec<u8>) -> Result<(), AllocError>
    ensures ok { OnOk result (out.new.items ≡ out.old.items ++ printed bytes.now) }
    ensures kept { Extends out.old.items out.new.items }
{
    for byte in bytes {
        push_printed_byte(*byte, out)?;
    }
    Ok(())
}

/// Appends a byte as it is printed.
fn push_printed_byte(byte: u8, out: &mut Vec<u8>) -> Result<(), AllocError>
    ensures ok { OnOk result (out.new.items ≡ out.old.items ++ printed_byte byte) }
    ensures kept { Extends out.old.items out.new.items }
{
    if is_plain(byte) {
        out.push(byte)?;
        return Ok(());
    }
    let mut digits = [0; 2];
    match encode_to_slice([byte].as_slice(), &mut digits) {
        Ok(()) => {
            out.extend_from_slice(b"\\x")?;
            out.extend_from_slice(&digits)
        }
        Err(_error) => unreachable!(),
    }
}

/// Whether a byte is printed as it is.
fn is_plain(byte: u8) -> bool
    ensures { result ≡ is_plain byte }
{
    byte >= b' ' && byte <= b'~' && byte != b'\\'
}
