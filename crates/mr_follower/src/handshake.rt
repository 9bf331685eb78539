ghost use Rattle.std.specs.Prelude.{◌≡◌, ◌++◌, ◌≤◌, ◌∷◌, [], OnOk, OnErr};
ghost use Rattle.mr_resp.specs.Spelling.{array};
ghost use Rattle.mr_follower.specs.Handshake.{ping_line, line_after, next_of, psync_line};
ghost use Rattle.mr_follower.specs.State.{IsOffer};

use crate::Phase;
use itoa::Buffer;
use mr_repl::ReplId;
use mr_resp::write_request;
use std::alloc::AllocError;

/// The first line of the handshake.
pub(crate) fn first_line() -> &'static [u8]
    ensures { result.now ≡ ping_line }
{
    b"*1\r\n$4\r\nPING\r\n"
}

/// What is waited for once the next line is sent.
pub(crate) fn next_phase(phase: Phase) -> Phase
    ensures { result ≡ next_of phase }
{
    match phase {
        Phase::Ping => Phase::Port,
        Phase::Port => Phase::Capabilities,
        Phase::Capabilities => Phase::Psync,
        Phase::Psync | Phase::Snapshot(_, _) | Phase::Stream => phase,
    }
}

/// Writes a request of three words.
fn push_three<'x>(
    first: &'x [u8],
    second: &'x [u8],
    third: &'x [u8],
    out: &mut Vec<u8>,
) -> Result<(), AllocError>
    ensures ok { OnOk result (out.new.items ≡
        out.old.items ++ array (first.now ∷ second.now ∷ third.now ∷ [])) }
    ensures err { OnErr result (out.new.items ≡ out.old.items) }
{
    write_request(&[first, second, third], out)
}

/// Puts out the next line of the handshake.
pub(crate) fn push_next(
    phase: Phase,
    port: u16,
    offer: Option<(ReplId, u64)>,
    out: &mut Vec<u8>,
) -> Result<(), AllocError>
    requires { IsOffer offer }
    ensures ok { OnOk result (out.new.items ≡ out.old.items ++ line_after phase port offer) }
    ensures err { OnErr result (out.new.items ≡ out.old.items) }
{
    let mut buffer = Buffer::new();
    match phase {
        Phase::Ping => {
            let port = buffer.format(port).as_bytes();
            push_three(b"REPLCONF", b"listening-port", port, out)
        }
        Phase::Port => write_request(&[b"REPLCONF", b"capa", b"eof", b"capa", b"psync2"], out),
        Phase::Capabilities => push_psync(offer, out),
        Phase::Psync | Phase::Snapshot(_, _) | Phase::Stream => Ok(()),
    }
}

/// Puts out what is asked for: the byte behind what the replica holds, or all.
fn push_psync(offer: Option<(ReplId, u64)>, out: &mut Vec<u8>) -> Result<(), AllocError>
    requires { IsOffer offer }
    ensures ok { OnOk result (out.new.items ≡ out.old.items ++ psync_line offer) }
    ensures err { OnErr result (out.new.items ≡ out.old.items) }
{
    let Some((id, offset)) = offer else {
        return push_three(b"PSYNC", b"?", b"-1", out);
    };
    let mut buffer = Buffer::new();
    let digits = id.digits();
    let wanted = buffer.format(offset + 1).as_bytes();
    push_three(b"PSYNC", &digits, wanted, out)
}
