//! How the system is asked to look after silent peers.
ghost use Rattle.std.specs.Prelude.{◌≡◌, max, ◌/◌};
ghost use Rattle.libc.specs.Net.{SockOption};

use libc::net as c;

/// The longest silence that the system knows, in seconds.
const LONGEST: u64 = 32_767;

/// A peer that leaves so many probes without an answer is gone.
const PROBES: u32 = 3;

/// How many of an option's bytes hold its number.
const NUMBER_BYTES: usize = 4;

/// Sets an option of a socket to a number. Whether it could.
fn set(socket: i32, level: i32, option: i32, number: u32) -> bool
    requires { SockOption level option }
{
    let mut value = [0u8; 16];
    value[..NUMBER_BYTES].copy_from_slice(&number.to_ne_bytes());
    unsafe { c::setsockopt(socket, level, option, &value, NUMBER_BYTES as u32) == 0 }
}

/// So many seconds are between two probes of a peer that was silent for so many: a third, and at least one.
fn between(silence: u32) -> u32
    ensures { result ≡ max (silence / 3) 1 }
{
    (silence / PROBES).max(1)
}

/// Has the system probe the peer of a socket once it was silent for so many seconds, and fail the link where no probe is answered. A
/// longer silence than the system knows counts as the longest. Whether it will.
pub(crate) fn probe_after(socket: i32, seconds: u64) -> bool {
    let silence = seconds.min(LONGEST) as u32;
    set(socket, c::SOL_SOCKET, c::SO_KEEPALIVE, 1)
        && set(socket, c::IPPROTO_TCP, c::TCP_KEEPIDLE, silence)
        && set(socket, c::IPPROTO_TCP, c::TCP_KEEPINTVL, between(silence))
        && set(socket, c::IPPROTO_TCP, c::TCP_KEEPCNT, PROBES)
}
