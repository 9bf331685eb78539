//! How many descriptors there are, and for how many links.
ghost use Rattle.std.specs.Prelude.{◌≡◌};
ghost use Rattle.mr_wire.specs.Room.{most_links};

use libc::types::rlimit;

/// So many descriptors no peer's link takes: those of a server's streams, its file and its listener, and what it dials with.
const KEPT: u64 = 32;

/// How many descriptors the process may have, where the system tells.
pub fn descriptor_limit() -> Option<u64> {
    let mut limit = rlimit {
        rlim_cur: 0,
        rlim_max: 0,
    };
    if libc::getrlimit(libc::RLIMIT_NOFILE, &mut limit) == 0 {
        return Some(limit.rlim_cur);
    }
    None
}

/// How many peers may have a link at once where so many are to: fewer where some of so many descriptors are kept, and always one.
pub fn most_links(wanted: usize, descriptors: Option<u64>) -> usize
    ensures { result ≡ most_links wanted descriptors }
{
    let Some(count) = descriptors else {
        return wanted;
    };
    let free = count.saturating_sub(KEPT) as usize;
    wanted.min(free).max(1)
}
