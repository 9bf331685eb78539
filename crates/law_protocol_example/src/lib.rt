//! For tests: that there are runs. A tiny language, and four runs told in it, event by event: a snapshot, a stream, a promotion, and a
//! return of the old master that goes on from where it stands; one in which much goes wrong; one with a transaction; and one in which
//! links wait to be accepted.
#![tactic(auto)]

ghost use Rattle.law_protocol_example.specs.Tiny.{tiny};
ghost use Rattle.law_protocol_example.specs.TinyLaws.{tiny_laws};

use law_protocol::Replicated;

pub mod laws;

/// Numbers in front of a list.
pub struct Tiny;

impl Replicated for Tiny {
    ghost language = { tiny };

    ghost laws = { tiny_laws };
}
