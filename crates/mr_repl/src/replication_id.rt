ghost use Rattle.std.specs.Prelude.{◌≡◌, ◌≢◌, ◌↔◌, ℕ, List, Some, IsTrue, IfSome, IfNone};
ghost use Rattle.mr_repl.specs.ReplId.{IsId, digits_of, id_of_number, zero_id};

use hex::{decode_to_slice, encode_to_slice};
use std::fmt;
use std::marker::Model;

/// A replication id: twenty bytes, which name a stream and its history. Its text is forty lower-case
/// hexadecimal digits.
#[derive(Clone, Copy, Debug, PartialEq, Eq, PartialOrd, Ord)]
pub struct ReplId {
    bytes: [u8; 20],
}

impl Model for ReplId {
    ghost use Rattle.std.specs.Prelude.{ℕ, List};
    ghost use Rattle.mr_repl.specs.ReplId.{IsId};

    ghost Value = { List ℕ };

    ghost view = { λ id. id.bytes };

    ghost invariant = { λ id. IsId id.bytes };

    ghost inverse = { λ bytes. record { bytes = bytes } };
}

impl ReplId {
    /// The id of these bytes.
    pub fn new(bytes: [u8; 20]) -> ReplId
        ensures value { result ≡ bytes }
        ensures id { IsId result }
    {
        ReplId { bytes }
    }

    /// The id whose forty digits are zeros, which stands for none.
    pub fn zeros() -> ReplId
        ensures { result ≡ zero_id }
    {
        ReplId::new([0; 20])
    }

    /// The id whose forty digits are the number `n`, with zeros before it.
    pub fn numbered(n: u64) -> ReplId
        ensures { result ≡ id_of_number n }
    {
        let mut bytes = [0; 20];
        bytes[12..].copy_from_slice(&n.to_be_bytes());
        ReplId::new(bytes)
    }

    /// Reads an id's forty digits. Upper-case digits are refused.
    pub fn read(text: &[u8]) -> Option<ReplId>
        ensures some { IfSome result (λ id. digits_of id ≡ text.now) }
        ensures id { IfSome result IsId }
        ensures none { IfNone result ((id : List ℕ) → IsId id → digits_of id ≢ text.now) }
    {
        let mut bytes = [0; 20];
        if decode_to_slice(text, &mut bytes).is_err() {
            return None;
        }
        let id = ReplId::new(bytes);
        let digits = id.digits();
        if digits.as_slice() == text {
            Some(id)
        } else {
            None
        }
    }

    /// The id's bytes.
    pub fn bytes(&self) -> &[u8; 20]
        ensures value { result.now ≡ self.now }
        ensures id { IsId self.now }
    {
        &self.bytes
    }

    /// The id's text: forty lower-case hexadecimal digits.
    pub fn digits(&self) -> [u8; 40]
        ensures { result ≡ digits_of self.now }
    {
        let mut text = [0; 40];
        match encode_to_slice(self.bytes.as_slice(), &mut text) {
            Ok(()) => text,
            Err(_error) => unreachable!(),
        }
    }

    /// Whether this is the id of zeros.
    pub fn is_zeros(&self) -> bool
        ensures { IsTrue result ↔ (self.now ≡ zero_id) }
    {
        self.bytes == [0; 20]
    }
}

impl fmt::Display for ReplId {
    ghost output = { λ id. Some (digits_of id) };

    fn fmt<W: fmt::Write>(&self, f: &mut fmt::Formatter<W>) -> fmt::Result {
        let digits = self.digits();
        match str::from_utf8(&digits) {
            Ok(text) => f.write_str(text),
            Err(_error) => unreachable!(),
        }
    }
}
