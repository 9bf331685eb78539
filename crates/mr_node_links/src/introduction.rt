// What a replica said of itself.
ghost use Rattle.std.specs.Prelude.{◌≡◌, OnOk, OnErr, option_copied};
ghost use Rattle.mr_node_links.specs.Introductions.{IsShort, nothing_said, renewed, with_address, with_port};

use std::alloc::{AllocError, Global};
use std::marker::Model;

/// No port has more digits.
const PORT_DIGITS: usize = 5;

/// No host's name, and no spelling of an address, has more bytes.
const ADDRESS_BYTES: usize = 255;

/// What a client says of itself by REPLCONF before it asks for the stream, which ROLE shows. What is longer than a port or an
/// address can be isn't kept.
#[derive(Drop)]
pub struct Introduction {
    /// The port that it listens on, as it spelled it; none where it named none.
    port: Option<Vec<u8>>,
    /// Its address, as it spelled it; none where it named none.
    address: Option<Vec<u8>>,
}

impl Model for Introduction {
    ghost use Rattle.std.specs.Option.{option_map};
    ghost use Rattle.mr_node_links.specs.Introductions.{IsShort, Said, said_code};

    ghost Value = { Said };

    ghost coded = { said_code };

    ghost view = { λ i. record { port = option_map (λ text. text.items) i.port; address = option_map (λ text. text.items) i.address } };

    ghost invariant = { λ i. IsShort (record { port = option_map (λ text. text.items) i.port; address = option_map (λ text. text.items) i.address }) };
}

impl Introduction {
    /// It said nothing.
    pub fn none() -> Introduction
        ensures { result ≡ nothing_said }
    {
        Introduction {
            port: None,
            address: None,
        }
    }

    /// The port that it listens on, if it named one.
    pub fn port(&self) -> Option<&[u8]>
        ensures port { option_copied result ≡ self.now.port }
        ensures short { IsShort self.now }
    {
        match &self.port {
            None => None,
            Some(port) => Some(port.as_slice()),
        }
    }

    /// Its address, if it named one.
    pub fn address(&self) -> Option<&[u8]>
        ensures address { option_copied result ≡ self.now.address }
        ensures short { IsShort self.now }
    {
        match &self.address {
            None => None,
            Some(address) => Some(address.as_slice()),
        }
    }

    /// It names this port. One that is longer than a port can be isn't kept. Where memory is lacking nothing has changed.
    pub fn name_port(&mut self, alloc: Global, port: &[u8]) -> Result<(), AllocError>
        ensures ok { OnOk result (self.new ≡ with_port port.now self.old) }
        ensures err { OnErr result (self.new ≡ self.old) }
    {
        if port.len() > PORT_DIGITS {
            return Ok(());
        }
        self.port = Some(Vec::from_slice(alloc, port)?);
        Ok(())
    }

    /// It names this address. One that is longer than an address can be isn't kept. Where memory is lacking nothing has changed.
    pub fn name_address(&mut self, alloc: Global, address: &[u8]) -> Result<(), AllocError>
        ensures ok { OnOk result (self.new ≡ with_address address.now self.old) }
        ensures err { OnErr result (self.new ≡ self.old) }
    {
        if address.len() > ADDRESS_BYTES {
            return Ok(());
        }
        self.address = Some(Vec::from_slice(alloc, address)?);
        Ok(())
    }

    /// What is said later takes the place of what was said before.
    pub(crate) fn renew(&mut self, later: Introduction)
        ensures { self.new ≡ renewed later self.old }
    {
        let Introduction { port, address } = later;
        if port.is_some() {
            self.port = port;
        }
        if address.is_some() {
            self.address = address;
        }
    }
}
