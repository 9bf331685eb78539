// The text of a group.
ghost use Rattle.std.specs.Prelude.{◌≡◌, ◌++◌, ◌∷◌, [], OnErr, OnOk};
ghost use Rattle.mr_resp.specs.Appends.{Extends};
ghost use Rattle.mr_resp.specs.Spelling.{array};
ghost use Rattle.mr_effect.specs.Spelling.{texts};
ghost use Rattle.mr_groups.specs.Groups.{IsGroup, group_text, multi, exec};

use mr_data::{Effect, encode, encode_all};
use mr_resp::push_request;
use std::alloc::AllocError;

/// How many bytes stand round the effects' texts in the text of a group of several.
pub const FRAME: u64 = 29;

/// The text that begins a frame.
#[tactic(auto, unfolding(crate::specs::Groups::multi))]
pub fn multi_text() -> &'static [u8]
    ensures { result.now ≡ multi }
{
    b"*1\r\n$5\r\nMULTI\r\n"
}

/// The text that ends one.
#[tactic(auto, unfolding(crate::specs::Groups::exec))]
pub fn exec_text() -> &'static [u8]
    ensures { result.now ≡ exec }
{
    b"*1\r\n$4\r\nEXEC\r\n"
}

/// Appends a request of one word.
fn push_one(word: &[u8], out: &mut Vec<u8>) -> Result<(), AllocError>
    ensures ok { OnOk result (out.new.items ≡ out.old.items ++ array (word.now ∷ [])) }
    ensures kept { Extends out.old.items out.new.items }
{
    push_request(&[word], out)
}

/// Appends the texts of effects in their frame.
#[tactic(auto, using(crate::proofs::Framing::steps), unfolding(crate::specs::Groups::multi, crate::specs::Groups::exec))]
fn push_framed(effects: &[Effect<'_>], out: &mut Vec<u8>) -> Result<(), AllocError>
    ensures ok { OnOk result (out.new.items ≡
        out.old.items ++ (multi ++ (texts effects.now ++ exec))) }
    ensures kept { Extends out.old.items out.new.items }
{
    push_one(b"MULTI", out)?;
    encode_all(effects, out)?;
    push_one(b"EXEC", out)
}

/// Appends the text of a group. An `Err` changes nothing.
#[tactic(auto, using(mr_resp::proofs::AppendsLemmas::take_Extends))]
pub fn encode_group(effects: &[Effect<'_>], out: &mut Vec<u8>) -> Result<(), AllocError>
    requires { IsGroup effects.now }
    ensures ok { OnOk result (out.new.items ≡ out.old.items ++ group_text effects.now) }
    ensures err { OnErr result (out.new.items ≡ out.old.items) }
{
    if let [effect] = effects {
        return encode(effect, out);
    }
    let start = out.len();
    let written = push_framed(effects, out);
    if written.is_err() {
        out.truncate(start);
    }
    written
}
