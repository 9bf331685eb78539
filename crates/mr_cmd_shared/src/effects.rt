// Effects that own their words.
ghost use Rattle.std.specs.Prelude.{◌≡◌, [], ◌∷◌, ◌++◌, OnOk};

use mr_data::{Effect, Plan};
use mr_resp::Reply;
use std::alloc::{AllocError, Global};
use std::marker::Model;

/// The effects of a command so far, which own their words, seen as a list.
#[derive(Drop)]
pub struct Effects {
    items: Vec<Effect<'static>>,
}

impl Model for Effects {
    ghost use Rattle.std.specs.Prelude.{List};
    ghost use Rattle.mr_effect.specs.declared.effect.Effect.{Effect as Item};

    ghost Value = { List Item };

    ghost view = { λ a. a.items.items };
}

impl Effects {
    /// No effect. It takes no memory.
    pub fn new(alloc: Global) -> Effects
        ensures { result ≡ [] }
    {
        Effects {
            items: Vec::new(alloc),
        }
    }

    /// Where they take memory: a command takes its own there too.
    pub fn alloc(&self) -> Global {
        *self.items.allocator()
    }

    /// Puts an effect behind the others.
    pub fn push(&mut self, effect: Effect<'static>) -> Result<(), AllocError>
        ensures { OnOk result (self.new ≡ self.old ++ effect.entry ∷ []) }
    {
        self.items.push(effect)?;
        Ok(())
    }

    /// The plan with these effects.
    pub fn into_plan(self, reply: Reply) -> Plan
        ensures reply { result.reply ≡ reply }
        ensures effects { result.effects.items ≡ self }
    {
        Plan {
            reply,
            effects: self.items,
        }
    }
}
