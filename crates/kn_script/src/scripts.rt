use kn_base::Sizes;
use kn_graph::Call;
use kn_layout::Layout;
use kn_lines::OrderWord;
use std::marker::Model;

/// The calls of one thread, in order. Contracts see the list of them.
#[derive(Drop)]
pub struct Calls {
    calls: Vec<Call>,
}

impl Model for Calls {
    ghost use Rattle.std.specs.Prelude.{List};
    ghost use Rattle.kn_graph.specs.declared.calls.Call.{Call};

    ghost Value = { List Call };

    ghost view = { λ calls. calls.calls.items };
}

ghost use Rattle.std.specs.Prelude.{◌≡◌, ◌++◌, [], ◌∷◌, IfOk};

use std::alloc::{AllocError, Global};

impl Calls {
    pub fn new(alloc: Global) -> Calls
        ensures { result ≡ [] }
    {
        Calls {
            calls: Vec::new(alloc),
        }
    }

    pub fn push(&mut self, call: Call) -> Result<(), AllocError>
        ensures { IfOk result (λ _. self.new ≡ self.old ++ call ∷ []) }
    {
        self.calls.push(call)?;
        Ok(())
    }

    pub fn from_vec(calls: Vec<Call>) -> Calls
        ensures { result ≡ calls.items }
    {
        Calls { calls }
    }

    pub fn into_vec(self) -> Vec<Call>
        ensures { result.items ≡ self }
    {
        let Calls { calls } = self;
        calls
    }

    pub fn as_slice(&self) -> &[Call]
        ensures { result.now ≡ self.now }
    {
        self.calls.as_slice()
    }
}

/// A script: the sizes of its heap, its layouts, the calls of each thread, the greatest number of
/// turns, and the order in which turns are given.
///
/// Contracts see a record of lists, `Scripted` in `specs/Scripts.antt`. Every call that takes a
/// script asks for a good one (`IsGoodScript`), and `parse` gives only good ones.
#[derive(Drop)]
pub struct Script {
    pub sizes: Sizes,
    pub layouts: Vec<Layout>,
    pub threads: Vec<Calls>,
    pub turns: u64,
    pub order: Vec<OrderWord>,
}

impl Model for Script {
    ghost use Rattle.kn_script.specs.Scripts.{Scripted};

    ghost Value = { Scripted };

    ghost view = { λ script. record {
      sizes = script.sizes;
      layouts = script.layouts.items;
      threads = script.threads.items;
      turns = script.turns;
      order = script.order.items;
    } };
}
