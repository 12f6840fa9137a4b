//! The graph that never frees, as plain lists. A graph owns what is kept of objects (`Objects`),
//! what locals and names hold (`Holders`), and the numbers of pauses; between any two steps
//! `FitTogether` in `specs/Held.antt` holds.

ghost use Rattle.std.specs.Prelude.{◌≡◌, ℕ, ◌+◌, ◌-◌, ◌^◌, ◌<◌, ◌≤◌, MatchResult, ◌↔◌, true, false, IfOk, IfSome, length};
ghost use Rattle.std.specs.Prelude.{replicate, slice_get, slice_index_or};

use crate::changes::Newborn;
use kn_base::{Caller, Sizes};
use kn_graph::{Call, Reply};
use kn_layout::{FieldKind, Layout};
use kn_objects::{Ground, Holders, KeptObject, Objects, mark_held};
use std::alloc::{AllocError, Global};
use std::marker::Model;

/// The graph that never frees, as plain lists: a slow program beside the definitions, for replaying
/// histories. Contracts see the record `Replay` in `specs/Replay.antt`, which stands for the graph
/// `graph_of` there.
#[derive(Drop)]
pub struct Graph {
    pub(crate) ground: Ground,
    pub(crate) objects: Objects,
    pub(crate) holders: Holders,
    pub(crate) paused: u32,
    pub(crate) done: u32,
    pub(crate) entered: Vec<u32>,
    /// A place for the number of each object, in which marking lists what is still to be read.
    pub(crate) work: Vec<u32>,
}

impl Model for Graph {
    ghost use Rattle.std.specs.Prelude.{length};
    ghost use Rattle.kn_objects.specs.Replay.{Replay, graph_of};
    ghost use Rattle.kn_replay.specs.Held.{FitTogether, replay_of};

    ghost Value = { Replay };

    ghost view = { λ g. replay_of g.ground g.objects g.holders g.paused g.done g.entered.items };

    ghost invariant = { λ g. FitTogether g.ground g.objects g.holders
        (graph_of (replay_of g.ground g.objects g.holders g.paused g.done g.entered.items)) g.entered.items (length g.work.items) };
}

ghost use Rattle.kn_graph.specs.Ground.{IsGoodGround};
ghost use Rattle.kn_graph.specs.Graph.{empty_graph, field_kind, length_for, shapes};
ghost use Rattle.kn_graph.specs.Sound.{WasBorn};
ghost use Rattle.kn_graph.specs.Arguments.{IsInRange};
ghost use Rattle.kn_graph.specs.Reachable.{IsReachable};
ghost use Rattle.kn_graph.specs.Collections.{with_condemned};
ghost use Rattle.kn_objects.specs.Replay.{graph_of};
ghost use Rattle.kn_replay.specs.Seen.{Answers, IsSeen, condemned_by};

impl Graph {
    /// The empty graph over a heap of these sizes and layouts. An error is want of memory.
    pub fn open(alloc: Global, sizes: &Sizes, layouts: &[Layout]) -> Result<Graph, AllocError>
        requires { IsGoodGround (record { sizes = sizes.now; layouts = layouts.now }) }
        ensures over { IfOk result (λ graph. graph.ground ≡ record { sizes = sizes.now; layouts = layouts.now }) }
        ensures empty { IfOk result (λ graph. graph_of graph ≡ empty_graph) }
    {
        let ground = Ground::open(alloc, sizes, layouts)?;
        let objects = Objects::open(alloc, 1 + sizes.heap_words())?;
        let holders = Holders::open(alloc, sizes)?;
        let entered = zeros(alloc, sizes.threads + 2)?;
        Ok(Graph {
            ground,
            objects,
            holders,
            paused: 0,
            done: 0,
            entered,
            work: Vec::new(alloc),
        })
    }

    /// The number of objects born.
    pub fn objects(&self) -> u32
        ensures { result ≡ (graph_of self.now).born }
    {
        self.objects.born()
    }

    /// The epoch of the last pause, and 0 before the first one.
    pub fn epoch(&self) -> u32
        ensures { result ≡ (graph_of self.now).paused }
    {
        self.paused
    }

    /// Answers a call as the model does, and makes the change. What was seen of the call decides
    /// whether a birth or a tie is `full`, and which epoch `gc` answers. An error is want of
    /// memory, and leaves the graph.
    pub fn answer(
        &mut self,
        by: Caller,
        call: &Call,
        address: u32,
        seen: &Reply,
    ) -> Result<Reply, AllocError>
        requires thread { by.0 < self.old.ground.sizes.threads }
        requires range { IsInRange self.old.ground call.now }
        requires seen { IsSeen self.old.ground (graph_of self.old) call.now address seen.now }
        requires few { (graph_of self.old).born < 2 ^ 32 - 1 }
        ensures answers { MatchResult result
            (λ reply. Answers self.old.ground by.0 call.now address seen.now (graph_of self.old) reply (graph_of self.new))
            (λ _. self.new ≡ self.old) }
        ensures ground { self.new.ground ≡ self.old.ground }
    {
        let plan = self.plan(by.0, call, address, seen);
        let epoch = self.paused;
        self.carry_out(by.0, &plan.change)?;
        self.enter(by.0, epoch);
        Ok(plan.reply)
    }

    /// Marks exactly the reachable objects, as `specs/Reachable.antt` defines it, and leaves the
    /// graph. There is a mark for each object, by its number; what the marks were means nothing.
    pub fn reachable(&mut self, marks: &mut [bool])
        requires { length marks.old ≡ (graph_of self.old).born }
        ensures marked { (n : ℕ) → n < (graph_of self.old).born → (slice_index_or marks.new n false ≡ true) ↔ IsReachable (graph_of self.old) n }
        ensures same { self.new ≡ self.old }
    {
        let roots = self.holders.roots();
        mark_held(
            self.objects.all(),
            self.objects.all_points(),
            &roots,
            marks,
            &mut self.work,
        );
    }

    /// Condemns the objects without a mark. There is a mark for each object, by its number.
    pub fn condemn(&mut self, marks: &[bool])
        requires { length marks.now ≡ (graph_of self.old).born }
        ensures after { graph_of self.new ≡ with_condemned (graph_of self.old) (condemned_by marks.now (graph_of self.old)) }
        ensures ground { self.new.ground ≡ self.old.ground }
    {
        self.objects.condemn(marks);
    }

    /// What a local of a thread holds.
    pub(crate) fn local(&self, thread: u8, r: u8) -> Option<u32>
        requires { r ≤ 15 }
        ensures is { result ≡ (graph_of self.now).local thread r }
        ensures born { WasBorn (graph_of self.now).born result }
    {
        self.holders.local(thread, r)
    }

    /// What a global holds.
    pub(crate) fn global(&self, i: u8) -> Option<u32>
        ensures is { result ≡ (graph_of self.now).global i }
        ensures born { WasBorn (graph_of self.now).born result }
    {
        self.holders.global(i)
    }

    /// What a stable name holds.
    pub(crate) fn stable(&self, h: u8) -> Option<u32>
        ensures is { result ≡ (graph_of self.now).stable h }
        ensures born { WasBorn (graph_of self.now).born result }
    {
        self.holders.stable(h)
    }

    /// What a weak name holds.
    pub(crate) fn weak(&self, w: u8) -> Option<u32>
        ensures is { result ≡ (graph_of self.now).weak w }
        ensures born { WasBorn (graph_of self.now).born result }
    {
        self.holders.weak(w)
    }

    /// What a back name holds.
    pub(crate) fn back(&self, b: u8) -> Option<u32>
        ensures is { result ≡ (graph_of self.now).back b }
        ensures born { WasBorn (graph_of self.now).born result }
    {
        self.holders.back(b)
    }

    /// The count of a back name.
    pub(crate) fn count(&self, b: u8) -> u16
        ensures is { result ≡ (graph_of self.now).count b }
        ensures few { result ≤ 4095 }
    {
        self.holders.count(b)
    }

    /// What a field holds as a reference.
    pub(crate) fn points(&self, n: u32, field: u32) -> Option<u32>
        ensures is { result ≡ ((graph_of self.now).object n).points field }
        ensures born { WasBorn (graph_of self.now).born result }
    {
        self.objects.points(n, field)
    }

    /// What a field holds as a number.
    pub(crate) fn number(&self, n: u32, field: u32) -> u64
        ensures { result ≡ ((graph_of self.now).object n).number field }
    {
        self.objects.number(n, field)
    }

    /// What is kept of an object.
    pub(crate) fn object(&self, n: u32) -> Option<KeptObject>
        ensures { result ≡ slice_get self.now.objects n }
    {
        self.objects.object(n)
    }

    /// Whether an object is condemned.
    pub(crate) fn is_condemned(&self, n: u32) -> bool
        ensures { result ≡ ((graph_of self.now).object n).condemned }
    {
        match self.objects.object(n) {
            Some(object) => object.condemned,
            None => false,
        }
    }

    /// The cleaner and the number that an object is tied to.
    pub(crate) fn tie_of(&self, n: u32) -> Option<(u8, u32)>
        ensures { result ≡ ((graph_of self.now).object n).tie }
    {
        match self.objects.object(n) {
            Some(object) => object.tie,
            None => None,
        }
    }

    /// What a birth makes.
    pub(crate) fn newborn(&self, address: u32, layout: u8, elements: u32) -> Newborn
        requires { elements ≤ 60000 }
        ensures { result ≡ record { address = address; layout = layout; length = length_for self.now.ground layout elements } }
    {
        Newborn {
            address,
            layout,
            length: self.ground.length_for(layout, elements),
        }
    }

    /// The kind of a field of an object; none where it has no such field.
    pub(crate) fn kind(&self, n: u32, field: u32) -> Option<FieldKind>
        ensures is { result ≡ field_kind self.now.ground (shapes (graph_of self.now) n) field }
        ensures there { IfSome result (λ _. field < ((graph_of self.now).object n).length) }
    {
        match self.objects.object(n) {
            Some(object) if field < object.length => {
                self.ground.kind(object.layout, object.length, field)
            }
            _ => None,
        }
    }
}

/// So many zeros. An error is want of memory.
fn zeros(alloc: Global, count: u32) -> Result<Vec<u32>, AllocError>
    ensures { IfOk result (λ list. list.items ≡ replicate count 0) }
{
    let mut list = Vec::new(alloc);
    list.resize(count as usize, 0)?;
    Ok(list)
}
