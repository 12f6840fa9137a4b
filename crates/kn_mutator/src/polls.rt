//! Polls, and what begins behind them.
ghost use Rattle.std.specs.Prelude.{◌≡◌, ◌<◌, ◌≤◌, ◌^◌, Some, true};
ghost use Rattle.kn_layout.specs.Layouts.{cell_size};
ghost use Rattle.kn_graph.specs.Arguments.{IsInRange};
ghost use Rattle.kn_graph.specs.Graph.{length_for};
ghost use Rattle.kn_graph.specs.declared.calls.Call.{Call};
ghost use Rattle.kn_alloc.specs.declared.stage.Request.TheVariants.{Cell};
ghost use Rattle.kn_mutator.specs.declared.task.Task.TheVariants.{Polls};
ghost use Rattle.kn_mutator.specs.Tasks;
ghost use Rattle.kn_mutator.specs.Agree.{Agrees};
ghost use Rattle.kn_mutator.specs.Begun.{Begins, Hears, HearsAs, IsReady, IsRequestFor};
ghost use Rattle.kn_mutator.specs.Turns.{Goes};

use crate::gate::Gate;
use crate::mutator::Mutator;
use crate::task::Task;
use kn_alloc::Request;
use kn_base::Place;
use kn_graph::Call;
use kn_layout::{Layout, cell_size};
use kn_page::Page;
use kn_steps::{Steps, Turn};
use kn_view::{answer_alone, pauses_before, runs};

impl Mutator {
    // The phase is loaded for the next call: it begins in a run phase, where the gate lets it pass, and in
    // another phase the mutator goes out.
    pub(crate) fn polls<T: Steps<Page>, G: Gate>(&mut self, steps: &mut T, gate: &G) -> Turn
        requires agrees { Agrees self.old (T.stand steps.old) (T.here steps.old) }
        requires task { self.old.task ≡ Polls }
        ensures { Goes T.stand T.here T.did T.moved (G.told gate.now) self.old steps.old steps.new self.new result }
    {
        let passed = gate.pass(self.by, self.begun);
        let next = self.next_call(passed);
        let word = steps.poll(next);
        self.hears(next, word)
    }

    // A phase word was found by a poll for this call.
    fn hears(&mut self, next: Option<Call>, word: u64) -> Turn
        requires ready { IsReady self.old }
        requires next { (call : Call) → next ≡ Some call → IsInRange self.old.heap call }
        requires word { word < 2 ^ 35 }
        ensures { Hears self.old next word self.new result }
    {
        if runs(word) {
            self.hears_in(next, word)
        } else {
            self.goes_out()
        }
    }

    // A run phase was found by a poll for this call.
    #[inline(always)]
    pub(crate) fn hears_in(&mut self, next: Option<Call>, word: u64) -> Turn
        requires ready { IsReady self.old }
        requires next { (call : Call) → next ≡ Some call → IsInRange self.old.heap call }
        requires word { word < 2 ^ 35 }
        ensures { HearsAs self.old true next word self.new result }
    {
        self.polled_in(pauses_before(word));
        match next {
            None => {
                self.goes_to(Task::Polls);
                Turn::Idle(Place::Phase, word)
            }
            Some(call) => {
                self.begins(call);
                Turn::Moved
            }
        }
    }

    // The call that begins next, where the gate lets it pass.
    pub(crate) fn next_call(&self, passed: bool) -> Option<Call>
        ensures { result ≡ Tasks.next_call self.now passed }
    {
        if passed {
            self.call_of(self.begun)
        } else {
            None
        }
    }

    pub(crate) fn polled_in(&mut self, epoch: u32)
        ensures { self.new ≡ record self.old { epoch = epoch } }
    {
        self.epoch = epoch;
    }

    // A call begins in the epoch of the last poll.
    #[inline(always)]
    fn begins(&mut self, call: Call)
        requires ready { IsReady self.old }
        requires in_range { IsInRange self.old.heap call }
        ensures { Begins self.old call self.new }
    {
        self.begun += 1;
        match answer_alone(&self.sizes, self.layouts.as_slice(), &self.locals, call) {
            Some(reply) => self.answers(call, reply),
            None => match self.request_of(call) {
                Some(request) => {
                    self.allocator.start(request, self.epoch);
                    self.goes_to(Task::Births(call));
                }
                None => self.goes_to(Task::Calls(call, None)),
            },
        }
    }

    // What a call asks the allocator for.
    fn request_of(&self, call: Call) -> Option<Request>
        requires { IsInRange self.now.heap call }
        ensures { IsRequestFor self.now.heap call result }
    {
        let _ = &self.sizes;
        match call {
            Call::New(_, layout) => Some(self.request_for(layout, 0)),
            Call::NewArray(_, layout, length) => Some(self.request_for(layout, length)),
            _ => None,
        }
    }

    // The request for an object of a layout, with as many elements where it is an array.
    fn request_for(&self, layout: u8, elements: u32) -> Request
        requires { elements ≤ 60000 }
        ensures request { result ≡ Cell layout (length_for self.now.heap layout elements) (cell_size (length_for self.now.heap layout elements)) }
        ensures few { length_for self.now.heap layout elements ≤ 60000 }
    {
        let length = self.fields_of(layout, elements);
        Request::Cell {
            layout: u16::from(layout),
            length,
            words: cell_size(length) as u32,
        }
    }

    // How many fields an object of a layout has.
    fn fields_of(&self, layout: u8, elements: u32) -> u32
        requires { elements ≤ 60000 }
        ensures is { result ≡ length_for self.now.heap layout elements }
        ensures few { result ≤ 60000 }
    {
        match self.layouts.as_slice().get(usize::from(layout)) {
            Some(Layout::Fields(kinds)) => kinds.as_slice().len() as u32,
            Some(Layout::Array(_)) => elements,
            None => 0,
        }
    }
}
