ghost use Rattle.std.specs.Prelude.{◌≡◌, ◌<◌, ◌≤◌, [], length, replicate, IfOk};
ghost use Rattle.kn_lines.specs.Values.{values_of};
ghost use Rattle.kn_script.specs.Progress.{start, behind, behind_header, behind_call, script_of};
ghost use Rattle.kn_script.specs.Reasons.{is_closed, is_no_thread, is_no_fields, is_no_array, is_no_name, is_misfit, is_actor_outside};
ghost use Rattle.kn_script.specs.Reasons.{is_order_outside, thread_reason, is_too_much, is_header_too_much, is_early, is_late, reasons_of};
ghost use Rattle.kn_script.specs.Good.{IsGoodProgress};

use crate::faults::Why;
use crate::reasons::{Accepted, when};
use crate::scripts::{Calls, Script};
use crate::size_counts::make_sizes;
use kn_base::{MOST_CALLS, MOST_CLEANERS, MOST_LAYOUTS, MOST_ORDER_WORDS};
use kn_graph::{Argument, Call};
use kn_layout::Layout;
use kn_lines::{
    Actor, Built, FirstWord, Form, FrameSizes, HeaderWord, Line, NameCounts, OrderWord, Words,
    is_large_heap, is_long_layout, is_until_outside, make_call, push_orders, read_layout,
};
use std::alloc::{AllocError, Global};
use std::marker::Model;

/// What the lines so far have given. Contracts see `Progress` of `specs/Scripts.antt`.
#[derive(Drop)]
pub struct Progress {
    built: Built,
    frames: FrameSizes,
    names: NameCounts,
    layouts: Vec<Layout>,
    turns: u64,
    threads: Vec<Calls>,
    order: Vec<OrderWord>,
    /// Which lines have come: 1 the heap, 2 the names, 3 the threads, 4 the turns, 5 a thread, 6 an
    /// order.
    stage: u8,
    /// The least thread that may come.
    next: u32,
    /// The number of calls.
    calls: u32,
}

impl Model for Progress {
    ghost use Rattle.kn_script.specs.Scripts.{Progress};

    ghost Value = { Progress };

    ghost view = { λ p. record {
      built = p.built;
      frames = p.frames;
      names = p.names;
      layouts = p.layouts.items;
      turns = p.turns;
      threads = p.threads.items;
      order = p.order.items;
      stage = p.stage;
      next = p.next;
      calls = p.calls;
    } };
}

impl Progress {
    /// Before the first line.
    pub fn new(alloc: Global, built: &Built) -> Progress
        ensures { result ≡ start built.now }
    {
        Progress {
            built: *built,
            frames: FrameSizes::new(),
            names: NameCounts::new(),
            layouts: Vec::new(alloc),
            turns: 100_000_000,
            threads: Vec::new(alloc),
            order: Vec::new(alloc),
            stage: 0,
            next: 0,
            calls: 0,
        }
    }

    /// What is built.
    pub fn built(&self) -> &Built
        ensures { result.now ≡ self.now.built }
    {
        &self.built
    }

    /// Whether the threads line has come.
    pub fn is_closed(&self) -> bool
        ensures { result ≡ is_closed self.now }
    {
        3 <= self.stage
    }

    /// The script of the lines.
    pub fn into_script(self) -> Script
        requires { IsGoodProgress self }
        ensures { result ≡ script_of self }
    {
        let Progress {
            built: _,
            frames,
            names,
            layouts,
            turns,
            threads,
            order,
            stage: _,
            next: _,
            calls: _,
        } = self;
        Script {
            sizes: make_sizes(frames, names, threads.as_slice()),
            layouts,
            threads,
            turns,
            order,
        }
    }

    fn is_no_thread(&self, thread: u64) -> bool
        ensures { result ≡ is_no_thread self.now thread }
    {
        3 <= self.stage && self.threads.len() as u64 <= thread
    }

    /// Whether a number is of no layout of fields.
    fn is_no_fields(&self, layout: u64) -> bool
        ensures { result ≡ is_no_fields self.now layout }
    {
        match self.layouts.get(layout as usize) {
            Some(Layout::Fields(_)) => false,
            Some(Layout::Array(_)) => true,
            None => 3 <= self.stage,
        }
    }

    /// Whether a number is of no layout of an array.
    fn is_no_array(&self, layout: u64) -> bool
        ensures { result ≡ is_no_array self.now layout }
    {
        match self.layouts.get(layout as usize) {
            Some(Layout::Fields(_)) => true,
            Some(Layout::Array(_)) => false,
            None => 3 <= self.stage,
        }
    }

    /// Whether a number is of none of so many names.
    fn is_no_name(&self, count: u32, name: u64) -> bool
        ensures { result ≡ is_no_name self.now count name }
    {
        2 <= self.stage && u64::from(count) <= name
    }

    /// Whether a number is not in the range of an argument.
    pub fn is_misfit(&self, argument: Argument, number: u64) -> bool
        ensures { result ≡ is_misfit self.now argument number }
    {
        match argument {
            Argument::Number(greatest) => greatest < number,
            Argument::FieldsLayout => self.is_no_fields(number),
            Argument::ArrayLayout => self.is_no_array(number),
            Argument::Global => self.is_no_name(self.names.globals, number),
            Argument::Stable => self.is_no_name(self.names.stable, number),
            Argument::Weak => self.is_no_name(self.names.weak, number),
            Argument::Back => self.is_no_name(self.names.back, number),
        }
    }

    fn is_actor_outside(&self, actor: Actor) -> bool
        ensures { result ≡ is_actor_outside self.now actor }
    {
        match actor {
            Actor::Thread(thread) => self.is_no_thread(u64::from(thread)),
            Actor::Collector | Actor::Finalizer | Actor::Round => false,
        }
    }

    /// Whether an order word is out of its range.
    pub fn is_order_outside(&self, order: OrderWord) -> bool
        ensures { result ≡ is_order_outside self.now order }
    {
        match order {
            OrderWord::Run(actor, until) => self.is_actor_outside(actor) || is_until_outside(until),
            OrderWord::Uninstall(cleaner) => MOST_CLEANERS <= u32::from(cleaner),
        }
    }

    /// What the number of the next thread meets.
    pub fn thread_reason(&self, thread: u64) -> Option<Why>
        ensures { result ≡ thread_reason self.now thread }
    {
        if self.is_no_thread(thread) {
            Some(Why::Range)
        } else {
            when(thread < u64::from(self.next), Why::Late)
        }
    }

    /// Whether there is no room for a line of so many words with these numbers.
    pub fn is_too_much(&self, word: FirstWord, line: &Line, values: [u64; 6], count: usize) -> bool
        requires count { count ≡ length line.now.arguments }
        requires values { values ≡ values_of line.now.arguments }
        ensures { result ≡ is_too_much self.now word line.now.arguments }
    {
        match word {
            FirstWord::Header(header) => self.is_header_too_much(header, line, values, count),
            FirstWord::Call(_) => MOST_CALLS <= self.calls,
        }
    }

    fn is_header_too_much(
        &self,
        word: HeaderWord,
        line: &Line,
        values: [u64; 6],
        count: usize,
    ) -> bool
        requires count { count ≡ length line.now.arguments }
        requires values { values ≡ values_of line.now.arguments }
        ensures { result ≡ is_header_too_much self.now word line.now.arguments }
    {
        match word {
            HeaderWord::Heap => is_large_heap(values, count),
            HeaderWord::Layout => {
                is_long_layout(line, count) || MOST_LAYOUTS as usize <= self.layouts.len()
            }
            HeaderWord::Order => {
                let most = MOST_ORDER_WORDS as usize;
                most < count || most - count < self.order.len()
            }
            HeaderWord::Names | HeaderWord::Threads | HeaderWord::Turns | HeaderWord::Thread => {
                false
            }
        }
    }

    pub fn is_early(&self, form: &Form) -> bool
        ensures { result ≡ is_early self.now form.now }
    {
        self.stage < form.from || (form.in_block && self.next < 1)
    }

    pub fn is_late(&self, form: &Form) -> bool
        ensures { result ≡ is_late self.now form.now }
    {
        form.until < self.stage
    }

    /// Adds what a line gives that meets no reason.
    pub fn add(&mut self, alloc: Global, read: Accepted, words: Words) -> Result<(), AllocError>
        requires good { IsGoodProgress self.old }
        requires fits { reasons_of self.old read.word words ≡ [] }
        requires values { read.values ≡ values_of words }
        ensures { IfOk result (λ _. self.new ≡ behind self.old read.word words.entry) }
    {
        match read.word {
            FirstWord::Header(header) => self.add_header(alloc, header, read.values, words),
            FirstWord::Call(call) => self.add_call(make_call(call, read.values)),
        }
    }

    /// Adds what a line of a header word gives that meets no reason.
    fn add_header(
        &mut self,
        alloc: Global,
        word: HeaderWord,
        values: [u64; 6],
        words: Words,
    ) -> Result<(), AllocError>
        requires good { IsGoodProgress self.old }
        requires fits { reasons_of self.old (FirstWord.Header word) words ≡ [] }
        requires values { values ≡ values_of words }
        ensures { IfOk result (λ _. self.new ≡ behind_header self.old word words.entry) }
    {
        match word {
            HeaderWord::Heap => {
                self.frames = FrameSizes::from_values(values);
                self.stage = 1;
            }
            HeaderWord::Names => {
                self.names = NameCounts::from_values(values);
                self.stage = 2;
            }
            HeaderWord::Layout => {
                let layout = read_layout(alloc, words)?;
                self.layouts.push(layout)?;
            }
            HeaderWord::Threads => {
                self.threads = make_threads(alloc, values[0])?;
                self.stage = 3;
            }
            HeaderWord::Turns => {
                self.turns = values[0];
                self.stage = 4;
            }
            HeaderWord::Thread => {
                self.next = values[0] as u32 + 1;
                self.stage = 5;
            }
            HeaderWord::Order => {
                push_orders(&mut self.order, &self.built, words)?;
                self.stage = 6;
            }
        }
        Ok(())
    }

    /// Adds a call to the thread whose block this is.
    fn add_call(&mut self, call: Call) -> Result<(), AllocError>
        requires block { (1 ≤ self.old.next) × (self.old.next ≤ length self.old.threads) }
        requires room { self.old.calls < MOST_CALLS }
        ensures { IfOk result (λ _. self.new ≡ behind_call self.old call) }
    {
        let thread = (self.next - 1) as usize;
        self.threads[thread].push(call)?;
        self.calls += 1;
        Ok(())
    }
}

/// So many threads with no calls.
fn make_threads(alloc: Global, count: u64) -> Result<Vec<Calls>, AllocError>
    ensures { IfOk result (λ threads. threads.items ≡ replicate count []) }
{
    let mut threads = Vec::new(alloc);
    for _ in 0..count {
        threads.push(Calls::new(alloc))?;
    }
    Ok(threads)
}
