//! Scripts of random calls with random orders of turns, as texts.
ghost use Rattle.std.specs.Prelude.{◌<◌};

use rand_core::{Rng, SeedableRng};
use rand_pcg::Pcg32;
use std::alloc::Global;

/// Whose turns the random ones in Mark are.
#[derive(Clone, Copy)]
pub enum Markers {
    /// Those of the threads and of the collector.
    All,
    /// Those of the threads alone. The collector has just as many behind them as it needs to find that
    /// nothing is left to mark, and to store the pause.
    Threads,
}

/// A sequence of random numbers, and the text that is made of them. Those of one seed are the same at
/// each run.
#[derive(Drop)]
pub struct Draws {
    words: Pcg32,
    text: String,
    /// Whether memory was lacking for a part of the text.
    is_lacking: bool,
}

/// The numbers of a script: its threads, which of them certainly collects, and its globals.
#[derive(Clone, Copy)]
struct Shape {
    threads: u32,
    collecting: u32,
    globals: u32,
}

impl Draws {
    pub fn open(alloc: Global, seed: u64) -> Draws {
        Draws {
            words: Pcg32::seed_from_u64(seed),
            text: String::new(alloc),
            is_lacking: false,
        }
    }

    /// A number below a limit.
    fn below(&mut self, limit: u32) -> u32
        requires { 0 < limit }
        ensures { result < limit }
    {
        self.words.next_u32() % limit
    }

    fn push(&mut self, piece: &str) {
        if self.text.push_str(piece).is_err() {
            self.is_lacking = true;
        }
    }

    /// A piece with a number behind it.
    fn push_number(&mut self, piece: &str, number: u32) {
        if write!(self.text, "{piece}{number}").is_err() {
            self.is_lacking = true;
        }
    }

    /// A line of a word and numbers.
    fn push_line(&mut self, word: &str, numbers: &[u32]) {
        self.push(word);
        for number in numbers {
            self.push_number(" ", *number);
        }
        self.push("\n");
    }

    /// A script with at least one `gc`, or nothing where memory is lacking.
    pub fn script(&mut self, markers: Markers) -> Option<&str> {
        self.text.clear();
        let threads = 1 + self.below(4);
        let shape = Shape {
            threads,
            collecting: self.below(threads),
            globals: self.below(4),
        };
        self.push_head(shape);
        for thread in 0..threads {
            self.push_thread(shape, thread);
        }
        match markers {
            Markers::All => self.push_turns(threads + 1, 600, threads),
            Markers::Threads => self.push_marking(shape),
        }
        if self.is_lacking {
            None
        } else {
            Some(self.text.as_str())
        }
    }

    /// The lines before the threads.
    fn push_head(&mut self, shape: Shape) {
        let small = 1 + self.below(4);
        let words = 32 + self.below(64);
        let large = self.below(3);
        let stable = self.below(3);
        let back = self.below(3);
        self.push_line("heap", &[small, words, large, 128, 0, 2]);
        self.push_line("names", &[shape.globals, stable, 1, back]);
        self.push(
            "layout fields ref int ref\nlayout fields int\nlayout array ref\nlayout array int\n",
        );
        self.push_line("threads", &[shape.threads]);
        self.push("turns 9000\n");
    }

    /// The calls of a thread.
    fn push_thread(&mut self, shape: Shape, thread: u32) {
        self.push_line("thread", &[thread]);
        let collects = thread == shape.collecting || self.below(4) == 0;
        let before = 4 + self.below(20);
        self.push_calls(before, shape.globals);
        if collects {
            self.push("gc\n");
        }
        self.push_calls(10, shape.globals);
    }

    fn push_calls(&mut self, count: u32, globals: u32) {
        for _ in 0..count {
            self.push_call(globals);
        }
    }

    /// Calls on six locals, but no `gc`.
    fn push_call(&mut self, globals: u32) {
        let r = self.below(5);
        let s = self.below(5);
        let field = self.below(4);
        match self.below(16) {
            0..=4 => self.push_link(s, field),
            5 => {
                let layout = self.below(2);
                self.push_line("new", &[r, layout]);
            }
            6 => {
                let layout = 2 + self.below(2);
                let length = self.below(100);
                self.push_line("newa", &[r, layout, length]);
            }
            7 | 8 => self.push_line("set", &[s, field, r]),
            9 => self.push_line("get", &[r, s, field]),
            10 => {
                let number = self.below(500);
                self.push_line("put", &[s, field, number]);
            }
            11 => self.push_line("clear", &[r]),
            12 | 13 if globals > 0 => {
                let global = self.below(globals);
                self.push_line("gset", &[global, r]);
            }
            14 if globals > 0 => {
                let global = self.below(globals);
                self.push_line("gget", &[r, global]);
            }
            _ => self.push_line("copy", &[r, s]),
        }
    }

    /// Local s gets a new object that has in a field what the local held.
    fn push_link(&mut self, s: u32, field: u32)
        requires { field < 4 }
    {
        if self.below(2) == 0 {
            self.push("new 5 0\n");
            self.push_line("set", &[5, field / 2 * 2, s]);
        } else {
            let length = 1 + field + self.below(3);
            self.push_line("newa", &[5, 2, length]);
            self.push_line("set", &[5, field, s]);
        }
        self.push_line("copy", &[s, 5]);
    }

    /// An order in which the threads run up to Mark and mark; the thread that certainly collects never
    /// ends. Behind them the collector loads the words of all root sets, and a count of 0, and stores
    /// Weak. Then it has no turn.
    fn push_marking(&mut self, shape: Shape)
        requires some { 0 < shape.threads }
        requires few { shape.threads < 5 }
    {
        self.push_turns(shape.threads, 200, shape.threads);
        self.push("order r@mark\n");
        self.push_turns(shape.threads, 200, shape.threads);
        for thread in 0..shape.threads {
            self.push_number("order ", thread);
            self.push("*1000\n");
        }
        self.push_number("order c*", shape.threads + 4);
        self.push_number(" ", shape.collecting);
        self.push("*100000\n");
    }

    /// So many order words of the first actors, of which the one with this number is the collector.
    fn push_turns(&mut self, actors: u32, words: u32, collector: u32)
        requires { 0 < actors }
    {
        self.push("order");
        for _ in 0..words {
            let actor = self.below(actors);
            let limit = if self.below(16) == 0 { 60 } else { 3 };
            let turns = 1 + self.below(limit);
            if actor == collector {
                self.push(" c");
            } else {
                self.push_number(" ", actor);
            }
            self.push_number("*", turns);
        }
        self.push("\n");
    }
}
