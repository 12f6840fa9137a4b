ghost use Rattle.std.specs.Prelude.{◌≡◌, ◌<◌};
ghost use Rattle.kn_lines.specs.Built.{has_header, has_call, has_part, header_place, call_place, part_place};

use kn_graph::CallWord;

/// The first words of lines that are no calls.
#[derive(Clone, Copy)]
pub enum HeaderWord {
    Heap,
    Names,
    Layout,
    Threads,
    Turns,
    Thread,
    Order,
}

/// The first word of a line.
#[derive(Clone, Copy)]
pub enum FirstWord {
    Header(HeaderWord),
    Call(CallWord),
}

/// What an order word is made of. A word is built where all its parts are.
#[derive(Clone, Copy)]
pub enum OrderPart {
    /// A thread's number.
    Thread,
    /// `c`.
    Collector,
    /// `f`.
    Finalizer,
    /// `r`.
    Round,
    /// `*N`.
    Turns,
    /// `/N`.
    Calls,
    /// `@P`.
    Code,
    /// `uC`.
    Uninstall,
}

/// Which words and parts of order words are built: for each of them, in the order of its enum,
/// whether it is. A word that is not built is an unknown word.
#[derive(Clone, Copy)]
pub struct Built {
    pub headers: [bool; 7],
    pub calls: [bool; 22],
    pub orders: [bool; 8],
}

/// What is built today: every header word, the calls up to `gget` (that is `new`, `newa`, `copy`,
/// `clear`, `same`, `get`, `set`, `put`, `read`, `gset` and `gget`), and in the order each part but
/// `f` and `uC`.
pub const TODAY: Built = Built {
    headers: [true; 7],
    calls: [
        true, true, true, true, true, true, true, true, true, true, true, false, false, false,
        false, false, false, false, false, false, false, false,
    ],
    orders: [true, true, false, true, true, true, true, false],
};

/// Every word.
pub const WHOLE: Built = Built {
    headers: [true; 7],
    calls: [true; 22],
    orders: [true; 8],
};

impl Built {
    pub fn has_header(&self, word: HeaderWord) -> bool
        ensures { result ≡ has_header self.now word }
    {
        self.headers[header_place(word)]
    }

    pub fn has_call(&self, word: CallWord) -> bool
        ensures { result ≡ has_call self.now word }
    {
        self.calls[call_place(word)]
    }

    pub fn has_part(&self, part: OrderPart) -> bool
        ensures { result ≡ has_part self.now part }
    {
        self.orders[part_place(part)]
    }
}

fn header_place(word: HeaderWord) -> usize
    ensures place { result ≡ header_place word }
    ensures small { result < 7 }
{
    word as usize
}

fn call_place(word: CallWord) -> usize
    ensures place { result ≡ call_place word }
    ensures small { result < 22 }
{
    word as usize
}

fn part_place(part: OrderPart) -> usize
    ensures place { result ≡ part_place part }
    ensures small { result < 8 }
{
    part as usize
}
