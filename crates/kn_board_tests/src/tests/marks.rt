//! The marks of a board behind a pause, and what they have to be.
ghost use Rattle.std.specs.Prelude.{◌≡◌};
ghost use Rattle.kn_script.specs.Good.{IsGoodScript};
ghost use Rattle.kn_script.specs.Scripts.{ground_of};

use kn_base::Place;
use kn_board::Board;
use kn_graph::{Call, Entry, Event, Reply};
use kn_page::Page;
use kn_replay::Graph;
use kn_script::{Script, state_laws};
use std::alloc::{AllocError, Global};

/// The mark word of an object that was born before the first pause, and that no marker came to.
const BORN: u64 = 3;

/// The mark word of an object that was marked in epoch 1, or born in it.
const MARKED: u64 = 7;

/// What is found behind a first pause.
#[derive(Clone, Copy)]
pub enum Found {
    /// There was no pause.
    NoPause,
    /// The history does not replay, or the marks are not those that it asks for.
    Differs,
    /// The objects without a mark of the epoch are exactly those that were born before the pause and
    /// were not reachable at it: how many they are.
    Condemned(u32),
}

/// The marks that a history asks for.
#[derive(Drop)]
struct Wanted {
    /// The addresses of the objects born, in the order of their births.
    born: Vec<u32>,
    /// The mark word of each address, and 0 where no object begins.
    marks: Vec<u64>,
    /// How many objects were not reachable at the pause.
    condemned: u32,
    is_paused: bool,
}

impl Wanted {
    fn open(alloc: Global, addresses: usize) -> Result<Wanted, AllocError> {
        Ok(Wanted {
            born: Vec::new(alloc),
            marks: vec![in alloc; 0u64; addresses]?,
            condemned: 0,
            is_paused: false,
        })
    }

    /// An entry comes, behind which the graph is given.
    fn learn(&mut self, entry: &Entry) -> Result<(), AllocError> {
        if let Event::Call(
            Call::New(_, _) | Call::NewArray(_, _, _),
            Reply::Ok,
            address,
        ) = entry.what
        {
            self.born.push(address)?;
            let mark = if self.is_paused { MARKED } else { BORN };
            set_mark(&mut self.marks, address, mark);
        }
        Ok(())
    }

    /// A pause comes, at which these objects are reachable, by their numbers.
    fn pause(&mut self, reachable: &[bool]) {
        self.is_paused = true;
        for (address, is_reachable) in self.born.iter().zip(reachable.iter()) {
            if *is_reachable {
                set_mark(&mut self.marks, *address, MARKED);
            } else {
                self.condemned = self.condemned.saturating_add(1);
            }
        }
    }
}

fn set_mark(marks: &mut [u64], address: u32, mark: u64) {
    if let Some(place) = marks.get_mut(address as usize) {
        *place = mark;
    }
}

/// Asks which objects are reachable now, and learns it.
fn learn_reachable(
    alloc: Global,
    graph: &mut Graph,
    wanted: &mut Wanted,
) -> Result<(), AllocError> {
    let mut reachable = vec![in alloc; false; graph.objects() as usize]?;
    graph.reachable(&mut reachable);
    wanted.pause(&reachable);
    Ok(())
}

/// Applies an entry, and answers whether it was legal.
fn applies(
    alloc: Global,
    graph: &mut Graph,
    wanted: &mut Wanted,
    entry: &Entry,
) -> Result<bool, AllocError> {
    if let Event::Pause(1) = entry.what {
        learn_reachable(alloc, graph, wanted)?;
    }
    if graph.objects() == u32::MAX || !graph.apply(entry)? {
        return Ok(false);
    }
    wanted.learn(entry)?;
    Ok(true)
}

/// The marks that a history asks for, where it replays on an empty graph.
fn replayed(
    alloc: Global,
    graph: &mut Graph,
    addresses: usize,
    history: &[Entry],
) -> Result<Option<Wanted>, AllocError> {
    let mut wanted = Wanted::open(alloc, addresses)?;
    for entry in history {
        if !applies(alloc, graph, &mut wanted, entry)? {
            return Ok(None);
        }
    }
    Ok(Some(wanted))
}

/// The marks that a history of a script asks for, where it replays.
fn wanted_of(
    alloc: Global,
    script: &Script,
    history: &[Entry],
) -> Result<Option<Wanted>, AllocError>
    requires good { IsGoodScript script.now }
{
    state_laws();
    let mut graph = Graph::open(alloc, &script.sizes, &script.layouts)?;
    let addresses = 1 + script.sizes.heap_words() as usize;
    replayed(alloc, &mut graph, addresses, history)
}

/// Replays the history of a board, asks which objects are reachable at its first pause, and compares all
/// mark words of the board with those that this asks for. No mark changes behind that pause, but where
/// an object is born.
pub fn compare(alloc: Global, script: &Script, board: &Board<Page>) -> Result<Found, AllocError>
    requires good { IsGoodScript script.now }
    requires heap { board.now.heap ≡ ground_of script.now }
{
    let Some(wanted) = wanted_of(alloc, script, board.history())? else {
        return Ok(Found::Differs);
    };
    if !wanted.is_paused {
        return Ok(Found::NoPause);
    }
    if !is_marked_so(script, board, &wanted.marks) {
        return Ok(Found::Differs);
    }
    Ok(Found::Condemned(wanted.condemned))
}

/// Whether these are the mark words of a board.
fn is_marked_so(script: &Script, board: &Board<Page>, marks: &[u64]) -> bool
    requires good { IsGoodScript script.now }
    requires heap { board.now.heap ≡ ground_of script.now }
{
    state_laws();
    for address in 0..1 + script.sizes.heap_words() {
        let mark = board.word(Place::Side(address));
        if marks.get(address as usize).copied() != Some(mark) {
            return false;
        }
    }
    true
}
