ghost use Rattle.std.specs.Prelude.{◌≡◌, ◌<◌, ℕ};
ghost use Rattle.kn_base.specs.Sizes.{IsGood};
ghost use Rattle.kn_rule.specs.Places.{Within, index, table_words};

use kn_base::{LOCALS, Place, Sizes};

/// Where the word of a place lies in a heap's table (`index` in `specs/Places.antt`).
pub fn place_index(sizes: &Sizes, place: Place) -> usize
    requires good { IsGood sizes.now }
    requires within { Within sizes.now place }
    ensures index { result ≡ index sizes.now place }
    ensures lies { result < table_words sizes.now }
{
    let names = sizes.stable + sizes.weak + sizes.back;
    let words = sizes.heap_words() + 1;
    let states = 3;
    let root_sets = states + sizes.threads + 1;
    let locals = root_sets + sizes.threads + 2;
    let globals = locals + LOCALS * sizes.threads;
    let nodes = globals + sizes.globals;
    let frames = nodes + names;
    let sides = frames + sizes.frames();
    let bodies = sides + words;
    let number = match place {
        Place::Phase => 0,
        Place::Want => 1,
        Place::Pending => 2,
        Place::State(caller) => states + u32::from(caller),
        Place::RootSet(set) => root_sets + u32::from(set),
        Place::Local(thread, local) => locals + LOCALS * u32::from(thread) + u32::from(local),
        Place::Global(global) => globals + u32::from(global),
        Place::Node(node) => nodes + u32::from(node),
        Place::Frame(frame) => frames + u32::from(frame),
        Place::Side(address) => sides + address,
        Place::Body(address) => bodies + address,
    };
    number as usize
}

/// The number of words of a heap's table.
pub fn table_length(sizes: &Sizes) -> usize
    requires { IsGood sizes.now }
    ensures { result ≡ table_words sizes.now }
{
    let names = sizes.stable + sizes.weak + sizes.back;
    let callers = 3 + (sizes.threads + 1) + (sizes.threads + 2) + LOCALS * sizes.threads;
    let words = sizes.heap_words() + 1;
    (callers + sizes.globals + names + sizes.frames() + words + words) as usize
}
