//! Where the places of each sort begin in the words of a board.
ghost use Rattle.std.specs.Prelude.{◌≡◌};
ghost use Rattle.kn_base.specs.declared.heap.Sizes.{Sizes};
ghost use Rattle.kn_base.specs.Sizes.{IsGood};
ghost use Rattle.kn_rule.specs.Places.{Within, index};
ghost use Rattle.kn_board.specs.Starts.{starts_of};

use kn_base::{LOCALS, Place, Sizes};

/// Where the places of each sort begin, behind the three words of the phase, the epoch wanted and the
/// open work.
#[derive(Clone, Copy)]
pub struct Starts {
    pub states: u32,
    pub root_sets: u32,
    pub locals: u32,
    pub globals: u32,
    pub nodes: u32,
    pub frames: u32,
    pub sides: u32,
    pub bodies: u32,
}

impl Starts {
    pub fn of(sizes: &Sizes) -> Starts
        requires { IsGood sizes.now }
        ensures { result ≡ starts_of sizes.now }
    {
        let states = 3;
        let root_sets = states + sizes.threads + 1;
        let locals = root_sets + sizes.threads + 2;
        let globals = locals + LOCALS * sizes.threads;
        let nodes = globals + sizes.globals;
        let frames = nodes + (sizes.stable + sizes.weak + sizes.back);
        let sides = frames + sizes.frames();
        let bodies = sides + sizes.heap_words() + 1;
        Starts {
            states,
            root_sets,
            locals,
            globals,
            nodes,
            frames,
            sides,
            bodies,
        }
    }

    /// Where the word of a place lies (`index` in `kn_rule`).
    #[inline(always)]
    pub fn index(&self, place: Place) -> usize
        requires { (z : Sizes) × IsGood z × (self.now ≡ starts_of z) × Within z place }
        ensures { (z : Sizes) → self.now ≡ starts_of z → result ≡ index z place }
    {
        let number = match place {
            Place::Phase => 0,
            Place::Want => 1,
            Place::Pending => 2,
            Place::State(caller) => self.states + u32::from(caller),
            Place::RootSet(set) => self.root_sets + u32::from(set),
            Place::Local(thread, local) => {
                self.locals + LOCALS * u32::from(thread) + u32::from(local)
            }
            Place::Global(global) => self.globals + u32::from(global),
            Place::Node(node) => self.nodes + u32::from(node),
            Place::Frame(frame) => self.frames + u32::from(frame),
            Place::Side(address) => self.sides + address,
            Place::Body(address) => self.bodies + address,
        };
        number as usize
    }
}
