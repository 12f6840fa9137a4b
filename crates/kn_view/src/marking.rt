//! What the steps of a marker make of a view.
ghost use Rattle.std.specs.Prelude.{◌≡◌, ℕ, ◌+◌, ◌<◌, ◌^◌};
ghost use Rattle.kn_base.specs.declared.places.Place.TheVariants.{RootSet, Side};
ghost use Rattle.kn_graph.specs.Ground.{Ground};
ghost use Rattle.kn_rule.specs.declared.steps.Kind.TheVariants.{K17, K18, K19, K20, K21, K22, K23, K24};
ghost use Rattle.kn_rule.specs.Steps.{Found};
ghost use Rattle.kn_rule.specs.Outcomes.{worked};
ghost use Rattle.kn_view.specs.Shares.{IsCellRead, IsChildNear, IsRootRead, MayOwe};
ghost use Rattle.kn_view.specs.Told.{Makes};

use crate::known::Known;
use crate::shares::{
    body_read, child_after, moved_set, paid, reserved, rested, root_read, took_gray,
};
use kn_base::Sizes;
use kn_layout::Layout;
use kn_rule::Action;

impl Known {
    /// What a look at a root set, its claim, or its end makes of it.
    pub fn moves_set(&mut self, set: u8, act: Action, word: u64)
        requires { MayOwe self.old.work }
        ensures { (z : Ground) (c : ℕ) (f : Found) → f.word ≡ word →
            Makes z self.old self.new (λ v. worked z c v (RootSet set) act f K17) }
    {
        self.work = moved_set(self.work, set, act, word);
    }

    /// What a load of a word of a root set makes of it.
    pub fn reads_root(&mut self, sizes: &Sizes, layouts: &[Layout], word: u64)
        requires threads { sizes.now.threads + 1 < 2 ^ 32 }
        requires word { IsRootRead sizes.now self.old.work.doing word }
        ensures { (z : Ground) (c : ℕ) (p : _) (a : _) (f : Found) → z.sizes ≡ sizes.now → z.layouts ≡ layouts.now → f.word ≡ word →
            Makes z self.old self.new (λ v. worked z c v p a f K18) }
    {
        self.work = root_read(sizes, layouts, self.work, word);
    }

    /// What a unit that is added makes of it.
    pub fn reserves(&mut self)
        ensures { (z : Ground) (c : ℕ) (p : _) (a : _) (f : Found) → Makes z self.old self.new (λ v. worked z c v p a f K19) }
    {
        self.work = reserved(self.work);
    }

    /// What a load or an exchange of a mark makes of it.
    pub fn moves_mark(&mut self, layouts: &[Layout], address: u32, act: Action, word: u64)
        requires owed { MayOwe self.old.work }
        requires near { IsChildNear self.old.work.doing self.old.work.child }
        ensures { (z : Ground) (c : ℕ) (f : Found) → z.layouts ≡ layouts.now → f.word ≡ word →
            Makes z self.old self.new (λ v. worked z c v (Side address) act f K20) }
    {
        self.work = child_after(layouts, self.work, address, act, word);
    }

    /// What a unit that is given back makes of it.
    pub fn gives_unit(&mut self)
        ensures { (z : Ground) (c : ℕ) (p : _) (a : _) (f : Found) → Makes z self.old self.new (λ v. worked z c v p a f K21) }
    {
        self.work = paid(self.work);
    }

    /// What the exchange of a gray mark makes of it.
    pub fn takes_gray(&mut self, address: u32, word: u64)
        ensures { (z : Ground) (c : ℕ) (a : _) (f : Found) → f.word ≡ word →
            Makes z self.old self.new (λ v. worked z c v (Side address) a f K22) }
    {
        self.work = took_gray(self.work, address, word);
    }

    /// What a load of a word of a scanned cell makes of it.
    pub fn reads_cell(&mut self, layouts: &[Layout], word: u64)
        requires { IsCellRead self.old.work.doing word }
        ensures { (z : Ground) (c : ℕ) (p : _) (a : _) (f : Found) → z.layouts ≡ layouts.now → f.word ≡ word →
            Makes z self.old self.new (λ v. worked z c v p a f K23) }
    {
        self.work = body_read(layouts, self.work, word);
    }

    /// What a mark that becomes black makes of it.
    pub fn blackens(&mut self)
        requires { MayOwe self.old.work }
        ensures { (z : Ground) (c : ℕ) (p : _) (a : _) (f : Found) → Makes z self.old self.new (λ v. worked z c v p a f K24) }
    {
        self.work = rested(self.work);
    }
}
