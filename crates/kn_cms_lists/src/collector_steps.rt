//! The steps of the collector, as writes of lists.

ghost use Rattle.std.specs.Prelude.{◌≡◌, ℕ, ◌+◌, ◌-◌, ◌^◌, ◌<◌, [], IfSome, length, slice_index_or, slice_set};
ghost use Rattle.kn_cms_rule.specs.declared.stages.Colour.TheVariants.{Black};
ghost use Rattle.kn_cms_rule.specs.declared.stages.Stage.TheVariants.{Finished, Looking, Marking};
ghost use Rattle.kn_cms_lists.specs.Kept.{all_shaded, kept_point, rows_shaded, shaded_list, snapshot_lists};
ghost use Rattle.kn_cms_lists.specs.Kept.{AreBelow};

use crate::colours::Colours;
use crate::lists::Lists;
use kn_base::Caller;
use kn_cms_rule::{Colour, Stage};
use kn_graph::{Entry, Event};

impl Lists {
    /// The snapshot: what locals and globals hold becomes gray, and the pause is noted.
    pub fn take_snapshot(&mut self)
        requires objects { length self.old.cells.cells < 2 ^ 32 }
        requires room { length self.old.history.list < self.old.history.room }
        requires locals { (i : ℕ) → AreBelow (length self.old.colours) (slice_index_or self.old.holders.locals i []) }
        requires globals { AreBelow (length self.old.colours) self.old.holders.globals }
        ensures { self.new ≡ snapshot_lists self.old }
    {
        let roots = self.holders.roots();
        shade_rows(&mut self.colours, roots.locals);
        shade_all(&mut self.colours, roots.globals);
        self.snapshot = Some(self.cells.born() as u32);
        self.stage = Stage::Marking;
        self.history.note(Entry {
            by: Caller(self.ground.threads() as u8),
            epoch: 1,
            what: Event::Pause(1),
        });
    }

    /// The collector begins an object.
    pub fn begin(&mut self, n: u32)
        ensures { self.new ≡ record self.old { stage = Looking n 0 } }
    {
        self.stage = Stage::Looking(n, 0);
    }

    /// It looks at a field of the object begun, and grays its value if it has no colour.
    pub fn look(&mut self, n: u32, field: u32)
        requires field { field < 2 ^ 32 - 1 }
        requires object { IfSome (kept_point self.old.cells n field) (λ n. n < length self.old.colours) }
        ensures { self.new ≡ record self.old {
          stage = Looking n (field + 1);
          colours = shaded_list self.old.colours (kept_point self.old.cells n field);
        } }
    {
        let value = self.cells.point(n, field);
        self.colours.shade(value);
        self.stage = Stage::Looking(n, field + 1);
    }

    /// It makes the object begun black.
    pub fn blacken(&mut self, n: u32)
        requires { n < length self.old.colours }
        ensures { self.new ≡ record self.old { stage = Marking; colours = slice_set self.old.colours n Black } }
    {
        self.colours.put(n, Colour::Black);
        self.stage = Stage::Marking;
    }

    /// It ends the marking.
    pub fn end(&mut self)
        ensures { self.new ≡ record self.old { stage = Finished } }
    {
        self.stage = Stage::Finished;
    }
}

/// What these places hold becomes gray.
fn shade_all(colours: &mut Colours, values: &[Option<u32>])
    requires { AreBelow (length colours.old) values.now }
    ensures { colours.new ≡ all_shaded colours.old values.now }
{
    for value in values {
        colours.shade(*value);
    }
}

/// What the locals of all threads hold becomes gray.
fn shade_rows(colours: &mut Colours, rows: &[[Option<u32>; 16]])
    requires { (i : ℕ) → AreBelow (length colours.old) (slice_index_or rows.now i []) }
    ensures { colours.new ≡ rows_shaded colours.old rows.now }
{
    for row in rows {
        shade_all(colours, row);
    }
}
