//! The steps of threads, as writes of lists.

ghost use Rattle.std.specs.Prelude.{◌≡◌, ℕ, ◌+◌, ◌<◌, ◌≤◌, ◌-◌, ◌^◌, Option, Some, None, IfSome, length, slice_index};
ghost use Rattle.std.specs.Prelude.{slice_set, cond, true};
ghost use Rattle.kn_layout.specs.Layouts.{cell_size};
ghost use Rattle.kn_graph.specs.declared.calls.Reply.TheVariants as replies;
ghost use Rattle.kn_cms_rule.specs.declared.stages.Doing.TheVariants.{Loaded, Shaded};
ghost use Rattle.kn_cms_rule.specs.State.{birth_colour, is_marking};
ghost use Rattle.kn_cms_lists.specs.Kept.{answered_lists, born_lists, with_kept_point, kept_kind, kept_local, kept_point, shaded_list, with_kept_local};

use crate::cells::Cell;
use crate::lists::Lists;
use kn_cms_rule::{Colour, Doing, Stage};
use kn_graph::{Call, Reply};
use kn_layout::FieldKind;

impl Lists {
    /// The kind of a field of an object; none where it has no such field.
    pub fn kind(&self, n: u32, field: u32) -> Option<FieldKind>
        ensures { result ≡ kept_kind self.now n field }
    {
        match self.cells.cell(n) {
            Some(cell) if field < cell.length => self.ground.kind(cell.layout, cell.length, field),
            _ => None,
        }
    }

    /// What a local of a thread holds.
    pub fn local(&self, thread: u8, r: u8) -> Option<u32>
        requires { r ≤ 15 }
        ensures { result ≡ kept_local self.now thread r }
    {
        self.holders.local(thread, r)
    }

    /// Writes a local of a thread.
    pub fn hold(&mut self, thread: u8, r: u8, value: Option<u32>)
        requires thread { thread < length self.old.holders.locals }
        requires local { r ≤ 15 }
        ensures { self.new ≡ with_kept_local self.old thread r value }
    {
        self.holders.set_local(thread, r, value);
    }

    /// Whether the collector marks.
    pub fn is_marking(&self) -> bool
        ensures { result ≡ is_marking self.now.stage }
    {
        match self.stage {
            Stage::Marking | Stage::Looking(_, _) => true,
            _ => false,
        }
    }

    /// A `set` loads the value that it will overwrite.
    pub fn load(&mut self, thread: u8, n: u32, field: u32)
        requires { thread < length self.old.doing }
        ensures { self.new ≡ record self.old { doing = slice_set self.old.doing thread (Loaded n field (kept_point self.old.cells n field)) } }
    {
        let value = self.cells.point(n, field);
        self.go_on(thread, Doing::Loaded(n, field, value));
    }

    /// A `set` shades the value that it has loaded.
    pub fn shade_loaded(&mut self, thread: u8, n: u32, field: u32, value: Option<u32>)
        requires thread { thread < length self.old.doing }
        requires object { is_marking self.old.stage ≡ true → IfSome value (λ n. n < length self.old.colours) }
        ensures { self.new ≡ record self.old {
          doing = slice_set self.old.doing thread (Shaded n field);
          colours = cond (is_marking self.old.stage) (shaded_list self.old.colours value) self.old.colours;
        } }
    {
        if self.is_marking() {
            self.colours.shade(value);
        }
        self.go_on(thread, Doing::Shaded(n, field));
    }

    /// A `set` stores the field.
    pub fn store(&mut self, thread: u8, call: &Call, cell: Cell, field: u32, value: Option<u32>)
        requires room { length self.old.history.list < self.old.history.room }
        requires made { thread < length self.old.made }
        requires doing { thread < length self.old.doing }
        requires few { slice_index self.old.made thread < 2 ^ 32 - 1 }
        requires place { cell.address + field < length self.old.cells.points }
        ensures { self.new ≡ answered_lists (with_kept_point self.old cell field value) thread call.now replies.Ok 0 }
    {
        self.cells.set_point(cell, field, value);
        self.answer(thread, call, Reply::Ok, 0);
    }

    /// An object is born, which a local then holds.
    pub fn bear(&mut self, thread: u8, r: u8, layout: u8, fields: u32) -> u32
        requires room { length self.old.cells.cells < self.old.cells.room }
        requires few { length self.old.cells.cells < 2 ^ 32 }
        requires short { fields ≤ 60000 }
        requires words { self.old.cells.taken + cell_size fields < 2 ^ 32 }
        requires thread { thread < length self.old.holders.locals }
        requires local { r ≤ 15 }
        requires colour { length self.old.cells.cells < length self.old.colours }
        ensures address { result ≡ 1 + self.old.cells.taken }
        ensures after { self.new ≡ born_lists self.old thread r layout fields }
    {
        let n = self.cells.born() as u32;
        let colour = self.birth_colour();
        let address = self.cells.bear(layout, fields);
        self.colours.put(n, colour);
        self.holders.set_local(thread, r, Some(n));
        address
    }

    /// The colour of an object that is born.
    fn birth_colour(&self) -> Colour
        ensures { result ≡ birth_colour self.now.stage }
    {
        match self.stage {
            Stage::Waiting => Colour::White,
            _ => Colour::Black,
        }
    }
}
