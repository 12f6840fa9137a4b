ghost use Rattle.std.specs.Prelude.{◌≡◌, ℕ, ◌≤◌, IfOk};

use std::alloc::{AllocError, Global};
use std::marker::Model;

/// What a field holds: a reference or a number.
#[derive(Clone, Copy, Debug, PartialEq, Eq)]
pub enum FieldKind {
    Ref,
    Int,
}

/// The kinds of an object's fields, in order. Contracts see the list of them.
#[derive(Debug, Drop)]
pub struct FieldKinds {
    kinds: Vec<FieldKind>,
}

impl Model for FieldKinds {
    ghost use Rattle.std.specs.Prelude.{List};
    ghost use Rattle.kn_layout.specs.declared.layouts.FieldKind.{FieldKind};

    ghost Value = { List FieldKind };

    ghost view = { λ kinds. kinds.kinds.items };
}

impl FieldKinds {
    pub fn from_vec(kinds: Vec<FieldKind>) -> FieldKinds
        ensures { result ≡ kinds.items }
    {
        FieldKinds { kinds }
    }

    pub fn into_vec(self) -> Vec<FieldKind>
        ensures { result.items ≡ self }
    {
        let FieldKinds { kinds } = self;
        kinds
    }

    pub fn as_slice(&self) -> &[FieldKind]
        ensures { result.now ≡ self.now }
    {
        self.kinds.as_slice()
    }
}

/// What an object is made of: a list of fields, or elements of one kind.
#[derive(Debug, Drop)]
pub enum Layout {
    Fields(FieldKinds),
    Array(FieldKind),
}

ghost use Rattle.kn_layout.specs.Layouts.{IsLayout, cell_size, nth_kind, size_of};

impl Layout {
    /// An equal layout. An error is want of memory.
    pub fn copy(&self, alloc: Global) -> Result<Layout, AllocError>
        ensures { IfOk result (λ layout. layout ≡ self.now) }
    {
        match self {
            Layout::Fields(kinds) => {
                let kinds = Vec::from_slice(alloc, kinds.as_slice())?;
                Ok(Layout::Fields(FieldKinds::from_vec(kinds)))
            }
            Layout::Array(kind) => Ok(Layout::Array(*kind)),
        }
    }
}

/// Equal layouts, in the same order. An error is want of memory.
pub fn copy_layouts(alloc: Global, layouts: &[Layout]) -> Result<Vec<Layout>, AllocError>
    ensures { IfOk result (λ copies. copies.items ≡ layouts.now) }
{
    let mut copies = Vec::with_capacity(alloc, layouts.len())?;
    for layout in layouts {
        copies.push(layout.copy(alloc)?)?;
    }
    Ok(copies)
}

/// The words of a cell for so many fields or elements: one, and one for each, and at least 2
/// (`cell_size` in `specs/Layouts.antt`).
pub fn cell_size(fields: u32) -> u64
    ensures { result ≡ cell_size fields }
{
    (1 + u64::from(fields)).max(2)
}

/// The words of a cell for an object of this layout (`size_of` in `specs/Layouts.antt`). For a list
/// of fields `length` is ignored.
pub fn cell_words(layout: &Layout, length: u32) -> u32
    requires layout_fits { IsLayout layout.now }
    requires length_fits { length ≤ 60000 }
    ensures { result ≡ size_of layout.now length }
{
    let fields = match layout {
        Layout::Fields(kinds) => kinds.as_slice().len() as u32,
        Layout::Array(_) => length,
    };
    cell_size(fields) as u32
}

/// The kind of field or element `i` of an object of this layout, or `None` where it has no such
/// field (`nth_kind` in `specs/Layouts.antt`). For a list of fields `length` is ignored.
pub fn kind_at(layout: &Layout, length: u32, i: u32) -> Option<FieldKind>
    ensures { result ≡ nth_kind layout.now length i }
{
    match layout {
        Layout::Fields(kinds) => kinds.as_slice().get(i as usize).copied(),
        Layout::Array(kind) => { if i < length { Some(*kind) } else { None } }
    }
}
