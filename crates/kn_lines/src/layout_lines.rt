ghost use Rattle.std.specs.Prelude.{◌≡◌, length, filter_map, IfOk};
ghost use Rattle.kn_layout.specs.declared.layouts.Layout.TheVariants.{Array};
ghost use Rattle.kn_lines.specs.Values.{kind_of, layout_of, array_from};
ghost use Rattle.kn_lines.specs.Ranges.{is_long_layout};

use crate::lines::{Line, Words};
use kn_base::MOST_FIELDS;
use kn_layout::{FieldKind, FieldKinds, Layout};
use std::alloc::{AllocError, Global};

/// The kind that a word spells.
pub fn read_kind(word: &[u8]) -> Option<FieldKind>
    ensures { result ≡ kind_of word.now }
{
    match word {
        b"ref" => Some(FieldKind::Ref),
        b"int" => Some(FieldKind::Int),
        _ => None,
    }
}

/// Whether a layout line of fields has more words than a layout may have.
pub fn is_long_layout(line: &Line, count: usize) -> bool
    requires { count ≡ length line.now.arguments }
    ensures { result ≡ is_long_layout line.now.arguments }
{
    line.second() != b"array".as_slice() && MOST_FIELDS as usize + 1 < count
}

/// The layout of a line with these words behind its first one.
pub fn read_layout(alloc: Global, words: Words) -> Result<Layout, AllocError>
    ensures { IfOk result (λ layout. layout ≡ layout_of words.entry) }
{
    let is_array = words.begins_array();
    let kinds = read_kinds(alloc, words)?;
    Ok(if is_array {
        Layout::Array(first_kind(&kinds))
    } else {
        Layout::Fields(kinds)
    })
}

/// The kinds among words.
fn read_kinds(alloc: Global, words: Words) -> Result<FieldKinds, AllocError>
    ensures { IfOk result (λ kinds. kinds ≡ filter_map kind_of words.entry) }
{
    let mut words = words;
    let mut kinds = Vec::new(alloc);
    while let Some(word) = words.next_word() {
        if let Some(kind) = read_kind(word) {
            kinds.push(kind)?;
        }
    }
    Ok(FieldKinds::from_vec(kinds))
}

/// The first kind, `int` where there is none.
fn first_kind(kinds: &FieldKinds) -> FieldKind
    ensures { Array result ≡ array_from kinds.now }
{
    match kinds.as_slice() {
        [kind, ..] => *kind,
        [] => FieldKind::Int,
    }
}
