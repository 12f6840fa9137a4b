use crate::{FieldKind, FieldKinds, Layout, cell_words, copy_layouts, kind_at};
use std::test::Fail;

#[test]
fn cells_have_their_sizes(rt: HostRuntime) -> Result<(), Fail> {
    let kinds = FieldKinds::from_vec(vec![in rt.alloc(); FieldKind::Ref, FieldKind::Int]?);
    let pair = Layout::Fields(kinds);
    let empty = Layout::Fields(FieldKinds::from_vec(Vec::new(rt.alloc())));
    let row = Layout::Array(FieldKind::Int);
    let cases = [
        (&pair, 9, 3),
        (&empty, 9, 2),
        (&row, 0, 2),
        (&row, 1, 2),
        (&row, 60_000, 60_001),
    ];
    for (layout, length, words) in cases {
        assert!(rt; cell_words(layout, length) == words);
    }
    Ok(())
}

#[test]
fn fields_have_their_kinds(rt: HostRuntime) -> Result<(), Fail> {
    let kinds = FieldKinds::from_vec(vec![in rt.alloc(); FieldKind::Ref, FieldKind::Int]?);
    let layouts = vec![in rt.alloc(); Layout::Fields(kinds), Layout::Array(FieldKind::Int)]?;
    let copies = copy_layouts(rt.alloc(), layouts.as_slice())?;
    let (pair, row) = (&copies[0], &copies[1]);
    let cases = [
        (pair, 0, 0, Some(FieldKind::Ref)),
        (pair, 0, 1, Some(FieldKind::Int)),
        (pair, 9, 2, None),
        (row, 3, 2, Some(FieldKind::Int)),
        (row, 3, 3, None),
    ];
    for (layout, length, field, kind) in cases {
        assert!(rt; kind_at(layout, length, field) == kind);
    }
    Ok(())
}
