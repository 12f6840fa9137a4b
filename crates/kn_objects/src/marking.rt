//! Marking what is reachable, over plain lists: each object and each field is read once, and
//! nothing is allocated.
//!
//! Three things are kept: a mark for each object, a list of objects (`work`), and how many of its
//! first places count (`height`). Between any two steps each object that counts there is marked,
//! and each marked object is there or has its fields read (`IsWorkList` in `specs/Marking.antt`).

ghost use Rattle.std.specs.Prelude.{◌≡◌, ℕ, ◌<◌, ◌≤◌, ◌↔◌, IsTrue, false, Some, None, [], length, slice_index, slice_index_or};
ghost use Rattle.kn_objects.specs.Replay.{Replay, object_of};
ghost use Rattle.kn_objects.specs.Marking.{Adds, IsReplayOf, HoldsIn, IsHeldIn, IsBehind, IsCounted, IsHeldInRows, IsMarked, IsRootIn, MarksReachable};
ghost use Rattle.kn_objects.specs.Marking.{IsWorkList, objects_left};

use crate::objects::KeptObject;

/// Where walks begin, by object number: the locals of each thread, the globals, the stable names,
/// and the back names with their counts. A back name of count 0 is no root.
#[derive(Drop)]
pub struct Roots<'a> {
    pub locals: &'a [[Option<u32>; 16]],
    pub globals: &'a [Option<u32>],
    pub stable: &'a [Option<u32>],
    pub back: &'a [Option<u32>],
    pub counts: &'a [u16],
}

/// Marks exactly the objects that are reachable from the roots over the fields in `points`, as
/// `specs/Reachable.antt` defines it; the marks that there were are taken away first. The lists are
/// by object number, and `marks` and `work` have a place for each object. What `work` holds before
/// and after means nothing.
pub fn mark_held(
    objects: &[KeptObject],
    points: &[Option<u32>],
    roots: &Roots,
    marks: &mut [bool],
    work: &mut [u32],
)
    requires a_mark_each { length marks.old ≡ length objects.now }
    requires a_place_each { length work.old ≡ length objects.now }
    ensures { (r : Replay) → IsReplayOf r objects.now points.now roots.now → MarksReachable r marks.new }
{
    clear(marks);
    let height = mark_roots(roots, marks, work);
    mark_behind(objects, points, marks, work, height);
}

/// Takes all marks away.
fn clear(marks: &mut [bool])
    ensures { (n : ℕ) → slice_index_or marks.new n false ≡ false }
{
    for mark in marks.iter_mut() {
        *mark = false;
    }
}

/// Marks the roots and lists them.
fn mark_roots(roots: &Roots, marks: &mut [bool], work: &mut [u32]) -> usize
    requires a_place_each { length work.old ≡ length marks.old }
    requires room { objects_left marks.old 0 ≤ length marks.old }
    ensures { Adds (IsRootIn roots.now) marks.old work.old 0 marks.new work.new result }
{
    let height = mark_rows(roots.locals, marks, work, 0);
    let height = mark_values(roots.globals, marks, work, height);
    let height = mark_values(roots.stable, marks, work, height);
    mark_counted(roots.back, roots.counts, marks, work, height)
}

/// Marks what the rows hold.
fn mark_rows(
    rows: &[[Option<u32>; 16]],
    marks: &mut [bool],
    work: &mut [u32],
    mut height: usize,
) -> usize
    requires a_place_each { length work.old ≡ length marks.old }
    requires room { objects_left marks.old height ≤ length marks.old }
    ensures { Adds (IsHeldInRows rows.now) marks.old work.old height marks.new work.new result }
{
    for row in rows {
        height = mark_values(row, marks, work, height);
    }
    height
}

/// Marks what the back names of a positive count hold.
fn mark_counted(
    back: &[Option<u32>],
    counts: &[u16],
    marks: &mut [bool],
    work: &mut [u32],
    mut height: usize,
) -> usize
    requires a_place_each { length work.old ≡ length marks.old }
    requires room { objects_left marks.old height ≤ length marks.old }
    ensures { Adds (IsCounted back.now counts.now) marks.old work.old height marks.new work.new result }
{
    for (b, value) in back.iter().enumerate() {
        if is_counted(counts, b) {
            height = mark_value(*value, marks, work, height);
        }
    }
    height
}

/// Whether the count of a back name is above 0.
fn is_counted(counts: &[u16], b: usize) -> bool
    ensures { IsTrue result ↔ (0 < slice_index counts.now b) }
{
    counts.get(b).copied().unwrap_or(0) > 0
}

/// Reads the fields of the objects on the work list, and of those that are added to it, until none
/// is left there.
fn mark_behind(
    objects: &[KeptObject],
    points: &[Option<u32>],
    marks: &mut [bool],
    work: &mut [u32],
    mut height: usize,
)
    requires a_mark_each { length marks.old ≡ length objects.now }
    requires a_place_each { length work.old ≡ length marks.old }
    requires room { objects_left marks.old height ≤ length marks.old }
    requires waits { IsWorkList objects.now points.now marks.old work.old height }
    ensures { (n : ℕ) → n < length objects.now → IsMarked marks.new n ↔ IsBehind (IsMarked marks.old) objects.now points.now n }
{
    while height > 0 {
        height -= 1;
        let object = &objects[work[height] as usize];
        height = mark_values(fields_of(object, points), marks, work, height);
    }
}

/// Marks what a list of values holds.
fn mark_values(
    values: &[Option<u32>],
    marks: &mut [bool],
    work: &mut [u32],
    mut height: usize,
) -> usize
    requires a_place_each { length work.old ≡ length marks.old }
    requires room { objects_left marks.old height ≤ length marks.old }
    ensures { Adds (IsHeldIn values.now) marks.old work.old height marks.new work.new result }
{
    for value in values {
        height = mark_value(*value, marks, work, height);
    }
    height
}

/// Marks the object that a value names and puts it on the work list, unless it is marked already
/// or was not born.
fn mark_value(value: Option<u32>, marks: &mut [bool], work: &mut [u32], height: usize) -> usize
    requires a_place_each { length work.old ≡ length marks.old }
    requires room { objects_left marks.old height ≤ length marks.old }
    ensures { Adds (λ n. value ≡ Some n) marks.old work.old height marks.new work.new result }
{
    let Some(n) = value else {
        return height;
    };
    let place = n as usize;
    if place >= marks.len() || marks[place] {
        return height;
    }
    marks[place] = true;
    work[height] = n;
    height + 1
}

/// What the fields of an object hold: those of its places that the list has.
fn fields_of<'a>(object: &KeptObject, points: &'a [Option<u32>]) -> &'a [Option<u32>]
    ensures { (f : ℕ) → slice_index_or result.now f None ≡ (object_of points.now [] (Some object.now)).points f }
{
    let fields = &points[object.first.min(points.len())..];
    &fields[..(object.length as usize).min(fields.len())]
}
