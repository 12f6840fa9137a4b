//! What a step of a marker makes of its caller's share in marking.
ghost use Rattle.std.specs.Prelude.{◌≡◌, ◌≢◌, ℕ, ◌+◌, ◌^◌, ◌<◌, ◌==◌, cond};
ghost use Rattle.kn_graph.specs.Ground.{Ground};
ghost use Rattle.kn_marking.specs.Marking.{place, to};
ghost use Rattle.kn_marking.specs.Shares;
ghost use Rattle.kn_marking.specs.Words.{gray};
ghost use Rattle.kn_rule.specs.MarkedHeap.{is_of_ref, next_ref, object_in, object_named, place_behind, set_holds};
ghost use Rattle.kn_rule.specs.Decoding.{phase_of};
ghost use Rattle.kn_rule.specs.MarkSteps.{joined_by, reserved_for, set_after};
ghost use Rattle.kn_rule.specs.Requests.{told_kind};
ghost use Rattle.kn_view.specs.Shares.{IsCellRead, IsChildNear, IsRootRead, MayOwe};

use crate::loads::kind_told;
use crate::words::shape_told;
use kn_base::Sizes;
use kn_layout::{FieldKind, Layout};
use kn_marking::{Child, Doing, Work};
use kn_rule::Action;

const KIND: u64 = 1 << 56;

const COUNT: u64 = 1 << 32;

/// A root set was looked at, claimed, or finished.
pub fn moved_set(work: Work, set: u8, act: Action, word: u64) -> Work
    requires { MayOwe work }
    ensures { (z : Ground) → result ≡ set_after z work word set act }
{
    match act {
        Action::Loads => {
            let due = if word < 4 * u64::from(work.epoch) {
                Some((set, word))
            } else {
                None
            };
            Work { due, ..work }
        }
        Action::Stores(_) => rested(work),
        Action::Swaps(old, _) => {
            if word == old {
                Work {
                    due: None,
                    doing: Doing::Set(set, 0),
                    ..work
                }
            } else {
                Work { due: None, ..work }
            }
        }
        _ => work,
    }
}

/// A root set is finished, or a cell is black.
pub fn rested(work: Work) -> Work
    requires { MayOwe work }
    ensures { result ≡ Shares.rested work }
{
    Work {
        doing: Doing::Free,
        owed: work.owed + 1,
        ..work
    }
}

/// A unit was given back.
pub fn paid(work: Work) -> Work
    ensures { result ≡ Shares.paid work }
{
    Work {
        owed: work.owed.saturating_sub(1),
        ..work
    }
}

/// A unit was added for the child.
pub fn reserved(work: Work) -> Work
    ensures { (z : Ground) (word : _) → result ≡ reserved_for z work word work.child }
{
    match work.child {
        Child::Seen(child, mark) => Work {
            child: Child::Reserved(child, mark),
            ..work
        },
        _ => work,
    }
}

/// A phase word was loaded or stored: one of Mark brings its epoch.
pub fn joined(work: Work, word: u64) -> Work
    requires { word < 2 ^ 35 }
    ensures { result ≡ joined_by (phase_of word) work }
{
    let code = word % 8;
    if code == 2 {
        Work {
            epoch: (word / 8) as u32,
            ..work
        }
    } else {
        work
    }
}

/// What a word of a local, of a global or of a reference field holds.
pub fn held_in(word: u64) -> Option<u32>
    requires { word < 2 ^ 32 }
    ensures { result ≡ object_in word }
{
    if word == 0 { None } else { Some(word as u32) }
}

/// What the word of a name holds: a stable name, or a back name with a count.
pub fn named_in(word: u64) -> Option<u32>
    ensures { result ≡ object_named word }
{
    let kind = word / KIND;
    let address = (word % COUNT) as u32;
    if kind == 1 {
        Some(address)
    } else if kind == 3 {
        if word % KIND / COUNT == 0 {
            None
        } else {
            Some(address)
        }
    } else {
        None
    }
}

/// What a word of a root set holds.
pub fn held_in_set(sizes: &Sizes, set: u8, word: u64) -> Option<u32>
    requires threads { sizes.now.threads + 1 < 2 ^ 32 }
    requires word { set ≢ sizes.now.threads + 1 → word < 2 ^ 32 }
    ensures { result ≡ set_holds sizes.now set word }
{
    let set = u32::from(set);
    if set == sizes.threads {
        held_in(word)
    } else if set == sizes.threads + 1 {
        named_in(word)
    } else {
        held_in(word)
    }
}

/// The first reference field of the object with this header from a field on, and the number behind
/// the last field where there is none.
#[inline(never)]
pub fn next_reference(layouts: &[Layout], header: u64, from: u32) -> u32
    ensures { (z : Ground) → z.layouts ≡ layouts.now → result ≡ next_ref z header from }
{
    let (_, length) = shape_told(header);
    let mut field = from;
    while field < length {
        if is_reference(kind_told(layouts, header, field)) {
            return field;
        }
        field += 1;
    }
    field
}

fn is_reference(kind: Option<FieldKind>) -> bool
    ensures { result ≡ is_of_ref kind }
{
    match kind {
        Some(FieldKind::Ref) => true,
        _ => false,
    }
}

/// The place behind the one that is reached.
pub fn next_place(layouts: &[Layout], doing: Doing) -> u32
    requires { place doing + 1 < 2 ^ 32 }
    ensures { (z : Ground) → z.layouts ≡ layouts.now → result ≡ place_behind z doing }
{
    match doing {
        Doing::Free => 0,
        Doing::Set(_, word) => word + 1,
        Doing::Header(_) => 0,
        Doing::Cell(_, header, field) => next_reference(layouts, header, field + 1),
    }
}

/// The same root set or cell, with another place reached.
pub fn at_place(doing: Doing, place: u32) -> Doing
    ensures { result ≡ to place doing }
{
    match doing {
        Doing::Free => doing,
        Doing::Set(set, _) => Doing::Set(set, place),
        Doing::Header(_) => doing,
        Doing::Cell(address, header, _) => Doing::Cell(address, header, place),
    }
}

/// The place reached was read, and holds this.
#[inline(never)]
pub fn arrived(layouts: &[Layout], work: Work, held: Option<u32>) -> Work
    requires { place work.doing + 1 < 2 ^ 32 }
    ensures { (z : Ground) (n : ℕ) → z.layouts ≡ layouts.now → result ≡ Rattle.kn_rule.specs.MarkSteps.arrived z work n held }
{
    match held {
        None => Work {
            doing: at_place(work.doing, next_place(layouts, work.doing)),
            ..work
        },
        Some(child) => Work {
            child: Child::Met(child),
            ..work
        },
    }
}

/// The word reached of a claimed root set was loaded.
pub fn root_read(sizes: &Sizes, layouts: &[Layout], work: Work, word: u64) -> Work
    requires threads { sizes.now.threads + 1 < 2 ^ 32 }
    requires word { IsRootRead sizes.now work.doing word }
    ensures { (z : Ground) → z.sizes ≡ sizes.now → z.layouts ≡ layouts.now →
        result ≡ Rattle.kn_rule.specs.MarkSteps.root_read z work word work.doing }
{
    match work.doing {
        Doing::Set(set, _) => arrived(layouts, work, held_in_set(sizes, set, word)),
        _ => work,
    }
}

/// A place of a scanned cell was loaded.
#[inline(always)]
pub fn body_read(layouts: &[Layout], work: Work, word: u64) -> Work
    requires { IsCellRead work.doing word }
    ensures { (z : Ground) → z.layouts ≡ layouts.now → result ≡ Rattle.kn_rule.specs.MarkSteps.body_read z work word work.doing }
{
    match work.doing {
        Doing::Header(address) => Work {
            doing: Doing::Cell(address, word, next_reference(layouts, word, 0)),
            ..work
        },
        Doing::Cell(_, _, _) => arrived(layouts, work, held_in(word)),
        _ => work,
    }
}

/// A mark was loaded, or exchanged.
#[inline(always)]
pub fn child_after(layouts: &[Layout], work: Work, address: u32, act: Action, word: u64) -> Work
    requires owed { MayOwe work }
    requires near { IsChildNear work.doing work.child }
    ensures { (z : Ground) → z.layouts ≡ layouts.now →
        result ≡ Rattle.kn_rule.specs.MarkSteps.child_after z work word work.child address act }
{
    match work.child {
        Child::Met(child) => match act {
            Action::Loads => {
                if child == address {
                    mark_loaded(layouts, work, child, word)
                } else {
                    work
                }
            }
            _ => work,
        },
        Child::Reserved(_, mark) => match act {
            Action::Swaps(_, _) => mark_swapped(layouts, work, mark, word),
            _ => work,
        },
        _ => work,
    }
}

// The mark of the child was loaded.
#[inline(always)]
fn mark_loaded(layouts: &[Layout], work: Work, child: u32, word: u64) -> Work
    requires { place work.doing + 1 < 2 ^ 32 }
    ensures { (z : Ground) → z.layouts ≡ layouts.now → result ≡ Rattle.kn_rule.specs.MarkSteps.mark_loaded z work word child }
{
    if word < 4 * u64::from(work.epoch) {
        Work {
            child: Child::Seen(child, word),
            ..work
        }
    } else {
        passed_child(layouts, work)
    }
}

// The child needs no more: the next place is reached.
#[inline(never)]
fn passed_child(layouts: &[Layout], work: Work) -> Work
    requires { place work.doing + 1 < 2 ^ 32 }
    ensures { (z : Ground) → z.layouts ≡ layouts.now → result ≡ Shares.passed_child work (place_behind z work.doing) }
{
    Work {
        doing: at_place(work.doing, next_place(layouts, work.doing)),
        child: Child::NoChild,
        ..work
    }
}

// The mark of the child was to be exchanged: where another caller was first, the unit held is owed.
#[inline(always)]
fn mark_swapped(layouts: &[Layout], work: Work, mark: u64, word: u64) -> Work
    requires owed { MayOwe work }
    requires near { place work.doing + 1 < 2 ^ 32 }
    ensures { (z : Ground) → z.layouts ≡ layouts.now → result ≡ cond (word == mark)
        (Shares.passed_child work (place_behind z work.doing)) (Shares.lost_child work (place_behind z work.doing)) }
{
    let next = passed_child(layouts, work);
    if word == mark {
        next
    } else {
        Work {
            owed: work.owed + 1,
            ..next
        }
    }
}

/// A gray object was to be taken up.
pub fn took_gray(work: Work, address: u32, word: u64) -> Work
    ensures { result ≡ cond (word == gray work.epoch) (Shares.began work address) work }
{
    if word == 4 * u64::from(work.epoch) + 1 {
        Work {
            doing: Doing::Header(address),
            ..work
        }
    } else {
        work
    }
}
