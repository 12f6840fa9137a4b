//! The turns of the collector: which step is next, and what it makes of the state.

ghost use Rattle.std.specs.Prelude.{◌≡◌, ◌≢◌, ◌↔◌, ℕ, ◌-◌, ◌<◌, ◌≤◌, ◌^◌, IsTrue, IfSome, Some, None, length};
ghost use Rattle.std.specs.Prelude.{slice_index_or};
ghost use Rattle.kn_layout.specs.declared.layouts.FieldKind.TheVariants.{Ref as of_ref};
ghost use Rattle.kn_cms_rule.specs.declared.stages.Doing.TheVariants.{Free};
ghost use Rattle.kn_cms_rule.specs.declared.stages.Stage.TheVariants.{Finished, Looking, Marking, Waiting};
ghost use Rattle.kn_cms.specs.Stands.{HasRoom, IsCore};
ghost use Rattle.kn_cms_lists.specs.Kept.{kept_kind};
ghost use Rattle.kn_cms.specs.Moves.{CollectorMoves, IsFirstBusy, IsNextKept, TurnMoves};

use kn_cms_lists::Lists;
use kn_cms_rule::{CmsTurn, Doing, Stage};
use kn_layout::FieldKind;
use kn_lines::Actor;

/// The turn of the collector: a step, unless it waits for a thread or has marked all.
pub(crate) fn collector_turn(lists: &mut Lists) -> CmsTurn
    requires { IsCore lists.old }
    ensures moves { TurnMoves lists.old Actor.Collector result lists.new }
    ensures room { HasRoom lists.new }
{
    match lists.stage {
        Stage::Waiting => wait_or_snapshot(lists),
        Stage::Marking => begin_or_end(lists),
        Stage::Looking(n, from) => {
            look_on(lists, n, from);
            CmsTurn::Moved
        }
        Stage::Finished => CmsTurn::Done,
    }
}

/// The snapshot, unless a thread is in the middle of a call.
fn wait_or_snapshot(lists: &mut Lists) -> CmsTurn
    requires core { IsCore lists.old }
    requires waits { lists.old.stage ≡ Waiting }
    ensures moves { TurnMoves lists.old Actor.Collector result lists.new }
    ensures room { HasRoom lists.new }
{
    match first_busy(&lists.doing) {
        Some(thread) => CmsTurn::Idle(thread),
        None => {
            lists.take_snapshot();
            CmsTurn::Moved
        }
    }
}

/// The beginning of an object, or the end of marking where none is gray.
fn begin_or_end(lists: &mut Lists) -> CmsTurn
    requires core { IsCore lists.old }
    requires marks { lists.old.stage ≡ Marking }
    ensures moves { TurnMoves lists.old Actor.Collector result lists.new }
    ensures room { HasRoom lists.new }
{
    match lists.colours.least_gray() {
        Some(n) => {
            lists.begin(n);
            CmsTurn::Moved
        }
        None => {
            lists.end();
            CmsTurn::Done
        }
    }
}

/// A look at the next reference field of the object begun, or its end where there is none.
fn look_on(lists: &mut Lists, n: u32, from: u32)
    requires core { IsCore lists.old }
    requires begun { lists.old.stage ≡ Looking n from }
    ensures moves { CollectorMoves lists.old lists.new }
    ensures room { HasRoom lists.new }
    ensures goes_on { lists.new.stage ≢ Finished }
{
    match next_ref(lists, n, from) {
        Some(field) => lists.look(n, field),
        None => lists.blacken(n),
    }
}

/// The first reference field of an object from a place on.
fn next_ref(lists: &Lists, n: u32, from: u32) -> Option<u32>
    ensures next { IfSome result (λ f. IsNextKept lists.now n from f) }
    ensures small { IfSome result (λ f. f < 2 ^ 32 - 1) }
    ensures none { result ≡ None → (f : ℕ) → from ≤ f → kept_kind lists.now n f ≢ Some of_ref }
{
    let Some(cell) = lists.cells.cell(n) else {
        return None;
    };
    for field in from..cell.length {
        if is_ref(lists.kind(n, field)) {
            return Some(field);
        }
    }
    None
}

/// Whether a field is there and holds references.
fn is_ref(kind: Option<FieldKind>) -> bool
    ensures { IsTrue result ↔ (kind ≡ Some of_ref) }
{
    match kind {
        Some(FieldKind::Ref) => true,
        _ => false,
    }
}

/// The first thread that is in the middle of a call.
fn first_busy(doing: &[Doing]) -> Option<u8>
    requires { length doing.now ≤ 16 }
    ensures first { IfSome result (λ i. IsFirstBusy doing.now i) }
    ensures none { result ≡ None → (j : ℕ) → slice_index_or doing.now j Free ≡ Free }
{
    for i in 0..doing.len() {
        if !is_free(doing[i]) {
            return Some(i as u8);
        }
    }
    None
}

/// Whether a thread is between two calls.
fn is_free(doing: Doing) -> bool
    ensures { IsTrue result ↔ (doing ≡ Free) }
{
    match doing {
        Doing::Free => true,
        _ => false,
    }
}
