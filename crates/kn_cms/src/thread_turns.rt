//! The turns of threads: which step is next, and what it makes of the state.

ghost use Rattle.std.specs.Prelude.{◌≡◌, ◌↔◌, ℕ, ◌+◌, ◌^◌, ◌<◌, ◌≤◌, IsTrue, Some, true, slice_index_or};
ghost use Rattle.kn_base.specs.Sizes.{word_count};
ghost use Rattle.kn_layout.specs.Layouts.{cell_size};
ghost use Rattle.kn_graph.specs.Graph.{length_for};
ghost use Rattle.kn_cms_rule.specs.declared.stages.Doing.TheVariants.{Free, Loaded, Shaded};
ghost use Rattle.kn_cms_rule.specs.Words.{one_framed};
ghost use Rattle.kn_cms_rule.specs.Calls.{birth_of, is_whole};
ghost use Rattle.kn_cms.specs.Stands.{HasRoom, IsCore};
ghost use Rattle.kn_cms.specs.Moves.{IsAt, ThreadMoves, TurnMoves};

use crate::plans::{carry_out, object_at, plan_call};
use kn_cms_lists::Lists;
use kn_cms_rule::{CmsTurn, Doing};
use kn_graph::{Call, Reply};
use kn_layout::cell_size;
use kn_lines::Actor;

/// The turn of a thread: a step, unless it has no call left.
pub(crate) fn thread_turn(lists: &mut Lists, thread: u8) -> CmsTurn
    requires core { IsCore lists.old }
    requires near { thread < lists.old.ground.sizes.threads }
    ensures moves { TurnMoves lists.old (Actor.Thread thread) result lists.new }
    ensures room { HasRoom lists.new }
{
    let Some(call) = lists.next_call(thread) else {
        return CmsTurn::Done;
    };
    step(lists, thread, &call);
    if lists.next_call(thread).is_some() {
        CmsTurn::Moved
    } else {
        CmsTurn::Done
    }
}

/// The next step of a thread that is at this call.
fn step(lists: &mut Lists, thread: u8, call: &Call)
    requires { IsAt lists.old thread call.now }
    ensures moves { ThreadMoves lists.old thread lists.new }
    ensures room { HasRoom lists.new }
{
    match lists.doing(thread) {
        Doing::Free => first_step(lists, thread, call),
        Doing::Loaded(n, field, value) => second_step(lists, thread, call, n, field, value),
        Doing::Shaded(n, field) => third_step(lists, thread, call, n, field),
    }
}

/// The first step of a call.
fn first_step(lists: &mut Lists, thread: u8, call: &Call)
    requires at { IsAt lists.old thread call.now }
    requires free { slice_index_or lists.old.doing thread Free ≡ Free }
    ensures moves { ThreadMoves lists.old thread lists.new }
    ensures room { HasRoom lists.new }
{
    match *call {
        Call::New(r, layout) => birth(lists, thread, call, r, layout, 0),
        Call::NewArray(r, layout, n) => birth(lists, thread, call, r, layout, n),
        Call::Set(s, field, r) => begin_set(lists, thread, call, s, field, r),
        _ => whole_call(lists, thread, call),
    }
}

/// A birth.
fn birth(lists: &mut Lists, thread: u8, call: &Call, r: u8, layout: u8, elements: u32)
    requires at { IsAt lists.old thread call.now }
    requires free { slice_index_or lists.old.doing thread Free ≡ Free }
    requires asks { birth_of (one_framed lists.old.ground) call.now
        ≡ Some (record { local = r; layout = layout; fields = length_for lists.old.ground layout elements }) }
    requires few { elements ≤ 60000 }
    requires local { r ≤ 15 }
    ensures moves { ThreadMoves lists.old thread lists.new }
    ensures room { HasRoom lists.new }
{
    let fields = lists.ground.length_for(layout, elements);
    if has_room(lists, fields) {
        let address = lists.bear(thread, r, layout, fields);
        lists.answer(thread, call, Reply::Ok, address);
    } else {
        lists.answer(thread, call, Reply::Full, 0);
    }
}

/// Whether there is room for a cell with so many fields.
fn has_room(lists: &Lists, fields: u32) -> bool
    requires { fields ≤ 60000 }
    ensures is { IsTrue result ↔ (lists.now.cells.taken + cell_size fields ≤ word_count lists.now.ground.sizes) }
    ensures small { IsTrue result → lists.now.cells.taken + cell_size fields < 2 ^ 32 }
{
    let words = u64::from(lists.ground.sizes().heap_words());
    u64::from(lists.cells.taken()) + cell_size(fields) <= words
}

/// The first step of a `set`.
fn begin_set(lists: &mut Lists, thread: u8, call: &Call, s: u8, field: u32, r: u8)
    requires at { IsAt lists.old thread call.now }
    requires free { slice_index_or lists.old.doing thread Free ≡ Free }
    requires set { call.now ≡ Call.Set s field r }
    requires local { s ≤ 15 }
    ensures moves { ThreadMoves lists.old thread lists.new }
    ensures room { HasRoom lists.new }
{
    match object_at(lists, thread, s, field) {
        Ok(n) => lists.load(thread, n, field),
        Err(reply) => lists.answer(thread, call, reply, 0),
    }
}

/// The second step of a `set`.
fn second_step(lists: &mut Lists, thread: u8, call: &Call, n: u32, field: u32, value: Option<u32>)
    requires at { IsAt lists.old thread call.now }
    requires loaded { slice_index_or lists.old.doing thread Free ≡ Loaded n field value }
    ensures moves { ThreadMoves lists.old thread lists.new }
    ensures room { HasRoom lists.new }
{
    lists.shade_loaded(thread, n, field, value);
}

/// The third step of a `set`.
fn third_step(lists: &mut Lists, thread: u8, call: &Call, n: u32, field: u32)
    requires at { IsAt lists.old thread call.now }
    requires shaded { slice_index_or lists.old.doing thread Free ≡ Shaded n field }
    ensures moves { ThreadMoves lists.old thread lists.new }
    ensures room { HasRoom lists.new }
{
    if let Call::Set(_, _, r) = *call {
        let cell = lists.cells.at(n);
        let value = lists.local(thread, r);
        lists.store(thread, call, cell, field, value);
    } else {
        unreachable!();
    }
}

/// A whole call.
fn whole_call(lists: &mut Lists, thread: u8, call: &Call)
    requires at { IsAt lists.old thread call.now }
    requires free { slice_index_or lists.old.doing thread Free ≡ Free }
    requires whole { is_whole call.now ≡ true }
    ensures moves { ThreadMoves lists.old thread lists.new }
    ensures room { HasRoom lists.new }
{
    let plan = plan_call(lists, thread, call);
    carry_out(lists, thread, plan.writes);
    lists.answer(thread, call, plan.reply, 0);
}
