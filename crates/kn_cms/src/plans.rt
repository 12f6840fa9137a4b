//! What a whole call answers and what it writes, decided before anything is written.

ghost use Rattle.std.specs.Prelude.{◌≡◌, ◌<◌, ◌≤◌, Some, MatchResult, true, length};
ghost use Rattle.kn_graph.specs.Answers.{is_same, ref_or_null, yes_or_no};
ghost use Rattle.kn_graph.specs.Arguments.{IsInRange};
ghost use Rattle.kn_layout.specs.declared.layouts.FieldKind.TheVariants.{Ref as of_ref};
ghost use Rattle.kn_cms_rule.specs.Words.{one_framed};
ghost use Rattle.kn_cms_rule.specs.Calls.{is_whole};
ghost use Rattle.kn_cms_lists.specs.Kept.{kept_kind, kept_local};
ghost use Rattle.kn_cms.specs.Moves.{IsPlanOf, IsWritable, refusal_of, written};

use kn_cms_lists::Lists;
use kn_graph::{Call, Reply};
use kn_layout::FieldKind;

/// What a whole call writes.
#[derive(Clone, Copy)]
pub(crate) enum Write {
    Nothing,
    /// A local of the thread: its number, the value.
    Local(u8, Option<u32>),
    /// A global: its number, the value.
    Global(u8, Option<u32>),
}

/// What a whole call answers and what it writes.
#[derive(Clone, Copy)]
pub(crate) struct Plan {
    pub(crate) reply: Reply,
    pub(crate) writes: Write,
}

/// The object that a local holds, where a field of it holds references; else the answer that says
/// what is wanting.
pub(crate) fn object_at(lists: &Lists, thread: u8, r: u8, field: u32) -> Result<u32, Reply>
    requires { r ≤ 15 }
    ensures object { MatchResult result
        (λ n. kept_local lists.now thread r ≡ Some n)
        (λ reply. refusal_of (kept_local lists.now thread r) (λ n. kept_kind lists.now n field) ≡ Some reply) }
    ensures kind { MatchResult result
        (λ n. kept_kind lists.now n field ≡ Some of_ref)
        (λ reply. Unit {0}) }
{
    match lists.local(thread, r) {
        None => Err(Reply::Nil),
        Some(n) => match lists.kind(n, field) {
            None => Err(Reply::NoField),
            Some(FieldKind::Int) => Err(Reply::WrongKind),
            Some(FieldKind::Ref) => Ok(n),
        },
    }
}

/// What a whole call answers and writes.
pub(crate) fn plan_call(lists: &Lists, thread: u8, call: &Call) -> Plan
    requires whole { is_whole call.now ≡ true }
    requires range { IsInRange (one_framed lists.now.ground) call.now }
    ensures is { IsPlanOf lists.now thread call.now result }
    ensures fits { IsWritable lists.now.ground result.writes }
{
    match *call {
        Call::Copy(r, s) => done(Write::Local(r, lists.local(thread, s))),
        Call::Clear(r) => done(Write::Local(r, None)),
        Call::Same(r, s) => told(same_or_not(lists.local(thread, r), lists.local(thread, s))),
        Call::Get(r, s, field) => plan_get(lists, thread, r, s, field),
        Call::GlobalSet(i, r) => done(Write::Global(i, lists.local(thread, r))),
        Call::GlobalGet(r, i) => reads(r, lists.holders.global(i)),
        _ => unreachable!(),
    }
}

fn plan_get(lists: &Lists, thread: u8, r: u8, s: u8, field: u32) -> Plan
    requires r { r ≤ 15 }
    requires s { s ≤ 15 }
    ensures is { IsPlanOf lists.now thread (Call.Get r s field) result }
    ensures fits { IsWritable lists.now.ground result.writes }
{
    match object_at(lists, thread, s, field) {
        Ok(n) => reads(r, lists.cells.point(n, field)),
        Err(reply) => told(reply),
    }
}

/// Makes what a plan writes.
pub(crate) fn carry_out(lists: &mut Lists, thread: u8, writes: Write)
    requires thread { thread < length lists.old.holders.locals }
    requires fits { IsWritable lists.old.ground writes }
    requires globals { length lists.old.holders.globals ≡ lists.old.ground.sizes.globals }
    ensures { lists.new ≡ written lists.old thread writes }
{
    match writes {
        Write::Nothing => {}
        Write::Local(r, value) => lists.hold(thread, r, value),
        Write::Global(i, value) => lists.holders.set_global(i, value),
    }
}

/// A plan that writes something and is answered with `ok`.
fn done(writes: Write) -> Plan
    ensures { result ≡ record { reply = Reply.Ok; writes = writes } }
{
    Plan {
        reply: Reply::Ok,
        writes,
    }
}

/// A plan that writes nothing.
fn told(reply: Reply) -> Plan
    ensures { result ≡ record { reply = reply; writes = Write.Nothing } }
{
    Plan {
        reply,
        writes: Write::Nothing,
    }
}

/// A plan that reads a value into a local.
fn reads(r: u8, value: Option<u32>) -> Plan
    ensures { result ≡ record { reply = ref_or_null value; writes = Write.Local r value } }
{
    let reply = if value.is_some() {
        Reply::Ref
    } else {
        Reply::Null
    };
    Plan {
        reply,
        writes: Write::Local(r, value),
    }
}

/// Whether two locals are both null or hold the same object, as an answer.
fn same_or_not(a: Option<u32>, b: Option<u32>) -> Reply
    ensures { result ≡ yes_or_no (is_same a b) }
{
    if a == b { Reply::Yes } else { Reply::No }
}
