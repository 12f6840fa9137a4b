//! What loads of fields and of globals make of a view.
ghost use Rattle.std.specs.Prelude.{◌≡◌, ◌<◌};
ghost use Rattle.kn_graph.specs.Ground.{Ground};
ghost use Rattle.kn_rule.specs.declared.positions.Position.TheVariants.{Between, Calling};
ghost use Rattle.kn_rule.specs.Steps.{Found, epoch_in, found, saying};
ghost use Rattle.kn_rule.specs.Outcomes.{load_body, global_read, header_for_call, field_read, ref_read, ref_word};
ghost use Rattle.kn_rule.specs.Requests.{told_kind};
ghost use Rattle.kn_view.specs.Parts.{IsReadAs, IsReadable};
ghost use Rattle.kn_view.specs.Told.{IsShort, Says};

use crate::history::History;
use crate::known::Known;
use crate::words::shape_told;
use kn_graph::{Call, Reply};
use kn_layout::{FieldKind, Layout, kind_at};
use kn_rule::Position;

impl Known {
    /// What a load of a header or of a field makes of it.
    #[inline(always)]
    pub fn loads_body(&mut self, history: &mut History, layouts: &[Layout], by: u8, word: u64)
        requires readable { IsReadable self.old word }
        requires short { IsShort history.old }
        ensures { (z : Ground) (p : _) (a : _) (page : _) → z.layouts ≡ layouts.now →
            Says z self.old self.new history.old history.new (λ v. load_body z by v p a (found word page) self.old.position self.old.header) }
    {
        match self.position {
            Position::Calling(call) => match self.header {
                None => self.reads_header(history, layouts, by, call, word),
                Some(_) => self.reads_field(history, by, word),
            },
            _ => {}
        }
    }

    #[inline(always)]
    fn reads_header(
        &mut self,
        history: &mut History,
        layouts: &[Layout],
        by: u8,
        call: Call,
        word: u64,
    )
        requires calling { self.old.position ≡ Calling call }
        requires short { IsShort history.old }
        ensures { (z : Ground) (p : _) (a : _) (page : _) → z.layouts ≡ layouts.now →
            Says z self.old self.new history.old history.new
            (λ v. header_for_call z by v p a (found word page) call (Rattle.kn_rule.specs.Requests.field_of call)) }
    {
        match field_of(call) {
            None => {}
            Some((_, field, wanted)) => match kind_told(layouts, word, field) {
                None => self.refuses_field(history, by, Reply::NoField),
                Some(kind) => {
                    if kind == wanted {
                        self.header = Some(word);
                    } else {
                        self.refuses_field(history, by, Reply::WrongKind);
                    }
                }
            },
        }
    }

    // The call under way has no field to read or to store.
    fn refuses_field(&mut self, history: &mut History, by: u8, reply: Reply)
        requires { IsShort history.old }
        ensures { (z : Ground) (call : Call) → self.old.position ≡ Calling call →
            Says z self.old self.new history.old history.new (λ v. saying by (epoch_in v) call reply 0 (record v { position = Between })) }
    {
        match self.position {
            Position::Calling(call) => {
                self.stands(Position::Between);
                self.answers(history, by, call, reply, 0);
            }
            _ => {}
        }
    }

    fn reads_field(&mut self, history: &mut History, by: u8, word: u64)
        requires read { (call : Call) → self.old.position ≡ Calling call → IsReadAs call word }
        requires short { IsShort history.old }
        ensures { (z : Ground) (p : _) (a : _) (page : _) (call : Call) → self.old.position ≡ Calling call →
            Says z self.old self.new history.old history.new (λ v. field_read z by v p a (found word page) call) }
    {
        match self.position {
            Position::Calling(call) => match call {
                Call::Get(r, _, _) => self.reads_reference(history, by, call, r, word as u32),
                Call::Read(_, _) => {
                    self.stands(Position::Between);
                    self.answers(history, by, call, Reply::Int(word), 0);
                }
                _ => {}
            },
            _ => {}
        }
    }

    /// What a load of a global makes of it.
    #[inline(always)]
    pub fn loads_global(&mut self, history: &mut History, by: u8, word: u32)
        requires readable { IsReadable self.old word }
        requires short { IsShort history.old }
        ensures { (z : Ground) (p : _) (a : _) (page : _) →
            Says z self.old self.new history.old history.new (λ v. global_read z by v p a (found word page) self.old.position) }
    {
        match self.position {
            Position::Calling(call) => match call {
                Call::GlobalGet(r, _) => self.reads_reference(history, by, call, r, word),
                _ => {}
            },
            _ => {}
        }
    }

    // A reference was read into a local.
    fn reads_reference(&mut self, history: &mut History, by: u8, call: Call, r: u8, address: u32)
        requires local { r < 16 }
        requires short { IsShort history.old }
        ensures { (z : Ground) (p : _) (a : _) (f : Found) → f.word ≡ address →
            Says z self.old self.new history.old history.new (λ v. ref_read z by v p a f call r) }
    {
        self.sets_local(r, address);
        self.stands(Position::Writing(r, address, 0));
        self.answers(history, by, call, reply_to_reference(address), 0);
    }
}

/// The local that names the object of a call on a field, the field, and the kind wanted.
#[inline(always)]
pub fn field_of(call: Call) -> Option<(u8, u32, FieldKind)>
    ensures { result ≡ Rattle.kn_rule.specs.Requests.field_of call }
{
    match call {
        Call::Get(_, s, f) => Some((s, f, FieldKind::Ref)),
        Call::Set(s, f, _) => Some((s, f, FieldKind::Ref)),
        Call::Put(s, f, _) => Some((s, f, FieldKind::Int)),
        Call::Read(s, f) => Some((s, f, FieldKind::Int)),
        _ => None,
    }
}

/// The answer where a reference was read.
#[inline(always)]
pub fn reply_to_reference(address: u32) -> Reply
    ensures { result ≡ ref_word address }
{
    if address == 0 {
        Reply::Null
    } else {
        Reply::Ref
    }
}

/// The kind of a field of the object that a header tells of, and none where it has no such field.
#[inline(always)]
pub fn kind_told(layouts: &[Layout], word: u64, field: u32) -> Option<FieldKind>
    ensures { (z : Ground) → z.layouts ≡ layouts.now → result ≡ told_kind z word field }
{
    let (layout, length) = shape_told(word);
    if field >= length {
        return None;
    }
    match layouts.get(layout) {
        None => None,
        Some(layout) => kind_at(layout, length, field),
    }
}
