ghost use Rattle.std.specs.Prelude.{◌≡◌, ◌↔◌, IsTrue};
ghost use Rattle.kn_graph.specs.Variants.{number_in, variant_of};

use std::fmt;

/// One call of a script, with its arguments in the order of the script.
///
/// Locals, globals and names are numbers from 0. A layout is the number of a `layout` line.
#[derive(Clone, Copy)]
pub enum Call {
    /// `new r L`: the local, the layout.
    New(u8, u8),
    /// `newa r L n`: the local, the layout, the number of elements.
    NewArray(u8, u8, u32),
    /// `copy r s`: the local written, the local read.
    Copy(u8, u8),
    /// `clear r`: the local.
    Clear(u8),
    /// `same r s`: two locals.
    Same(u8, u8),
    /// `get r s f`: the local written, the local of the object, the field.
    Get(u8, u8, u32),
    /// `set s f r`: the local of the object, the field, the local read.
    Set(u8, u32, u8),
    /// `put s f n`: the local of the object, the field, the number.
    Put(u8, u32, u64),
    /// `read s f`: the local of the object, the field.
    Read(u8, u32),
    /// `gset g r`: the global, the local read.
    GlobalSet(u8, u8),
    /// `gget r g`: the local written, the global.
    GlobalGet(u8, u8),
    /// `pin h r`: the stable name, the local of the object.
    Pin(u8, u8),
    /// `unpin h`: the stable name.
    Unpin(u8),
    /// `hget r h`: the local written, the stable name.
    StableGet(u8, u8),
    /// `weak w r`: the weak name, the local of the object.
    MakeWeak(u8, u8),
    /// `wget r w`: the local written, the weak name.
    WeakGet(u8, u8),
    /// `back b r`: the back name, the local of the object.
    MakeBack(u8, u8),
    /// `retain b`: the back name.
    Retain(u8),
    /// `release b`: the back name.
    Release(u8),
    /// `bget r b`: the local written, the back name.
    BackGet(u8, u8),
    /// `tie r c n`: the local of the object, the cleaner, the number.
    Tie(u8, u8, u32),
    /// `gc`.
    Collect,
}

/// What a call answers.
#[derive(Clone, Copy)]
pub enum Reply {
    /// It was done.
    Ok,
    /// No cell was found; nothing changed that a call can see.
    Full,
    /// A local that the call needs is null.
    Nil,
    Yes,
    No,
    /// A reference was read.
    Ref,
    /// Null was read.
    Null,
    /// The object has no field of that number.
    NoField,
    /// The field is of the other kind; printed as `kind`.
    WrongKind,
    /// The number that was read.
    Int(u64),
    /// The name is in use.
    Taken,
    /// The name was not made, or was given up.
    Vacant,
    /// The referent is gone; printed as `none`.
    Nothing,
    /// The count after the call.
    Count(u16),
    /// The count stands at its greatest value.
    Top,
    /// The count is 0.
    Zero,
    /// The object has a tie.
    Already,
    /// The epoch that a collection ended with.
    Epoch(u32),
}

impl Reply {
    /// The number of the variant, in the order above.
    fn variant(&self) -> u8
        ensures { result ≡ variant_of self.now }
    {
        match self {
            Reply::Ok => 0,
            Reply::Full => 1,
            Reply::Nil => 2,
            Reply::Yes => 3,
            Reply::No => 4,
            Reply::Ref => 5,
            Reply::Null => 6,
            Reply::NoField => 7,
            Reply::WrongKind => 8,
            Reply::Int(_) => 9,
            Reply::Taken => 10,
            Reply::Vacant => 11,
            Reply::Nothing => 12,
            Reply::Count(_) => 13,
            Reply::Top => 14,
            Reply::Zero => 15,
            Reply::Already => 16,
            Reply::Epoch(_) => 17,
        }
    }

    /// The number that the reply tells, and 0 where it tells none.
    fn number(&self) -> u64
        ensures { result ≡ number_in self.now }
    {
        match *self {
            Reply::Int(n) => n,
            Reply::Count(n) => u64::from(n),
            Reply::Epoch(e) => u64::from(e),
            _ => 0,
        }
    }

    /// Whether two replies are the same.
    pub fn is_same(&self, other: &Reply) -> bool
        ensures { IsTrue result ↔ (self.now ≡ other.now) }
    {
        self.variant() == other.variant() && self.number() == other.number()
    }
}

impl fmt::Display for Reply {
    ghost use Rattle.std.specs.Prelude.{Some};
    ghost use Rattle.kn_graph.specs.Texts.{reply_text};

    ghost output = { λ reply. Some (reply_text reply) };

    fn fmt<W: fmt::Write>(&self, f: &mut fmt::Formatter<W>) -> fmt::Result {
        match self {
            Reply::Ok => f.write_str("ok"),
            Reply::Full => f.write_str("full"),
            Reply::Nil => f.write_str("nil"),
            Reply::Yes => f.write_str("yes"),
            Reply::No => f.write_str("no"),
            Reply::Ref => f.write_str("ref"),
            Reply::Null => f.write_str("null"),
            Reply::NoField => f.write_str("nofield"),
            Reply::WrongKind => f.write_str("kind"),
            Reply::Int(n) => write!(f, "int {n}"),
            Reply::Taken => f.write_str("taken"),
            Reply::Vacant => f.write_str("vacant"),
            Reply::Nothing => f.write_str("none"),
            Reply::Count(n) => write!(f, "count {n}"),
            Reply::Top => f.write_str("top"),
            Reply::Zero => f.write_str("zero"),
            Reply::Already => f.write_str("already"),
            Reply::Epoch(e) => write!(f, "epoch {e}"),
        }
    }
}
