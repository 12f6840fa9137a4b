ghost use Rattle.std.specs.Prelude.{◌≡◌};
ghost use Rattle.kn_lines.specs.Values.{call_from};
ghost use Rattle.kn_lines.specs.Kept.{IsSmallCall};

use kn_graph::{Call, CallWord};

/// The call of a word with these arguments.
pub fn make_call(word: CallWord, values: [u64; 6]) -> Call
    requires { IsSmallCall (call_from word values) }
    ensures { result ≡ call_from word values }
{
    let [first, second, third, _, _, _] = values;
    match word {
        CallWord::New => Call::New(first as u8, second as u8),
        CallWord::NewArray => Call::NewArray(first as u8, second as u8, third as u32),
        CallWord::Copy => Call::Copy(first as u8, second as u8),
        CallWord::Clear => Call::Clear(first as u8),
        CallWord::Same => Call::Same(first as u8, second as u8),
        CallWord::Get => Call::Get(first as u8, second as u8, third as u32),
        CallWord::Set => Call::Set(first as u8, second as u32, third as u8),
        CallWord::Put => Call::Put(first as u8, second as u32, third),
        CallWord::Read => Call::Read(first as u8, second as u32),
        CallWord::GlobalSet => Call::GlobalSet(first as u8, second as u8),
        CallWord::GlobalGet => Call::GlobalGet(first as u8, second as u8),
        CallWord::Pin => Call::Pin(first as u8, second as u8),
        CallWord::Unpin => Call::Unpin(first as u8),
        CallWord::StableGet => Call::StableGet(first as u8, second as u8),
        CallWord::MakeWeak => Call::MakeWeak(first as u8, second as u8),
        CallWord::WeakGet => Call::WeakGet(first as u8, second as u8),
        CallWord::MakeBack => Call::MakeBack(first as u8, second as u8),
        CallWord::Retain => Call::Retain(first as u8),
        CallWord::Release => Call::Release(first as u8),
        CallWord::BackGet => Call::BackGet(first as u8, second as u8),
        CallWord::Tie => Call::Tie(first as u8, second as u8, third as u32),
        CallWord::Collect => Call::Collect,
    }
}
