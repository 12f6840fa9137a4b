ghost use Rattle.std.specs.Prelude.{◌≡◌, Some, None, slice_index};
ghost use Rattle.kn_lines.specs.Built.{first_word_of, header_word_of, call_spelling, call_among, call_word_of, has_call, only_if, if_built};

use crate::built::{Built, FirstWord, HeaderWord};
use kn_graph::CallWord;

/// The call words that begin with `g`.
const CALLS_WITH_G: [CallWord; 4] = [
    CallWord::Get,
    CallWord::GlobalSet,
    CallWord::GlobalGet,
    CallWord::Collect,
];

/// All call words.
const CALL_WORDS: [CallWord; 22] = [
    CallWord::New,
    CallWord::NewArray,
    CallWord::Copy,
    CallWord::Clear,
    CallWord::Same,
    CallWord::Get,
    CallWord::Set,
    CallWord::Put,
    CallWord::Read,
    CallWord::GlobalSet,
    CallWord::GlobalGet,
    CallWord::Pin,
    CallWord::Unpin,
    CallWord::StableGet,
    CallWord::MakeWeak,
    CallWord::WeakGet,
    CallWord::MakeBack,
    CallWord::Retain,
    CallWord::Release,
    CallWord::BackGet,
    CallWord::Tie,
    CallWord::Collect,
];

/// The first word that a word spells, where it is built.
pub fn read_first_word(built: &Built, word: &[u8]) -> Option<FirstWord>
    ensures { result ≡ first_word_of built.now word.now }
{
    match read_call_word(word) {
        Some(call) => keep_call(built, call),
        None => keep_header(built, read_header_word(word)),
    }
}

/// A call word, where it is built.
fn keep_call(built: &Built, word: CallWord) -> Option<FirstWord>
    ensures { result ≡ only_if (has_call built.now word) (Some (FirstWord.Call word)) }
{
    if built.has_call(word) {
        Some(FirstWord::Call(word))
    } else {
        None
    }
}

/// A header word, where there is one and it is built.
fn keep_header(built: &Built, word: Option<HeaderWord>) -> Option<FirstWord>
    ensures { result ≡ if_built built.now None word }
{
    let word = word?;
    if built.has_header(word) {
        Some(FirstWord::Header(word))
    } else {
        None
    }
}

/// The header word that a word is.
fn read_header_word(word: &[u8]) -> Option<HeaderWord>
    ensures { result ≡ header_word_of word.now }
{
    if word == b"heap".as_slice() {
        Some(HeaderWord::Heap)
    } else if word == b"names".as_slice() {
        Some(HeaderWord::Names)
    } else if word == b"layout".as_slice() {
        Some(HeaderWord::Layout)
    } else if word == b"threads".as_slice() {
        Some(HeaderWord::Threads)
    } else if word == b"turns".as_slice() {
        Some(HeaderWord::Turns)
    } else if word == b"thread".as_slice() {
        Some(HeaderWord::Thread)
    } else if word == b"order".as_slice() {
        Some(HeaderWord::Order)
    } else {
        None
    }
}

/// The call word that a word is. It is looked for among those that begin with the same byte.
fn read_call_word(word: &[u8]) -> Option<CallWord>
    ensures { result ≡ call_word_of word.now }
{
    match first_byte(word) {
        b'n' => read_among(&[CallWord::New, CallWord::NewArray], word),
        b'c' => read_among(&[CallWord::Copy, CallWord::Clear], word),
        b's' => read_among(&[CallWord::Same, CallWord::Set], word),
        b'g' => read_among(&CALLS_WITH_G, word),
        b'p' => read_among(&[CallWord::Put, CallWord::Pin], word),
        b'r' => read_among(&[CallWord::Read, CallWord::Retain, CallWord::Release], word),
        b'u' => read_among(&[CallWord::Unpin], word),
        b'h' => read_among(&[CallWord::StableGet], word),
        b'w' => read_among(&[CallWord::MakeWeak, CallWord::WeakGet], word),
        b'b' => read_among(&[CallWord::MakeBack, CallWord::BackGet], word),
        b't' => read_among(&[CallWord::Tie], word),
        b'l' | b'o' => None,
        _ => read_among(&CALL_WORDS, word),
    }
}

/// The first byte of a word, 0 where there is none.
fn first_byte(word: &[u8]) -> u8
    ensures { result ≡ slice_index word.now 0 }
{
    match word {
        [byte, ..] => *byte,
        [] => 0,
    }
}

/// The call word among these that a word is.
fn read_among(calls: &[CallWord], word: &[u8]) -> Option<CallWord>
    ensures { result ≡ call_among calls.now word.now }
{
    for call in calls {
        if word == spelling(*call) {
            return Some(*call);
        }
    }
    None
}

/// How a call word is spelled.
fn spelling(word: CallWord) -> &'static [u8]
    ensures { result.now ≡ call_spelling word }
{
    match word {
        CallWord::New => b"new".as_slice(),
        CallWord::NewArray => b"newa".as_slice(),
        CallWord::Copy => b"copy".as_slice(),
        CallWord::Clear => b"clear".as_slice(),
        CallWord::Same => b"same".as_slice(),
        CallWord::Get => b"get".as_slice(),
        CallWord::Set => b"set".as_slice(),
        CallWord::Put => b"put".as_slice(),
        CallWord::Read => b"read".as_slice(),
        CallWord::GlobalSet => b"gset".as_slice(),
        CallWord::GlobalGet => b"gget".as_slice(),
        CallWord::Pin => b"pin".as_slice(),
        CallWord::Unpin => b"unpin".as_slice(),
        CallWord::StableGet => b"hget".as_slice(),
        CallWord::MakeWeak => b"weak".as_slice(),
        CallWord::WeakGet => b"wget".as_slice(),
        CallWord::MakeBack => b"back".as_slice(),
        CallWord::Retain => b"retain".as_slice(),
        CallWord::Release => b"release".as_slice(),
        CallWord::BackGet => b"bget".as_slice(),
        CallWord::Tie => b"tie".as_slice(),
        CallWord::Collect => b"gc".as_slice(),
    }
}
