//! What the word of a frame tells, for any number.
ghost use Rattle.std.specs.Prelude.{◌≡◌};
ghost use Rattle.kn_rule.specs.Decoding.{frame_of};
ghost use Rattle.kn_rule.specs.Requests;

const KIND: u64 = 1 << 56;

const CLASS: u64 = 1 << 40;

/// The class of a frame word.
pub fn class_of(word: u64) -> u16
    ensures { result ≡ (frame_of word).class }
{
    (word % KIND / CLASS) as u16
}

/// Whether a search for a class may claim a frame with this word.
#[inline(always)]
pub fn is_usable(class: u16, word: u64) -> bool
    ensures { result ≡ Requests.is_usable class word }
{
    let kind = word / KIND;
    if kind == 0 {
        true
    } else if kind == 1 {
        true
    } else if kind == 4 {
        true
    } else if kind == 2 {
        class_of(word) == class
    } else {
        false
    }
}
