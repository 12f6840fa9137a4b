//! Where objects lie, and where the words of root sets do.
ghost use Rattle.std.specs.Prelude.{◌≡◌, ◌+◌, ◌<◌, ◌^◌};
ghost use Rattle.kn_base.specs.Sizes.{IsGood};
ghost use Rattle.kn_rule.specs.Decoding.{header_of};
ghost use Rattle.kn_rule.specs.MarkedHeap;

use kn_base::{LOCALS, Place, Sizes};

const LAYOUT: u64 = 1 << 48;

const LENGTH: u64 = 1 << 24;

/// The end of the small and the large frames, in which objects lie.
#[inline(always)]
pub(crate) fn cell_limit(sizes: &Sizes) -> u32
    requires { IsGood sizes.now }
    ensures { result ≡ MarkedHeap.cell_limit sizes.now }
{
    1 + sizes.small * sizes.small_words + sizes.large * sizes.large_words
}

/// How many words a root set has.
#[inline(always)]
pub(crate) fn set_words(sizes: &Sizes, set: u8) -> u32
    requires { IsGood sizes.now }
    ensures { result ≡ MarkedHeap.set_words sizes.now set }
{
    if u32::from(set) == sizes.threads {
        sizes.globals
    } else if u32::from(set) == sizes.threads + 1 {
        sizes.stable + sizes.back
    } else {
        LOCALS
    }
}

/// The place of a word of a root set.
#[inline(always)]
pub(crate) fn set_place(sizes: &Sizes, set: u8, word: u32) -> Place
    requires good { IsGood sizes.now }
    requires near { word < MarkedHeap.set_words sizes.now set }
    ensures { result ≡ MarkedHeap.set_place sizes.now set word }
{
    if u32::from(set) == sizes.threads {
        Place::Global(word as u8)
    } else if u32::from(set) == sizes.threads + 1 {
        Place::Node(name_in_set(sizes, word))
    } else {
        Place::Local(set, word as u8)
    }
}

// The number of the name that is a word of its root set.
#[inline(always)]
fn name_in_set(sizes: &Sizes, word: u32) -> u8
    requires good { IsGood sizes.now }
    requires near { word < sizes.now.stable + sizes.now.back }
    ensures { result ≡ MarkedHeap.name_in_set sizes.now word }
{
    if word < sizes.stable {
        word as u8
    } else {
        (sizes.weak + word) as u8
    }
}

/// How many fields a header tells of.
#[inline(always)]
pub(crate) fn fields_told(header: u64) -> u32
    ensures value { result ≡ (header_of header).length }
    ensures few { result < 2 ^ 24 }
{
    (header % LAYOUT / LENGTH) as u32
}
