//! What words tell, and the word that an action leaves. Each but `pauses_before`, `is_done` and `left_by` is right for any number.
ghost use Rattle.std.specs.Prelude.{◌≡◌, ◌^◌, ◌<◌, IsTrue, nat_le};
ghost use Rattle.kn_rule.specs.Decoding.{phase_of, header_of};
ghost use Rattle.kn_rule.specs.Phases.{is_run, is_stop, last_done, pauses};
ghost use Rattle.kn_rule.specs.Steps.{word_stored, word_wanted, word_after};
ghost use Rattle.kn_view.specs.Words.{MayLeave};

use kn_rule::Action;

const LAYOUT: u64 = 1 << 48;

const LENGTH: u64 = 1 << 24;

/// Whether calls begin in the phase of a word.
#[inline(always)]
pub fn runs(word: u64) -> bool
    ensures { result ≡ is_run (phase_of word).code }
{
    let code = word % 8;
    if code == 0 {
        true
    } else if code == 3 {
        true
    } else {
        code > 5
    }
}

/// The pauses before a phase word.
#[inline(always)]
pub fn pauses_before(word: u64) -> u32
    requires { word < 2 ^ 35 }
    ensures { result ≡ pauses (phase_of word) }
{
    let epoch = (word / 8) as u32;
    let code = word % 8;
    if code == 1 {
        epoch.saturating_sub(1)
    } else if code == 2 {
        epoch.saturating_sub(1)
    } else {
        epoch
    }
}

// The last epoch that is done at a phase word.
fn done_before(word: u64) -> u32
    requires { word < 2 ^ 35 }
    ensures { result ≡ last_done (phase_of word) }
{
    let epoch = (word / 8) as u32;
    if word % 8 == 0 {
        epoch
    } else {
        epoch.saturating_sub(1)
    }
}

/// Whether an epoch is done at a phase word.
pub fn is_done(epoch: u64, word: u64) -> bool
    requires { word < 2 ^ 35 }
    ensures is { result ≡ nat_le epoch (last_done (phase_of word)) }
    ensures short { IsTrue result → epoch < 2 ^ 32 }
{
    epoch <= u64::from(done_before(word))
}

/// Whether a phase word is that of a stop.
pub fn stops(word: u64) -> bool
    ensures { result ≡ is_stop (phase_of word).code }
{
    let code = word % 8;
    if code == 1 { true } else { code == 4 }
}

/// The layout of a header word, and its number of fields.
#[inline(always)]
pub fn shape_told(word: u64) -> (usize, u32)
    ensures layout { result.0 ≡ (header_of word).layout }
    ensures length { result.1 ≡ (header_of word).length }
{
    ((word / LAYOUT) as usize, (word % LAYOUT / LENGTH) as u32)
}

/// The word that an action leaves where it found this one.
#[inline(always)]
pub fn left_by(act: Action, word: u64) -> u64
    requires { MayLeave act word }
    ensures { result ≡ word_after act word }
{
    match act {
        Action::Loads | Action::LoadsFor(_) => word,
        Action::Stores(new) => new,
        Action::Swaps(old, new) => if word == old { new } else { word },
        Action::Adds(n) => word + n,
        Action::Subtracts(n) => word.saturating_sub(n),
        Action::Raises(n) => if word <= n { n } else { word },
    }
}

/// The word that an action stores, or wants to store.
#[inline(always)]
pub fn stored_by(act: Action) -> u64
    ensures { result ≡ word_stored act }
{
    match act {
        Action::Stores(new) => new,
        Action::Swaps(_, new) => new,
        _ => 0,
    }
}

/// The word that an exchange wants to find.
#[inline(always)]
pub fn wanted_by(act: Action) -> u64
    ensures { result ≡ word_wanted act }
{
    match act {
        Action::Swaps(old, _) => old,
        _ => 0,
    }
}
