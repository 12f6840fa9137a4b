//! A step, and what its place and its action tell.
ghost use Rattle.std.specs.Prelude.{◌≡◌};
ghost use Rattle.kn_rule.specs.Steps.{address_in, frame_in, local_in, next_of, set_in, state_in};

use kn_base::Place;
use kn_graph::Call;
use kn_rule::Action;

/// A step of a caller, and the word that it found.
#[derive(Clone, Copy)]
pub struct StepFound {
    pub by: u8,
    pub place: Place,
    pub act: Action,
    pub word: u64,
}

#[inline(always)]
pub fn frame_in(place: Place) -> u16
    ensures { result ≡ frame_in place }
{
    match place {
        Place::Frame(p) => p,
        _ => 0,
    }
}

#[inline(always)]
pub fn address_in(place: Place) -> u32
    ensures { result ≡ address_in place }
{
    match place {
        Place::Body(a) => a,
        Place::Side(a) => a,
        _ => 0,
    }
}

#[inline(always)]
pub fn local_in(place: Place) -> u8
    ensures { result ≡ local_in place }
{
    match place {
        Place::Local(_, r) => r,
        _ => 0,
    }
}

/// The caller whose state the word of a place is.
#[inline(always)]
pub fn mutator_in(place: Place) -> u8
    ensures { result ≡ state_in place }
{
    match place {
        Place::State(i) => i,
        _ => 0,
    }
}

#[inline(always)]
pub fn set_in(place: Place) -> u8
    ensures { result ≡ set_in place }
{
    match place {
        Place::RootSet(j) => j,
        _ => 0,
    }
}

/// The call that begins with a load of the phase.
#[inline(always)]
pub fn next_of(act: Action) -> Option<Call>
    ensures { result ≡ next_of act }
{
    match act {
        Action::LoadsFor(next) => next,
        _ => None,
    }
}
