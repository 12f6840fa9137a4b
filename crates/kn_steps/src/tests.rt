//! A caller of any heap's steps.
ghost use Rattle.std.specs.Prelude.{◌≡◌, ◌<◌};
ghost use Rattle.kn_rule.specs.declared.positions.Position.TheVariants.{Out, Entering};

use crate::steps::Steps;
use kn_base::{Home, Place};
use kn_rule::Kind;

/// A caller that is out polls, and goes in.
fn goes_in<P: Home, S: Steps<P>>(steps: &mut S, by: u8)
    requires caller { (S.stand steps.old).by ≡ by }
    requires thread { by < (S.stand steps.old).heap.sizes.threads }
    requires out { (S.stand steps.old).view.position ≡ Out }
    ensures { (S.stand steps.new).view.position ≡ Entering }
{
    steps.poll(None);
    steps.store(Place::State(by), 1, Kind::K2);
}
