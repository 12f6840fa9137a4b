//! What polls make of a view.
ghost use Rattle.std.specs.Prelude.{◌≡◌, ℕ, ◌+◌, ◌^◌, ◌<◌, ◌≤◌, ◌==◌, ◌&&◌, false, cond};
ghost use Rattle.std.specs.Prelude.{length, nat_le, replicate, slice_index};
ghost use Rattle.kn_base.specs.declared.places.Place.TheVariants.{Phase};
ghost use Rattle.kn_base.specs.Sizes.{frame_count};
ghost use Rattle.kn_graph.specs.declared.calls.Reply.TheVariants.{Full, Nil};
ghost use Rattle.kn_graph.specs.Arguments.{IsInRange};
ghost use Rattle.kn_graph.specs.Counts;
ghost use Rattle.kn_graph.specs.Ground.{Ground, IsGoodGround};
ghost use Rattle.kn_rule.specs.declared.steps.Action.{Action};
ghost use Rattle.kn_rule.specs.declared.steps.Action.TheVariants.{LoadsFor};
ghost use Rattle.kn_rule.specs.Decoding.{phase_of};
ghost use Rattle.kn_rule.specs.Phases.{is_run, last_done};
ghost use Rattle.kn_rule.specs.Requests.{class_asked, asks_too_much};
ghost use Rattle.kn_rule.specs.Steps.{found};
ghost use Rattle.kn_rule.specs.Views.{View};
ghost use Rattle.kn_rule.specs.Outcomes.{polled, poll_run, epoch_told, stays_out, waited, waits_at, view_answer};
ghost use Rattle.kn_view.specs.Parts.{MayBegin, ground_of, is_ready};
ghost use Rattle.kn_view.specs.Told.{IsShort, Makes, Says};

use crate::history::History;
use crate::known::{Known, entry_by};
use crate::shares::joined;
use crate::words::{is_done, pauses_before, runs};
use kn_base::Sizes;
use kn_graph::{Call, Reply};
use kn_layout::Layout;
use kn_rule::{Position, class_of_words, is_past_frames, words_asked};

impl Known {
    /// What a poll makes of it.
    #[inline(always)]
    pub fn polls(
        &mut self,
        history: &mut History,
        sizes: &Sizes,
        layouts: &[Layout],
        by: u8,
        word: u64,
        next: Option<Call>,
    )
        requires short { IsShort history.old }
        requires good { IsGoodGround (ground_of sizes.now layouts.now) }
        requires next { MayBegin (ground_of sizes.now layouts.now) self.old next }
        requires word { word < 2 ^ 35 }
        requires width { length self.old.seen ≡ frame_count sizes.now }
        ensures { let z : Ground = ground_of sizes.now layouts.now in
            (page : _) → Says z self.old self.new history.old history.new (λ v. polled z by v Phase (LoadsFor next) (found word page)) }
    {
        if self.may_begin(word) {
            self.begins(history, sizes, layouts, by, word, next);
        } else {
            self.polls_on(history, by, word);
        }
    }

    // Whether a call may begin at a phase word.
    #[inline(always)]
    fn may_begin(&self, word: u64) -> bool
        ensures { result ≡ (is_run (phase_of word).code && is_ready self.now.position self.now.target) }
    {
        runs(word) && self.is_ready()
    }

    // Whether one may begin in a run phase: between calls, or on entering where no epoch is waited for.
    #[inline(always)]
    fn is_ready(&self) -> bool
        ensures { result ≡ is_ready self.now.position self.now.target }
    {
        match self.position {
            Position::Entering => match self.target {
                None => true,
                Some(_) => false,
            },
            Position::Between => true,
            _ => false,
        }
    }

    // A poll with which no call may begin.
    fn polls_on(&mut self, history: &mut History, by: u8, word: u64)
        requires short { IsShort history.old }
        requires word { word < 2 ^ 35 }
        requires later { (is_run (phase_of word).code && is_ready self.old.position self.old.target) ≡ false }
        ensures { (z : Ground) (next : _) (page : _) →
            Says z self.old self.new history.old history.new (λ v. polled z by v Phase (LoadsFor next) (found word page)) }
    {
        match self.position {
            Position::Entering => {
                if runs(word) {
                    self.waits(history, by, word);
                } else {
                    self.joins(word);
                }
            }
            Position::Between => self.stands(Position::Leaving),
            Position::Waiting => self.waits(history, by, word),
            Position::Out => self.joins(word),
            _ => {}
        }
    }

    // One that is out, or entering, and finds Mark, keeps its epoch.
    fn joins(&mut self, word: u64)
        requires { word < 2 ^ 35 }
        ensures { (z : Ground) (c : ℕ) (a : Action) (page : _) →
            Makes z self.old self.new (λ v. stays_out z c v Phase a (found word page)) }
    {
        self.work = joined(self.work, word);
    }

    // A poll of one that waits for an epoch: in a stop it leaves, where the epoch is not done.
    fn waits(&mut self, history: &mut History, by: u8, word: u64)
        requires short { IsShort history.old }
        requires word { word < 2 ^ 35 }
        ensures { (z : Ground) (a : Action) (page : _) →
            Says z self.old self.new history.old history.new (λ v. waits_at z by v Phase a (found word page) (is_run (phase_of word).code) self.old.target) }
    {
        match self.target {
            None => {}
            Some(target) => {
                if runs(word) {
                    self.waits_in(history, by, word, target);
                } else if is_done(target, word) {
                    let polled = self.polled;
                    self.tells(history, by, word, polled, target);
                } else {
                    self.stands(Position::Leaving);
                }
            }
        }
    }

    // The same in a run phase.
    fn waits_in(&mut self, history: &mut History, by: u8, word: u64, target: u64)
        requires short { IsShort history.old }
        requires word { word < 2 ^ 35 }
        ensures { (z : Ground) (a : Action) (page : _) →
            Says z self.old self.new history.old history.new (λ v. waited z by v Phase a (found word page) target) }
    {
        if is_done(target, word) {
            self.tells(history, by, word, word, target);
        } else {
            self.polled = word;
            self.stands(Position::Waiting);
        }
    }

    // The epoch is done that was wanted.
    fn tells(&mut self, history: &mut History, by: u8, word: u64, polled: u64, target: u64)
        requires short { IsShort history.old }
        requires word { word < 2 ^ 35 }
        requires polled { polled < 2 ^ 35 }
        requires done { target ≤ last_done (phase_of word) }
        ensures { (z : Ground) (a : Action) (page : _) →
            Says z self.old self.new history.old history.new (λ v. epoch_told z by v Phase a (found word page) polled target) }
    {
        self.polled = polled;
        self.target = None;
        self.header = None;
        self.stands(Position::Between);
        let reply = Reply::Epoch(target as u32);
        history.push(entry_by(by, pauses_before(word), Call::Collect, reply, 0));
    }

    // In a run phase a call begins, or none.
    #[inline(always)]
    fn begins(
        &mut self,
        history: &mut History,
        sizes: &Sizes,
        layouts: &[Layout],
        by: u8,
        word: u64,
        next: Option<Call>,
    )
        requires short { IsShort history.old }
        requires good { IsGoodGround (ground_of sizes.now layouts.now) }
        requires next { MayBegin (ground_of sizes.now layouts.now) self.old next }
        requires word { word < 2 ^ 35 }
        requires width { length self.old.seen ≡ frame_count sizes.now }
        ensures { let z : Ground = ground_of sizes.now layouts.now in
            (page : _) → Says z self.old self.new history.old history.new (λ v. poll_run z by v Phase (LoadsFor next) (found word page) next) }
    {
        match next {
            None => {
                self.polled = word;
                self.stands(Position::Between);
            }
            Some(call) => {
                self.counts(word, makes_object(call));
                self.stands(Position::Calling(call));
                match self.answer_to(sizes, layouts, call) {
                    None => {}
                    Some(reply) => {
                        self.stands(Position::Between);
                        self.answers(history, by, call, reply, 0);
                    }
                }
            }
        }
    }

    // A call begins: nothing was read for it, and nothing was seen in its search.
    fn counts(&mut self, word: u64, birth: bool)
        requires word { word < 2 ^ 35 }
        requires calls { self.old.calls + 3 < 2 ^ 32 }
        requires births { self.old.births + 1 < 2 ^ 32 }
        ensures { self.new ≡ record self.old {
          polled = word;
          header = None;
          seen = replicate (length self.old.seen) None;
          refused = replicate (length self.old.seen) false;
          calls = self.old.calls + 1;
          births = self.old.births + cond birth 1 0;
        } }
    {
        self.polled = word;
        self.header = None;
        self.calls += 1;
        self.births += u32::from(birth);
    }

    // What the view alone answers.
    #[inline(always)]
    fn answer_to(&self, sizes: &Sizes, layouts: &[Layout], call: Call) -> Option<Reply>
        requires good { IsGoodGround (ground_of sizes.now layouts.now) }
        requires in_range { IsInRange (ground_of sizes.now layouts.now) call }
        ensures { (v : View) → v.locals ≡ self.now.locals → result ≡ view_answer (ground_of sizes.now layouts.now) v call }
    {
        answer_alone(sizes, layouts, &self.locals, call)
    }
}

/// What a view with these locals alone answers: whether two locals hold one object, that a local is
/// null, that a cell is longer than a frame of its area or that the area has no frame.
#[inline(always)]
pub fn answer_alone(
    sizes: &Sizes,
    layouts: &[Layout],
    locals: &[u32; 16],
    call: Call,
) -> Option<Reply>
    requires good { IsGoodGround (ground_of sizes.now layouts.now) }
    requires in_range { IsInRange (ground_of sizes.now layouts.now) call }
    ensures { (v : View) → result ≡ view_answer (ground_of sizes.now layouts.now) (record v { locals = locals.now }) call }
{
    match call {
        Call::New(r, layout) => full_if(asks_too_much(sizes, layouts, Call::New(r, layout))),
        Call::NewArray(r, layout, n) => {
            full_if(asks_too_much(sizes, layouts, Call::NewArray(r, layout, n)))
        }
        Call::Same(r, s) => {
            if locals[r as usize] == locals[s as usize] {
                Some(Reply::Yes)
            } else {
                Some(Reply::No)
            }
        }
        Call::Get(_, s, _) => nil_at(locals, s),
        Call::Set(s, _, _) => nil_at(locals, s),
        Call::Put(s, _, _) => nil_at(locals, s),
        Call::Read(s, _) => nil_at(locals, s),
        _ => None,
    }
}

#[inline(always)]
fn nil_at(locals: &[u32; 16], r: u8) -> Option<Reply>
    requires { r < 16 }
    ensures { result ≡ cond (slice_index locals.now r == 0) (Some Nil) None }
{
    if locals[r as usize] == 0 {
        Some(Reply::Nil)
    } else {
        None
    }
}

// Whether a call makes an object.
#[inline(always)]
fn makes_object(call: Call) -> bool
    ensures { result ≡ Rattle.kn_graph.specs.Counts.makes_object call }
{
    match call {
        Call::New(_, _) => true,
        Call::NewArray(_, _, _) => true,
        _ => false,
    }
}

#[inline(always)]
fn full_if(full: bool) -> Option<Reply>
    ensures { result ≡ cond full (Some Full) None }
{
    if full { Some(Reply::Full) } else { None }
}

// Whether the cell of a birth is longer than a frame of its area, or the area has no frame.
fn asks_too_much(sizes: &Sizes, layouts: &[Layout], call: Call) -> bool
    requires good { IsGoodGround (ground_of sizes.now layouts.now) }
    requires fits { IsInRange (ground_of sizes.now layouts.now) call }
    ensures { let z : Ground = ground_of sizes.now layouts.now in
        result ≡ asks_too_much z.sizes (class_asked z call) (Rattle.kn_rule.specs.Requests.words_asked z call) }
{
    match words_asked(sizes, layouts, &call) {
        None => false,
        Some(words) => is_past_frames(sizes, class_of_words(sizes, words), words),
    }
}
