//! What searches for a frame make of a view.
ghost use Rattle.std.specs.Prelude.{◌≡◌, ℕ, ◌+◌, ◌<◌, ◌≤◌, false, true, length, slice_set};
ghost use Rattle.kn_base.specs.declared.places.Place.TheVariants.{Frame};
ghost use Rattle.kn_base.specs.Sizes.{IsGood, frame_count};
ghost use Rattle.kn_graph.specs.Arguments.{IsInRange};
ghost use Rattle.kn_graph.specs.Ground.{Ground, IsGoodGround};
ghost use Rattle.kn_rule.specs.declared.positions.Position.TheVariants.{Calling};
ghost use Rattle.kn_rule.specs.Decoding.{frame_of};
ghost use Rattle.kn_rule.specs.FrameSpans.{frame_span};
ghost use Rattle.kn_rule.specs.HistoryClauses.{IsRightCall};
ghost use Rattle.kn_rule.specs.Requests.{InArea, area_count, area_from, class_asked};
ghost use Rattle.kn_rule.specs.Searches.{done_from, is_done_with, is_over};
ghost use Rattle.kn_rule.specs.Steps.{Found, found};
ghost use Rattle.kn_rule.specs.Outcomes.{looked_at, full_if, home_at};
ghost use Rattle.kn_rule.specs.Views.{Open};
ghost use Rattle.kn_view.specs.Parts.{IsSearched, ground_of};
ghost use Rattle.kn_view.specs.Told.{IsShort, Says, SaysOwning};

use crate::history::History;
use crate::known::Known;
use kn_base::{SINGLE_CLASS, Sizes, Span};
use kn_graph::{Call, Reply};
use kn_layout::Layout;
use kn_rule::{Position, area_of, class_of_words, is_usable, words_asked};

impl Known {
    /// What a look at a frame makes of it.
    #[inline(always)]
    pub fn looks_at(
        &mut self,
        history: &mut History,
        sizes: &Sizes,
        layouts: &[Layout],
        by: u8,
        frame: u16,
        word: u64,
    )
        requires short { IsShort history.old }
        requires good { IsGoodGround (ground_of sizes.now layouts.now) }
        requires call { IsRightCall (ground_of sizes.now layouts.now) self.old.position }
        requires near { frame < frame_count sizes.now }
        requires width { length self.old.seen ≡ frame_count sizes.now }
        requires area { IsSearched (ground_of sizes.now layouts.now) frame self.old.position }
        ensures { let z : Ground = ground_of sizes.now layouts.now in
            (a : _) (page : _) → Says z self.old self.new history.old history.new
            (λ v. looked_at z by v (Frame frame) a (found word page) self.old.position) }
    {
        match self.position {
            Position::Calling(_) => {
                if self.sees(frame, word, last_beside(sizes, frame) as usize) {
                    self.ends_search(history, sizes, layouts, by);
                }
            }
            _ => {}
        }
    }

    // A frame was seen in this search, with a word. Tells whether the last one was seen in it too: a search
    // is not done with a frame that it has not seen.
    #[inline(always)]
    fn sees(&mut self, frame: u16, word: u64, last: usize) -> bool
        requires near { frame < length self.old.seen }
        requires last { last < length self.old.seen }
        ensures seen { self.new ≡ record self.old { seen = slice_set self.old.seen frame (Some word) } }
        ensures last { (class : ℕ) → result ≡ false → is_done_with class self.new.seen self.new.refused last ≡ false }
    {
        let search = self.calls + 1;
        let look = &mut self.looks[frame as usize];
        look.seen_in = search;
        look.word = word;
        self.looks[last].seen_in == search
    }

    // A frame was refused in this search.
    fn rules_out(&mut self, frame: u16)
        requires { frame < length self.old.refused }
        ensures { self.new ≡ record self.old { refused = slice_set self.old.refused frame true } }
    {
        let search = self.calls + 1;
        let look = &mut self.looks[frame as usize];
        look.refused_in = search;
    }

    // The call under way is full where its search is done with each frame of its area.
    fn ends_search(&mut self, history: &mut History, sizes: &Sizes, layouts: &[Layout], by: u8)
        requires short { IsShort history.old }
        requires good { IsGoodGround (ground_of sizes.now layouts.now) }
        requires call { IsRightCall (ground_of sizes.now layouts.now) self.old.position }
        ensures { let z : Ground = ground_of sizes.now layouts.now in
            (call : Call) (p : _) (a : _) (f : Found) → self.old.position ≡ Calling call →
            Says z self.old self.new history.old history.new (λ v. full_if z by v p a f (is_over z call self.old.seen self.old.refused) call v) }
    {
        match self.position {
            Position::Calling(call) => {
                if self.is_over(sizes, class_for(sizes, layouts, call)) {
                    self.stands(Position::Between);
                    self.answers(history, by, call, Reply::Full, 0);
                }
            }
            _ => {}
        }
    }

    // The frames are looked at from the last one on, which a search in order sees last.
    #[inline(always)]
    fn is_over(&self, sizes: &Sizes, class: u16) -> bool
        requires { IsGood sizes.now }
        ensures { result ≡ done_from class self.now.seen self.now.refused (area_from sizes.now class) (area_count sizes.now class) }
    {
        let (from, count) = area_of(sizes, class);
        for number in (0..count).rev() {
            if !self.is_done_with(class, (from + number) as usize) {
                return false;
            }
        }
        true
    }

    #[inline(always)]
    fn is_done_with(&self, class: u16, frame: usize) -> bool
        ensures { result ≡ is_done_with class self.now.seen self.now.refused frame }
    {
        let search = self.calls + 1;
        match self.looks.get(frame) {
            None => false,
            Some(look) => {
                look.seen_in == search
                    && (look.refused_in == search || !is_usable(class, look.word))
            }
        }
    }

    /// What it makes of it that a frame goes home, with its words and the class of its word, whose page
    /// has these free spans.
    pub fn puts_home(
        &mut self,
        history: &mut History,
        sizes: &Sizes,
        layouts: &[Layout],
        by: u8,
        frame: u16,
        home: (Span, u16),
        spans: &[Span],
    )
        requires short { IsShort history.old }
        requires good { IsGoodGround (ground_of sizes.now layouts.now) }
        requires call { IsRightCall (ground_of sizes.now layouts.now) self.old.position }
        requires near { frame < length self.old.refused }
        requires frame { home.0 ≡ frame_span sizes.now frame }
        ensures { let z : Ground = ground_of sizes.now layouts.now in
            (a : _) (f : Found) (o : Open) → (frame_of o.word).class ≡ home.1 → o.free ≡ spans.now →
            SaysOwning z self.old self.new history.old history.new frame (Some o) None (λ v. home_at z by v (Frame frame) a f self.old.position) }
    {
        match self.position {
            Position::Calling(call) => {
                if refuses(sizes, layouts, call, home, spans) {
                    self.rules_out(frame);
                    self.ends_search(history, sizes, layouts, by);
                }
            }
            _ => {}
        }
    }
}

// The last frame of the area that a frame lies in.
#[inline(always)]
fn last_beside(sizes: &Sizes, frame: u16) -> u32
    requires good { IsGood sizes.now }
    requires near { frame < frame_count sizes.now }
    ensures near { result < frame_count sizes.now }
    ensures last { (class : ℕ) → InArea sizes.now frame class →
        (area_from sizes.now class ≤ result) × (area_from sizes.now class + area_count sizes.now class ≡ result + 1) }
{
    let frame = u32::from(frame);
    let large = sizes.small + sizes.large;
    if frame < sizes.small {
        sizes.small - 1
    } else if frame < large {
        large - 1
    } else {
        sizes.frames() - 1
    }
}

// The class that a call asks for, and 0 where it asks for none.
pub(crate) fn class_for(sizes: &Sizes, layouts: &[Layout], call: Call) -> u16
    requires good { IsGoodGround (ground_of sizes.now layouts.now) }
    requires fits { IsInRange (ground_of sizes.now layouts.now) call }
    ensures { result ≡ class_asked (ground_of sizes.now layouts.now) call }
{
    match words_asked(sizes, layouts, &call) {
        None => 0,
        Some(words) => class_of_words(sizes, words),
    }
}

// Whether the page of a frame that goes home is refused in the search of a call.
fn refuses(sizes: &Sizes, layouts: &[Layout], call: Call, home: (Span, u16), spans: &[Span]) -> bool
    requires good { IsGoodGround (ground_of sizes.now layouts.now) }
    requires fits { IsInRange (ground_of sizes.now layouts.now) call }
    ensures { let z : Ground = ground_of sizes.now layouts.now in
        (p : ℕ) (o : Open) → home.0 ≡ frame_span z.sizes p → (frame_of o.word).class ≡ home.1 → o.free ≡ spans.now →
        result ≡ Rattle.kn_rule.specs.Searches.refuses z call (Rattle.kn_rule.specs.Requests.words_asked z call) p o }
{
    match words_asked(sizes, layouts, &call) {
        None => false,
        Some(words) => {
            let other = home.1 == SINGLE_CLASS || home.1 != class_of_words(sizes, words);
            (other && !is_whole(home.0, spans)) || !has_span(words, spans)
        }
    }
}

// All words of the frame are free.
fn is_whole(frame: Span, spans: &[Span]) -> bool
    ensures { result ≡ Rattle.kn_rule.specs.Requests.is_whole frame spans.now }
{
    match spans {
        [span] => span.start == frame.start && span.len == frame.len,
        _ => false,
    }
}

// A free span has at least so many words.
fn has_span(words: u32, spans: &[Span]) -> bool
    ensures { result ≡ Rattle.kn_rule.specs.Requests.has_span words spans.now }
{
    for span in spans {
        if words <= span.len {
            return true;
        }
    }
    false
}
