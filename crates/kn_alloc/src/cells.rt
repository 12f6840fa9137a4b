//! Cells out of the pages of all classes.
ghost use Rattle.std.specs.Prelude.{◌≡◌, ◌↔◌, IsNone, MatchOption};
ghost use Rattle.kn_alloc.specs.Cells.{AsksFor, CannotServe, IsBeside, TakesCell};
ghost use Rattle.kn_base.specs.Classes.{IsClassNumber};
ghost use Rattle.kn_base.specs.Pages.{IsWholePage, whole_view};
ghost use Rattle.kn_page.specs.PageViews.{page_view};

use kn_base::{EXTRA_CLASS, NEXT_FIT_CLASS, SINGLE_CLASS, Span};
use kn_page::Page;

/// Takes a cell of so many words out of a page, or `None` exactly where the page has none
/// (`CannotServe` in `specs/Cells.antt`); then the page is as it was.
pub fn take_cell(page: &mut Page, words: u32) -> Option<Span>
    requires { AsksFor (page_view page.old).class words }
    ensures none { IsNone result ↔ CannotServe (page_view page.old) words }
    ensures after { MatchOption result (page.new ≡ page.old)
        (λ cell. TakesCell (page_view page.old) words (page_view page.new) cell) }
{
    match page {
        Page::Fixed(page) => page.take(),
        Page::NextFit(page) => page.take(words),
        Page::Single(page) => page.take(words),
        Page::Extra(page) => page.take(),
    }
}

/// The same frame as a wholly free page of another class of its area.
pub(crate) fn remade(page: Page, class: u16) -> Page
    requires free { IsWholePage (page_view page) }
    requires area { IsBeside (page_view page).class class }
    ensures { page_view result ≡ whole_view class (page_view page).frame }
{
    let _known = class_of(&page);
    page.remake(class)
}

// The class of a page, which is the number of one.
fn class_of(page: &Page) -> u16
    ensures class { result ≡ (page_view page.now).class }
    ensures number { IsClassNumber result }
{
    match page {
        Page::Fixed(page) => page.words() as u16,
        Page::NextFit(_) => NEXT_FIT_CLASS,
        Page::Single(_) => SINGLE_CLASS,
        Page::Extra(_) => EXTRA_CLASS,
    }
}
