//! The page of any frame.
//!
//! A `Page` is one of the four kinds of page, and owns the words of its frame. While none of them is
//! taken, it can be made a page of another class of the same area. A heap begins with one wholly
//! free page for each frame.
//!
//! Only a page's own calls change it, and none of them but opening takes memory. Between any two
//! calls a page shows one `FrameView` (`page_view` in `specs/PageViews.antt`), which keeps what its
//! kind of page keeps.
//!
//! Whoever wants pages without the rest of the heap lists this crate alone: it hands on the kinds of
//! page, their lists of free spans, and the span. The program `kn_pages_example` does so.
#![tactic(auto)]

mod opened;
mod page;

pub use kn_base::Span;
pub use kn_extra::ExtraPage;
pub use kn_fixed::FixedPage;
pub use kn_nextfit::NextFitPage;
pub use kn_ranges::Ranges;
pub use kn_single::SinglePage;
pub use opened::open_pages;
pub use page::Page;

#[cfg(test)]
mod tests;
