/// What a marker comes to that owes no unit of work, goes through nothing, and has no root set to claim.
#[derive(Clone, Copy)]
pub enum Stage {
    /// It looks at this root set; it came to all before it.
    Looks(u8),
    /// It takes up the hint that it kept last; where it keeps none it loads the count of open work.
    TakesUp,
    /// It searches for a gray object, at so many more marks.
    Searches(u8),
}
