ghost use Rattle.std.specs.Prelude.{◌≡◌, ◌↔◌, ℕ, IsSome};
ghost use Rattle.kn_base.specs.Classes.{IsClass, IsClassNumber, class_number};
ghost use Rattle.kn_base.specs.Unpacks.{Unpacks};

/// The least number of words of a fixed cell.
pub const LEAST_CELL: u16 = 2;

/// The greatest number of words of a fixed cell.
pub const MOST_CELL: u16 = 32;

/// The number of the class of next-fit pages.
pub const NEXT_FIT_CLASS: u16 = 33;

/// The number of the class of pages for a single object.
pub const SINGLE_CLASS: u16 = 34;

/// The number of the class of pages of extra objects.
pub const EXTRA_CLASS: u16 = 35;

/// What cells a page has: fixed ones of that many words, ones of any length that a next-fit search
/// finds, one for a single object, or those of extra objects.
///
/// Its number is the words of a fixed cell, or one of the three numbers behind them (`class_number`
/// in `specs/Classes.antt`). A page or a word with the number 0 has no class.
#[derive(Clone, Copy, PartialEq, Eq)]
pub enum PageClass {
    Fixed(u8),
    NextFit,
    Single,
    Extra,
}

impl PageClass {
    /// The number of this class.
    pub fn number(self) -> u16
        ensures { result ≡ class_number self }
    {
        match self {
            PageClass::Fixed(words) => u16::from(words),
            PageClass::NextFit => NEXT_FIT_CLASS,
            PageClass::Single => SINGLE_CLASS,
            PageClass::Extra => EXTRA_CLASS,
        }
    }

    /// The class of this number, or `None` exactly where no class has it.
    pub fn of_number(number: u16) -> Option<Self>
        ensures unpacks { Unpacks IsClass class_number number result }
        ensures known { IsSome result ↔ IsClassNumber number }
    {
        match number {
            LEAST_CELL..=MOST_CELL => Some(PageClass::Fixed(number as u8)),
            NEXT_FIT_CLASS => Some(PageClass::NextFit),
            SINGLE_CLASS => Some(PageClass::Single),
            EXTRA_CLASS => Some(PageClass::Extra),
            _ => None,
        }
    }
}
