use std::alloc::{AllocError, Global};

/// Which slots are gone through.
#[derive(Clone, Copy)]
pub enum Which {
    All,
    Even,
    Odd,
}

/// In which order they are.
#[derive(Clone, Copy)]
pub enum Way {
    Up,
    Down,
    Shuffled,
}

impl Which {
    fn has(self, slot: usize) -> bool {
        match self {
            Which::All => true,
            Which::Even => slot % 2 == 0,
            Which::Odd => slot % 2 == 1,
        }
    }
}

/// Slots below `count` in an order. An error is want of memory.
pub fn slots_in(
    alloc: Global,
    which: Which,
    way: Way,
    count: usize,
) -> Result<Vec<usize>, AllocError> {
    let mut slots = Vec::new(alloc);
    for slot in 0..count {
        if which.has(slot) {
            slots.push(slot)?;
        }
    }
    match way {
        Way::Up => {}
        Way::Down => slots.reverse(),
        Way::Shuffled => shuffle(&mut slots),
    }
    Ok(slots)
}

/// Brings slots into an order that looks random and is the same at each run.
fn shuffle(slots: &mut [usize]) {
    let mut seed: u32 = 1;
    for at in 0..slots.len() {
        seed = seed.wrapping_mul(1_664_525).wrapping_add(1_013_904_223);
        slots.swap(at, (seed / 256) as usize % (at + 1));
    }
}
