//! Blocks whose instructions stand as the list scheduler would list them. Each one's way to the end is at least as long as the
//! next one's, and none has to wait for the word before it. These need no graph. A store beside another load or store does.
use crate::node::{Facts, Memory};
use crate::resources::Resources;
use mblock::Exit;
use mips_isa::Plain;
use std::alloc::AllocError;

/// What instructions of one height read and write.
#[derive(Clone, Copy)]
struct Level {
    touched: Resources,
    written: Resources,
}

impl Level {
    /// The level of no instruction.
    const EMPTY: Level = Level {
        touched: Resources::NONE,
        written: Resources::NONE,
    };

    /// Reports whether these read or write what an instruction writes.
    fn uses(&self, facts: &Facts) -> bool {
        facts.writes.meets(self.touched)
    }
}

/// The needed instructions from one on, as far as they stand so.
#[derive(Drop)]
struct Standing {
    // What the exit's first word touches.
    at_exit: Resources,
    // What the first of them touches, or the exit's first word.
    next: Resources,
    // Those of the first one's height, and of heights that are one and two words less.
    top: Level,
    second: Level,
    third: Level,
    // Whether no instruction is lower than the first of them.
    is_lowest: bool,
    has_load: bool,
    has_store: bool,
    has_product: bool,
}

impl Standing {
    /// Reports whether one that stands before them delays none of them, nor the exit.
    fn is_prompt(&self, facts: &Facts) -> bool {
        if facts.loads() {
            return !facts.writes.meets(self.next.union(self.at_exit));
        }
        !(facts.moves() && self.has_product)
    }

    /// Returns how many words higher than the first of them one is that stands before them; None for one that is lower.
    fn rise_to(&self, facts: &Facts) -> Option<u32> {
        // a load stands two words before who uses it, the others one
        let (one, level) = if facts.loads() {
            (self.second, self.third)
        } else {
            (self.top, self.second)
        };
        if facts.loads() && self.top.uses(facts) {
            Some(2)
        } else if one.uses(facts) || facts.reads.meets(self.top.written) {
            Some(1)
        } else if self.is_lowest || level.uses(facts) || facts.reads.meets(self.second.written) {
            Some(0)
        } else {
            None
        }
    }

    /// Adds the one that stands before them, if it is listed first of all; reports whether it is.
    fn takes(&mut self, facts: &Facts) -> bool {
        let may_pass = match facts.memory {
            Memory::Apart => true,
            Memory::Loads => !self.has_store,
            Memory::Stores => !self.has_store && !self.has_load,
        };
        if !may_pass || !self.is_prompt(facts) {
            return false;
        }
        let Some(words) = self.rise_to(facts) else {
            return false;
        };
        if words > 0 {
            self.third = if words == 1 { self.second } else { self.top };
            self.second = if words == 1 { self.top } else { Level::EMPTY };
            self.top = Level::EMPTY;
            self.is_lowest = false;
        }
        self.next = facts.touched();
        self.top.touched = self.top.touched.union(self.next);
        self.top.written = self.top.written.union(facts.writes);
        self.has_product |= facts.writes.meets(Resources::PRODUCT);
        self.has_load |= facts.loads();
        self.has_store |= facts.stores();
        true
    }
}

/// Lists the needed instructions of a block as they stand, if that is how the list scheduler lists them; reports whether it is.
pub fn list_standing(
    insts: &[Plain],
    exit: &Exit,
    list: &mut Vec<Plain>,
) -> Result<bool, AllocError> {
    let at_exit = Resources::touched_at_exit(exit);
    let mut standing = Standing {
        at_exit,
        next: at_exit,
        top: Level::EMPTY,
        second: Level::EMPTY,
        third: Level::EMPTY,
        is_lowest: true,
        has_load: false,
        has_store: false,
        has_product: false,
    };
    let mut wanted = Resources::ALL;
    for inst in insts.iter().rev() {
        let facts = Facts::of(inst);
        if facts.are_needed(wanted) {
            if !standing.takes(&facts) {
                return Ok(false);
            }
            wanted = facts.wanted_before(wanted);
            list.push(*inst)?;
        }
    }
    list.reverse();
    Ok(true)
}
