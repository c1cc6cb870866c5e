//! Why lines aren't understood, by their numbers.
ghost use Rattle.std.specs.Prelude.{◌≡◌, ◌∷◌, [], ℕ, List, IfOk, None, OnOk, not};
ghost use Rattle.casebook_profile.specs.declared.unknown_line.UnknownLine.{UnknownLine as UnknownValue};
ghost use Rattle.casebook_view.specs.Unknown.{first_obstacle, is_unknown, obstacle_at};
ghost use Rattle.casebook_view.specs.Obstacles.{AreObstacles, obstacle_of};

use crate::NoMem;
use casebook_profile::{Obstacle, UnknownLine};
use std::alloc::Global;
use std::collections::BTreeMap;

/// Why lines aren't understood, by their numbers.
#[derive(Drop)]
pub struct Obstacles {
    by_number: BTreeMap<u32, Obstacle>,
}

impl Obstacles {
    /// Returns no obstacles. Takes no memory.
    pub(crate) fn new(alloc: Global) -> Obstacles
        ensures { (n : ℕ) → obstacle_of n result ≡ None }
    {
        Obstacles {
            by_number: BTreeMap::new(alloc),
        }
    }

    /// Adds the obstacle of a line, unless the line has one.
    fn add(&mut self, line: &UnknownLine) -> Result<(), NoMem>
        ensures { OnOk result ((n : ℕ) → obstacle_of n self.new
            ≡ first_obstacle (obstacle_of n self.old) (obstacle_at n (line.now ∷ []))) }
    {
        if !self.by_number.contains_key(&line.number) {
            self.by_number.insert(line.number, line.obstacle)?;
        }
        Ok(())
    }

    /// Returns the obstacles of lines. If a line is named twice, the first one counts.
    pub fn of(alloc: Global, unknown: &[UnknownLine]) -> Result<Obstacles, NoMem>
        ensures { IfOk result (AreObstacles unknown.now) }
    {
        let mut obstacles = Obstacles::new(alloc);
        for line in unknown {
            obstacles.add(line)?;
        }
        Ok(obstacles)
    }

    /// Returns whether a line is understood.
    pub fn has_none(&self, number: u32) -> bool
        ensures { (unknown : List UnknownValue) → AreObstacles unknown self.now
            → result ≡ not (is_unknown unknown number) }
    {
        self.by_number.get(&number).is_none()
    }

    /// Returns why a line isn't understood, or `None` if it is.
    pub(crate) fn at(&self, number: u32) -> Option<Obstacle>
        ensures { result ≡ obstacle_of number self.now }
    {
        self.by_number.get(&number).copied()
    }
}
