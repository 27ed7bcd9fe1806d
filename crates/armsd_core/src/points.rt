//! Breakpoints.

ghost use Rattle.std.specs.Prelude.{◌≡◌, ℕ, ◌+◌, ◌≤◌, ◌<◌, List, [], ◌∷◌, ◌++◌, length};
ghost use Rattle.armsd_core.specs.Points.{is_point, without};

use arrayvec::ArrayVec;
use std::marker::Model;

/// Keeps a breakpoint but for one.
fn keep(left: &mut ArrayVec<u32, 64>, point: u32, a: u32)
    requires { length left.old.items < 64 }
    ensures items { left.new.items ≡ left.old.items ++ without (point ∷ []) a }
    ensures few { length left.new.items ≤ length left.old.items + 1 }
{
    if point != a {
        left.push(point);
    }
}

/// The breakpoints of a list but for one.
fn others(points: &[u32], a: u32) -> ArrayVec<u32, 64>
    requires { length points.now ≤ 64 }
    ensures { result.items ≡ without points.now a }
{
    let mut left = ArrayVec::new();
    for point in points {
        keep(&mut left, *point, a);
    }
    left
}

/// At most 64 breakpoints, in the order in which they were set.
#[derive(Drop)]
pub struct Points {
    list: ArrayVec<u32, 64>,
}

impl Model for Points {
    ghost Value = { List ℕ };

    ghost view = { λ p. p.list.items };
}

impl Points {
    pub fn none() -> Points
        ensures { result ≡ [] }
    {
        Points {
            list: ArrayVec::new(),
        }
    }

    /// Whether the address is a breakpoint.
    pub fn has(&self, a: u32) -> bool
        ensures { result ≡ is_point self.now a }
    {
        self.list.as_slice().iter().any(|point| *point == a)
    }

    pub fn add(&mut self, a: u32)
        requires { length self.old < 64 }
        ensures { self.new ≡ self.old ++ a ∷ [] }
    {
        self.list.push(a);
    }

    /// The address is no breakpoint any more.
    pub fn remove(&mut self, a: u32)
        ensures { self.new ≡ without self.old a }
    {
        self.list = others(self.list.as_slice(), a);
    }
}
