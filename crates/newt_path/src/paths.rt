//! Some paths in their order.
ghost use Rattle.std.specs.Prelude.{◌≡◌, IfOk};

use crate::path::Path;
use std::alloc::AllocError;
use std::marker::Model;

/// The paths of an index, in their order.
#[derive(Drop)]
pub struct Paths {
    items: Vec<Path>,
}

impl Model for Paths {
    ghost use Rattle.std.specs.Prelude.{List, ℕ};

    ghost Value = { List (List (List ℕ)) };

    ghost view = { λ paths. paths.items.items };
}

impl Paths {
    /// The list of these paths.
    pub fn of(items: Vec<Path>) -> Self
        ensures { result ≡ items.items }
    {
        Paths { items }
    }

    /// The paths, as a slice.
    pub fn list(&self) -> &[Path]
        ensures { result.now ≡ self.now }
    {
        self.items.as_slice()
    }

    /// The paths by value.
    pub fn into_vec(self) -> Vec<Path>
        ensures { result.items ≡ self }
    {
        self.items
    }

    /// Equal paths.
    pub fn copy(&self) -> Result<Paths, AllocError>
        ensures { IfOk result (λ copy. copy ≡ self.now) }
    {
        let mut items = Vec::new(*self.items.allocator());
        for path in &self.items {
            items.push(path.copy()?)?;
        }
        Ok(Paths { items })
    }
}
