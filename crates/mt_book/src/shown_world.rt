//! The world that a book shows.
ghost use Rattle.std.specs.Prelude.{◌≡◌};
ghost use Rattle.mt_book.specs.Kept.{shown_world};

use mt_propagate::world::World;

/// The world that a book shows.
#[derive(Drop)]
pub(crate) enum Shown {
    /// The one that a book begins with. It lies in the book itself, since a new book takes no memory.
    First(World),
    /// One that a command led to.
    Later(Box<World>),
}

impl Shown {
    /// The world.
    pub(crate) fn world(&self) -> &World
        ensures { result.now ≡ shown_world self.now }
    {
        match self {
            Shown::First(world) => world,
            Shown::Later(world) => world,
        }
    }
}
