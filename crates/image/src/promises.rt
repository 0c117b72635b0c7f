// What is promised of the image and of the entry points' definitions.
ghost use Rattle.image.specs.Image.{ComesBack};
ghost use Rattle.image.specs.Promises.{Promises};
ghost use Rattle.image.specs.Reasons.{WhyPromises};
ghost use Rattle.image.specs.Mending.{MendPromises};
ghost use Rattle.image.specs.Acting.{ActingPromises};

use crate::{loading, storing};
use executive::Table;

// Stores a table and loads its image: the same table.
pub fn write_then_read(table: Table) -> Table
    ensures { ComesBack table result }
{
    let image = storing::image_of(table);
    loading::load(&image)
}

fn promised()
    ensures { Promises × WhyPromises × MendPromises × ActingPromises }
{}
