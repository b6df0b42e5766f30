ghost use Rattle.std.specs.Prelude.{◌≡◌};
ghost use Rattle.box_tree.specs.Edited.{clamped_to};

use fractions::Spot;

// A scroll clamped between 0 and the greatest one, each coordinate by itself.
pub(crate) fn clamp(scroll: Spot, max: Spot) -> Spot
    ensures { result ≡ clamped_to max scroll }
{
    Spot {
        x: scroll.x.min(max.x).max(0),
        y: scroll.y.min(max.y).max(0),
    }
}

#[cfg(test)]
mod tests;
