ghost use Rattle.std.specs.Prelude.{◌≡◌};
ghost use Rattle.box_tree.specs.Suits.{is_text, is_svg_content};

/// What a node is (CSS 2.2, 9.2; SVG 2, 1.3; HTML, "Image maps").
#[derive(Clone, Copy, Debug, PartialEq, Eq)]
pub enum Kind {
    /// A block level box that is a block container.
    Block,
    /// Content of a line, which may be broken over several lines.
    Inline,
    /// A block container that stands in a line as a whole.
    InlineBlock,
    /// A replaced element with a picture.
    Image,
    /// A replaced element that holds SVG content.
    Svg,
    /// A run of text, whose boxes belong to its parent.
    Text,
    /// The areas of an image, in their order.
    Map,
    /// One area of an image map.
    Area,
    /// SVG content that holds other SVG content.
    Group,
    /// SVG content that is painted.
    Shape,
    /// An svg inside of an svg: a viewport for SVG content.
    Inner,
}

impl Kind {
    /// Whether this is a run of text.
    pub fn is_text(self) -> bool
        ensures { result ≡ is_text self }
    {
        match self {
            Kind::Text => true,
            Kind::Block
            | Kind::Inline
            | Kind::InlineBlock
            | Kind::Image
            | Kind::Svg
            | Kind::Map
            | Kind::Area
            | Kind::Group
            | Kind::Shape
            | Kind::Inner => false,
        }
    }

    /// Whether this stands in an svg (SVG 2, 1.3).
    pub fn is_svg_content(self) -> bool
        ensures { result ≡ is_svg_content self }
    {
        match self {
            Kind::Group | Kind::Shape | Kind::Inner => true,
            Kind::Block
            | Kind::Inline
            | Kind::InlineBlock
            | Kind::Image
            | Kind::Svg
            | Kind::Text
            | Kind::Map
            | Kind::Area => false,
        }
    }
}
