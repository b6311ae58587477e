// How a drawing is written. There are these two and no more, so each part of a drawing is a match and no trait.
#[derive(Clone, Copy, PartialEq, Eq)]
pub enum Form {
    Text,
    Image,
}
