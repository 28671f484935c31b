//! What is said of an image.
use newt_spec_check::Layer;

/// What is said of an image.
#[derive(Clone, Copy, Debug, PartialEq, Eq)]
pub enum Report {
    /// It is a store with so many soups and entries, which costs so many pages.
    Clean(u32, u32, u32),
    /// It is no store: a layer is damaged at a place, whose unit (a byte, an object's id or a
    /// number of pages) the layer tells.
    Damaged(Layer, u32),
}
