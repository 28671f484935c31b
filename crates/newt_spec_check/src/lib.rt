//! Definitions of what is damaged in an image: the first row that holds of a table of nine layers,
//! each with its place.
//!
//! It stands on the definitions of images and of stores, and on the laws of whole images
//! (`newt_laws_images`). It carries the law that an image is damaged exactly where it is read as no
//! store (`damaged_images_are_no_stores`). The names of the layers are its only code.
#![tactic(auto)]

mod damaged_images;

pub use damaged_images::damaged_images_are_no_stores;

/// The layer of an image that is damaged. The layers stand in the order in which they are tested.
#[derive(Clone, Copy, PartialEq, Eq, Debug)]
pub enum Layer {
    /// The votes choose no bank.
    Votes,
    /// The chosen bank has no header.
    Header,
    /// A record leaves the bank.
    RecordPlace,
    /// A payload does not have its form.
    Payload,
    /// The parts of an object are not each there once.
    Object,
    /// There is no directory.
    Directory,
    /// A record of an entry breaks a rule.
    Entry,
    /// A large binary is not named exactly once.
    Large,
    /// The objects take more pages than the unit may have.
    Cost,
}
