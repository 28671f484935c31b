//! What is asked of a store on the card of one unit: the trait `Card`.
//!
//! It stands on the host and on `newt_store_change`, and has no store of its own. The promise that
//! it carries upwards (`specs/Calls`): a card stands for the plain store that its unit's image is
//! read as. A change is that store's change or its first refusal, and programs no more than the
//! pages that come and go. At every moment it leaves the store before it or after it.
#![tactic(auto)]

mod card;

pub use card::Card;
