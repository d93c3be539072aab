// The sets that V lists: irredundant covers that cost no more than any other for some weights between two ends, over rows as crate `rows` has them. They are
// called listed here.
//
// `market` holds rows and ends. `cursor` goes from one listed set to the next: crate `lister` gives the next irredundant cover, and where that is
// not listed, a range around it is passed in which none is. `rivals` decides both, by sets that cost less. `weights` puts weights together from
// the ends, `notes` remembers what may save a search, `banned` leaves out candidates that no listed set has.
#![tactic(auto)]

pub mod banned;
pub mod cursor;
pub mod market;
pub mod notes;
pub mod rivals;
pub mod weights;
