// What a problem's choices are made from.
use crate::asking::Asked;
use crate::entries::Listed;
use op_properties::Offer;

/// What the subscriptions ask for, the reached entries in the order of entries, and what the tips offer.
#[derive(Clone, Copy)]
pub(crate) struct Pool<'a> {
    pub asks: &'a [Asked],
    pub entries: &'a [&'a Listed],
    pub tips: &'a [Offer],
}
