// What a plan that has begun knows besides its tables.
use crate::phase::Phase;
use search::aim::Aim;

#[derive(Clone, Copy)]
pub struct Header {
    // the size of the ground that it began on
    pub(crate) places: u32,
    pub(crate) arcs: u32,
    pub(crate) aim: Aim,
    // the turns since Closed was emptied
    pub(crate) count: u32,
    pub(crate) phase: Phase,
}
