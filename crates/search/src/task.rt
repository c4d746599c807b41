// What a search is asked.
use crate::aim::Aim;
use ground::ground::Ground;

// A ground, what is aimed at on it, and what its arcs cost.
#[derive(Drop)]
pub struct Task<'t, G: Ground> {
    pub site: &'t G,
    pub aim: Aim,
    pub costs: &'t [u32],
}
