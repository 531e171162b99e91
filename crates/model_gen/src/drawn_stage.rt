//! The numbers of a stage.

/// What is drawn for a stage: a price, a cost, two demands and the weight of the higher one.
#[derive(Clone, Copy)]
pub struct DrawnStage {
    pub price: u32,
    pub cost: u32,
    pub low: u32,
    pub high: u32,
    pub weight: u32,
}
