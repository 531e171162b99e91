//! A generator of numbers, and the stages that it draws.

ghost use Rattle.std.specs.Prelude.{◌≡◌, ◌<◌, ◌≤◌, IfOk};
ghost use Rattle.model_gen.specs.Draws.{drawn_below, drawn_stage, drawn_stages, next_state, state_after};

use crate::drawn_stage::DrawnStage;
use std::alloc::{AllocError, Global};

/// A linear congruential generator.
#[derive(Drop)]
pub struct Generator {
    state: u32,
}

/// The state after a draw.
#[tactic(auto, using(crate::proofs::Pieces::next_is))]
fn next_of(state: u32) -> u32
    ensures { result ≡ next_state state }
{
    ((state as u64 * 1103515245 + 12345) % 2147483648) as u32
}

/// What is drawn of a state.
#[tactic(auto, using(crate::proofs::Pieces::drawn_is))]
fn drawn_of(state: u32, below: u32) -> u32
    requires some { 1 ≤ below }
    ensures drawn { result ≡ drawn_below below state }
    ensures less { result < below }
{
    (state / 65536) % below
}

impl Generator {
    /// One that begins with this state.
    pub fn new(seed: u32) -> Generator
        ensures { result.state ≡ seed }
    {
        Generator { state: seed }
    }

    /// Draws a number below this one.
    fn draw(&mut self, below: u32) -> u32
        requires some { 1 ≤ below }
        ensures drawn { result ≡ drawn_below below (next_state self.old.state) }
        ensures less { result < below }
        ensures state { self.new.state ≡ next_state self.old.state }
    {
        self.state = next_of(self.state);
        drawn_of(self.state, below)
    }

    /// Draws the numbers of a stage.
    pub fn stage(&mut self) -> DrawnStage
        ensures stage { result ≡ drawn_stage self.old.state }
        ensures state { self.new.state ≡ state_after 5 self.old.state }
    {
        let price = 4 + self.draw(5);
        let cost = 1 + self.draw(3);
        let low = self.draw(2);
        let high = low + 1 + self.draw(2);
        let weight = 1 + self.draw(3);
        DrawnStage {
            price,
            cost,
            low,
            high,
            weight,
        }
    }
}

/// Draws the numbers of so many stages.
#[tactic(auto, using(crate::proofs::Pieces::stages_step))]
pub fn stages_drawn(alloc: Global, stages: u32, seed: u32) -> Result<Vec<DrawnStage>, AllocError>
    ensures { IfOk result (λ list. list.items ≡ drawn_stages stages seed) }
{
    let mut generator = Generator::new(seed);
    let mut list = Vec::new(alloc);
    'stages: for _stage in 0..stages {
        list.push(generator.stage())?;
    }
    Ok(list)
}
