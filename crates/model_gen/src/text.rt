//! The text, line by line.

ghost use Rattle.std.specs.Prelude.{◌≡◌, ◌++◌, codes, decimal, map, string_bytes, IfOk, OnOk};
ghost use Rattle.model_gen.specs.Texts.{
  array_line,
  array_lines,
  constraint_lines,
  first_lines,
  generated_text,
  goal_line,
  other_numbers,
  variable_lines,
  written_numbers,
};

use crate::drawn_stage::DrawnStage;
use crate::generator::stages_drawn;
use itoa::Buffer;
use std::alloc::{AllocError, Global};

const VARIABLES: &str =
    "dvar int x[t in T] in 0..3 stage t;\nstoch int d[t in T] in {low[t]:1, high[t]:weight[t]} stage t;\n";

const GOAL: &str = "maximize expected(sum(t in T) (price[t]*min(x[t], d[t]) - cost[t]*x[t]));\n";

const CONSTRAINTS: &str = "subject to {
  forall(t in T) sum(s in 1..t) x[s] <= 2*t;
  prob(sum(t in T) x[t] >= d[1]) >= 1/4;
}
";

/// Adds a number in digits.
fn add_number(text: &mut String, number: u32) -> Result<(), AllocError>
    ensures { OnOk result (string_bytes text.new ≡ string_bytes text.old ++ decimal number) }
{
    let mut buffer = Buffer::new();
    text.push_str(buffer.format(number))
}

/// Adds numbers, each behind a comma.
fn add_others(text: &mut String, numbers: &[u32]) -> Result<(), AllocError>
    ensures { OnOk result (string_bytes text.new ≡ string_bytes text.old ++ other_numbers numbers.now) }
{
    'numbers: for number in numbers {
        text.push_str(", ")?;
        add_number(text, *number)?;
    }
    Ok(())
}

/// Adds numbers with commas between them.
fn add_numbers(text: &mut String, numbers: &[u32]) -> Result<(), AllocError>
    ensures { OnOk result (string_bytes text.new ≡ string_bytes text.old ++ written_numbers numbers.now) }
{
    let [first, later @ ..] = numbers else {
        return Ok(());
    };
    add_number(text, *first)?;
    add_others(text, later)
}

/// Adds the line of an array.
#[tactic(auto, using(crate::proofs::Pieces::array_opened))]
fn add_array(text: &mut String, name: &str, numbers: &[u32]) -> Result<(), AllocError>
    ensures { OnOk result (string_bytes text.new ≡ string_bytes text.old ++ array_line name.now numbers.now) }
{
    text.push_str("int ")?;
    text.push_str(name)?;
    text.push_str("[T] = [")?;
    add_numbers(text, numbers)?;
    text.push_str("];\n")
}

/// The price of each stage.
fn prices(alloc: Global, stages: &[DrawnStage]) -> Result<Vec<u32>, AllocError>
    ensures { IfOk result (λ list. list.items ≡ map (λ (s : DrawnStage). s.price) stages.now) }
{
    stages.iter().map(|stage| stage.price).collect(alloc)
}

/// The cost of each stage.
fn costs(alloc: Global, stages: &[DrawnStage]) -> Result<Vec<u32>, AllocError>
    ensures { IfOk result (λ list. list.items ≡ map (λ (s : DrawnStage). s.cost) stages.now) }
{
    stages.iter().map(|stage| stage.cost).collect(alloc)
}

/// The lower demand of each stage.
fn lower_demands(alloc: Global, stages: &[DrawnStage]) -> Result<Vec<u32>, AllocError>
    ensures { IfOk result (λ list. list.items ≡ map (λ (s : DrawnStage). s.low) stages.now) }
{
    stages.iter().map(|stage| stage.low).collect(alloc)
}

/// The higher demand of each stage.
fn higher_demands(alloc: Global, stages: &[DrawnStage]) -> Result<Vec<u32>, AllocError>
    ensures { IfOk result (λ list. list.items ≡ map (λ (s : DrawnStage). s.high) stages.now) }
{
    stages.iter().map(|stage| stage.high).collect(alloc)
}

/// The weight of each stage's higher demand.
fn weights(alloc: Global, stages: &[DrawnStage]) -> Result<Vec<u32>, AllocError>
    ensures { IfOk result (λ list. list.items ≡ map (λ (s : DrawnStage). s.weight) stages.now) }
{
    stages.iter().map(|stage| stage.weight).collect(alloc)
}

/// Adds the first lines.
#[tactic(auto, using(crate::proofs::Pieces::first_opened))]
fn add_first(text: &mut String, stages: u32) -> Result<(), AllocError>
    ensures { OnOk result (string_bytes text.new ≡ string_bytes text.old ++ first_lines stages) }
{
    text.push_str("int n = ")?;
    add_number(text, stages)?;
    text.push_str(";\nrange T = 1..n;\n")
}

/// Adds the lines of all arrays.
fn add_arrays(alloc: Global, text: &mut String, stages: &[DrawnStage]) -> Result<(), AllocError>
    ensures { OnOk result (string_bytes text.new ≡ string_bytes text.old ++ array_lines stages.now) }
{
    add_array(text, "price", &prices(alloc, stages)?)?;
    add_array(text, "cost", &costs(alloc, stages)?)?;
    add_array(text, "low", &lower_demands(alloc, stages)?)?;
    add_array(text, "high", &higher_demands(alloc, stages)?)?;
    add_array(text, "weight", &weights(alloc, stages)?)
}

/// The lines of the decisions and of what is observed, the same in all texts.
#[tactic(auto, using(crate::proofs::Pieces::variables_are))]
fn variables() -> &'static str
    ensures { result.now ≡ variable_lines }
{
    VARIABLES
}

/// The objective, the same in all texts.
#[tactic(auto, using(crate::proofs::Pieces::goal_is))]
fn goal() -> &'static str
    ensures { result.now ≡ goal_line }
{
    GOAL
}

/// The constraints, the same in all texts.
#[tactic(auto, using(crate::proofs::Pieces::constraints_are))]
fn constraints() -> &'static str
    ensures { result.now ≡ constraint_lines }
{
    CONSTRAINTS
}

/// The text of a model with so many stages, whose numbers are drawn from this seed.
pub fn generated(alloc: Global, stages: u32, seed: u32) -> Result<String, AllocError>
    ensures { IfOk result (λ text. string_bytes text ≡ generated_text stages seed) }
{
    let list = stages_drawn(alloc, stages, seed)?;
    let mut text = String::new(alloc);
    add_first(&mut text, stages)?;
    add_arrays(alloc, &mut text, &list)?;
    text.push_str(variables())?;
    text.push_str(goal())?;
    text.push_str(constraints())?;
    Ok(text)
}

/// The bytes of such a text.
pub fn generate(alloc: Global, stages: u32, seed: u32) -> Result<Vec<u8>, AllocError>
    ensures { IfOk result (λ bytes. bytes.items ≡ generated_text stages seed) }
{
    let text = generated(alloc, stages, seed)?;
    Ok(text.into_bytes())
}
