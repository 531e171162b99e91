//! Texts beside those of a generator that was written apart from this one.

use model_gen::generate;
use std::alloc::{AllocError, Global};
use std::test::Fail;

// What a row is about, a number of stages and a seed, with the lines that they make; the last lines are the same in all texts.
const TEXTS: [(&str, u32, u32, &str); 7] = [
    (
        "one stage",
        1,
        1,
        "int n = 1;\nrange T = 1..n;\nint price[T] = [7];\nint cost[T] = [2];\nint low[T] = [1];\nint high[T] = [3];\nint weight[T] = [2];\n",
    ),
    (
        "two stages",
        2,
        7,
        "int n = 2;\nrange T = 1..n;\nint price[T] = [8, 4];\nint cost[T] = [3, 1];\nint low[T] = [0, 0];\nint high[T] = [1, 2];\nint weight[T] = [3, 3];\n",
    ),
    (
        "nine stages",
        9,
        1,
        "int n = 9;\nrange T = 1..n;\nint price[T] = [7, 6, 8, 7, 5, 8, 8, 6, 7];\nint cost[T] = [2, 1, 3, 1, 2, 1, 3, 2, 3];\nint low[T] = [1, 1, 0, 1, 1, 1, 0, 1, 1];\nint high[T] = [3, 2, 1, 3, 3, 2, 1, 3, 3];\nint weight[T] = [2, 1, 3, 1, 1, 3, 3, 1, 2];\n",
    ),
    (
        "the greatest seed of 31 bits",
        9,
        2147483647,
        "int n = 9;\nrange T = 1..n;\nint price[T] = [8, 5, 7, 7, 4, 4, 7, 4, 7];\nint cost[T] = [3, 3, 2, 1, 2, 1, 3, 2, 3];\nint low[T] = [0, 1, 1, 0, 0, 0, 0, 1, 1];\nint high[T] = [1, 2, 2, 2, 1, 2, 1, 2, 2];\nint weight[T] = [2, 3, 2, 2, 1, 2, 1, 3, 1];\n",
    ),
    (
        "five stages",
        5,
        12345,
        "int n = 5;\nrange T = 1..n;\nint price[T] = [7, 4, 6, 7, 5];\nint cost[T] = [2, 2, 2, 2, 2];\nint low[T] = [1, 0, 0, 0, 1];\nint high[T] = [2, 1, 2, 2, 2];\nint weight[T] = [2, 1, 1, 1, 3];\n",
    ),
    (
        "the seed 0",
        3,
        0,
        "int n = 3;\nrange T = 1..n;\nint price[T] = [4, 6, 5];\nint cost[T] = [1, 2, 2];\nint low[T] = [0, 1, 1];\nint high[T] = [2, 2, 2];\nint weight[T] = [1, 2, 1];\n",
    ),
    (
        "no stage, and the greatest seed",
        0,
        4294967295,
        "int n = 0;\nrange T = 1..n;\nint price[T] = [];\nint cost[T] = [];\nint low[T] = [];\nint high[T] = [];\nint weight[T] = [];\n",
    ),
];

const LAST_LINES: &str = "dvar int x[t in T] in 0..3 stage t;
stoch int d[t in T] in {low[t]:1, high[t]:weight[t]} stage t;
maximize expected(sum(t in T) (price[t]*min(x[t], d[t]) - cost[t]*x[t]));
subject to {
  forall(t in T) sum(s in 1..t) x[s] <= 2*t;
  prob(sum(t in T) x[t] >= d[1]) >= 1/4;
}
";

// Whether the text of so many stages and a seed has these lines, and the last ones behind them.
fn is_drawn(alloc: Global, stages: u32, seed: u32, lines: &str) -> Result<bool, AllocError> {
    let bytes = generate(alloc, stages, seed)?;
    let text = str::from_utf8(bytes.as_slice()).unwrap_or("");
    Ok(text.strip_prefix(lines) == Some(LAST_LINES))
}

#[test]
fn texts_are_those_of_another_generator(rt: HostRuntime) -> Result<(), Fail> {
    for (word, stages, seed, lines) in &TEXTS {
        assert!(rt; is_drawn(rt.alloc(), *stages, *seed, lines)?, "{word}");
    }
    Ok(())
}
