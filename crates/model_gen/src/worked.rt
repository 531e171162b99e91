//! Texts that were made by hand.

ghost use Rattle.std.specs.Prelude.{◌≡◌, ◌++◌, codes};
ghost use Rattle.model_gen.specs.Texts.{constraint_lines, generated_text, goal_line, variable_lines};

/// The text of one stage, and that of two.
pub fn worked_texts()
    ensures one_stage { generated_text 1 1 ≡ codes "int n = 1;\nrange T = 1..n;\nint price[T] = [7];\nint cost[T] = [2];\n"
        ++ codes "int low[T] = [1];\nint high[T] = [3];\nint weight[T] = [2];\n"
        ++ variable_lines ++ goal_line ++ constraint_lines }
    ensures two_stages { generated_text 2 7 ≡ codes "int n = 2;\nrange T = 1..n;\nint price[T] = [8, 4];\nint cost[T] = [3, 1];\n"
        ++ codes "int low[T] = [0, 0];\nint high[T] = [1, 2];\nint weight[T] = [3, 3];\n"
        ++ variable_lines ++ goal_line ++ constraint_lines }
{}
