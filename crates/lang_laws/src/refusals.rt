ghost use Rattle.std.specs.Prelude.{◌≡◌, Ok};
ghost use Rattle.sopl_ast.specs.UnfoldEvents.{first_failure, met_within};
ghost use Rattle.sopl_ast.specs.Unfolding.{text_events};
ghost use Rattle.lang_laws.specs.WorkedTexts.{refusal, limit};
ghost use Rattle.lang_laws.specs.WorkedRefusals.{sum_end, sum_begin, inner_range, great_prefix, great_product, great_inside, great_part, great_compared, times_zero, not_spared};
ghost use Rattle.lang_laws.specs.WorkedRefusals.{outside_array, rest_by_zero, by_condition, outside_later, past_least, great_index, twice_no_weight, first_no_weight};
ghost use Rattle.lang_laws.specs.WorkedRefusals.{outcome_by_zero, weight_before_stage, repeated_product, repeated_at_two, empty_named_domain, backward_domain};
ghost use Rattle.lang_laws.specs.WorkedRefusals.{wide_before_stage, empty_before_stage, end_before_stage, widest_range, full_domains, long_dimension, longer_row, bracket_first};
ghost use Rattle.lang_laws.specs.WorkedRefusals.{stage_zero, stage_by_zero, last_stage, element_by_zero, end_by_zero, divisor_of_sum, divisor_at_two, element_less_one};
ghost use Rattle.lang_laws.specs.WorkedRefusals.{inner_divisor, no_denominator, great_denominator, greatest_threshold, both_by_zero, threshold_of_two, moving_threshold};
ghost use Rattle.lang_laws.specs.WorkedRefusals.{condition_first, objective_first, moving_range, length_first, divisor_first, element_counted, binding_counted};
ghost use Rattle.lang_laws.specs.WorkedRefusals.{constraint_counted};

/// Constants that are worth nothing.
pub fn refused_constants()
    ensures sum_end { first_failure 0 (text_events sum_end) ≡ refusal 110 8 }
    ensures sum_begin { first_failure 0 (text_events sum_begin) ≡ refusal 110 8 }
    ensures inner_range { first_failure 0 (text_events inner_range) ≡ refusal 110 8 }
    ensures great_prefix { first_failure 0 (text_events great_prefix) ≡ refusal 110 8 }
    ensures great_product { first_failure 0 (text_events great_product) ≡ refusal 110 8 }
    ensures great_inside { first_failure 0 (text_events great_inside) ≡ refusal 110 8 }
    ensures great_part { first_failure 0 (text_events great_part) ≡ refusal 110 8 }
    ensures great_compared { first_failure 0 (text_events great_compared) ≡ refusal 110 8 }
    ensures times_zero { first_failure 0 (text_events times_zero) ≡ refusal 110 8 }
    ensures not_spared { first_failure 0 (text_events not_spared) ≡ refusal 110 8 }
    ensures outside_array { first_failure 0 (text_events outside_array) ≡ refusal 110 30 }
    ensures rest_by_zero { first_failure 0 (text_events rest_by_zero) ≡ refusal 110 8 }
    ensures by_condition { first_failure 0 (text_events by_condition) ≡ refusal 110 8 }
    ensures outside_later { first_failure 0 (text_events outside_later) ≡ refusal 110 67 }
    ensures past_least { first_failure 0 (text_events past_least) ≡ refusal 110 8 }
    ensures great_index { first_failure 0 (text_events great_index) ≡ refusal 110 25 }
{}

/// Declarations that are refused, or at the edge of it.
pub fn refused_declarations()
    ensures twice_no_weight { first_failure 0 (text_events twice_no_weight) ≡ refusal 113 21 }
    ensures first_no_weight { first_failure 0 (text_events first_no_weight) ≡ refusal 113 18 }
    ensures outcome_by_zero { first_failure 0 (text_events outcome_by_zero) ≡ refusal 110 21 }
    ensures weight_before_stage { first_failure 0 (text_events weight_before_stage) ≡ refusal 113 23 }
    ensures repeated_product { first_failure 0 (text_events repeated_product) ≡ refusal 113 21 }
    ensures repeated_at_two { first_failure 0 (text_events repeated_at_two) ≡ refusal 113 32 }
    ensures empty_named_domain { first_failure 0 (text_events empty_named_domain) ≡ refusal 111 30 }
    ensures backward_domain { first_failure 0 (text_events backward_domain) ≡ refusal 111 14 }
    ensures wide_before_stage { first_failure 0 (text_events wide_before_stage) ≡ limit 203 70001 65536 }
    ensures empty_before_stage { first_failure 0 (text_events empty_before_stage) ≡ refusal 111 14 }
    ensures end_before_stage { first_failure 0 (text_events end_before_stage) ≡ refusal 110 17 }
    ensures widest_range { first_failure 0 (text_events widest_range) ≡ limit 208 2199023255553 65536 }
    ensures full_domains { first_failure 0 (text_events full_domains) ≡ Ok 2 }
    ensures long_dimension { first_failure 0 (text_events long_dimension) ≡ limit 208 65537 65536 }
    ensures longer_row { first_failure 0 (text_events longer_row) ≡ refusal 112 26 }
    ensures bracket_first { first_failure 0 (text_events bracket_first) ≡ refusal 112 14 }
    ensures stage_zero { first_failure 0 (text_events stage_zero) ≡ refusal 114 36 }
    ensures stage_by_zero { first_failure 0 (text_events stage_by_zero) ≡ refusal 110 31 }
    ensures last_stage { first_failure 0 (text_events last_stage) ≡ Ok 6 }
    ensures element_by_zero { first_failure 0 (text_events element_by_zero) ≡ refusal 110 14 }
{}

/// Constraints and objectives that are refused, or at the edge of it.
pub fn refused_constraints()
    ensures end_by_zero { first_failure 0 (text_events end_by_zero) ≡ refusal 110 45 }
    ensures divisor_of_sum { first_failure 0 (text_events divisor_of_sum) ≡ refusal 110 39 }
    ensures divisor_at_two { first_failure 0 (text_events divisor_at_two) ≡ refusal 110 57 }
    ensures element_less_one { first_failure 0 (text_events element_less_one) ≡ refusal 110 96 }
    ensures inner_divisor { first_failure 0 (text_events inner_divisor) ≡ refusal 110 61 }
    ensures no_denominator { first_failure 0 (text_events no_denominator) ≡ refusal 115 29 }
    ensures great_denominator { first_failure 0 (text_events great_denominator) ≡ refusal 115 29 }
    ensures greatest_threshold { first_failure 0 (text_events greatest_threshold) ≡ Ok 1 }
    ensures both_by_zero { first_failure 0 (text_events both_by_zero) ≡ refusal 110 29 }
    ensures threshold_of_two { first_failure 0 (text_events threshold_of_two) ≡ refusal 115 47 }
    ensures moving_threshold { first_failure 0 (text_events moving_threshold) ≡ refusal 115 99 }
    ensures condition_first { first_failure 0 (text_events condition_first) ≡ refusal 110 24 }
    ensures objective_first { first_failure 0 (text_events objective_first) ≡ refusal 110 44 }
    ensures moving_range { first_failure 0 (text_events moving_range) ≡ limit 208 65537 65536 }
{}

/// What is met first.
pub fn first_met()
    ensures length_first { first_failure 0 (text_events length_first) ≡ limit 208 70000 65536 }
    ensures divisor_first { first_failure 0 (text_events divisor_first) ≡ refusal 110 8 }
    ensures element_counted { met_within 1 0 (text_events element_counted) ≡ limit 205 2 1 }
    ensures element_counted_later { met_within 2 0 (text_events element_counted) ≡ refusal 110 19 }
    ensures binding_counted { met_within 3 0 (text_events binding_counted) ≡ limit 205 4 3 }
    ensures binding_counted_later { met_within 4 0 (text_events binding_counted) ≡ refusal 110 39 }
    ensures constraint_counted { met_within 1 0 (text_events constraint_counted) ≡ limit 205 2 1 }
    ensures constraint_counted_later { met_within 2 0 (text_events constraint_counted) ≡ refusal 110 42 }
{}
