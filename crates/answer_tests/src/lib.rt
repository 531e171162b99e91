//! Tests of replies and of what they are made of: policies as they are printed, texts that are drawn, and what `check` and `eval` answer of
//! the bytes of a log and of a policy.
#![tactic(auto)]

#[cfg(test)]
mod answer_check_logs;
#[cfg(test)]
mod answer_eval_policies;
#[cfg(test)]
mod model_gen_drawn;
#[cfg(test)]
mod policy_json_entries;
#[cfg(test)]
mod policy_json_printed;
