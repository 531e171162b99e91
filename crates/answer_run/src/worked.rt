//! Words whose meaning is known.

ghost use Rattle.std.specs.Prelude.{◌≡◌, Some, None, [], ◌∷◌, codes, map, option_map};
ghost use Rattle.brancher.specs.Rules.{lower, widest};
ghost use Rattle.answer_texts.specs.declared.command.Command.TheVariants.{Solve, Tree as ShowTree};
ghost use Rattle.answer_texts.specs.declared.command.Detail.TheVariants.{Full};
ghost use Rattle.answer_run.specs.declared.commands.DrawnCommand.TheVariants.{Gen, Demo};
ghost use Rattle.answer_run.specs.declared.commands.PairCommand.TheVariants.{Check, Eval};
ghost use Rattle.answer_run.specs.declared.options.Kind.TheVariants.{Budget};
ghost use Rattle.answer_run.specs.Words.{asked_of, given, model_of, number_of, parts_of, positional_in, request_of};
ghost use Rattle.answer_run.specs.WorkedWords.{asks, asks_both, asks_drawn, asks_seats, rule_asked, three_kinds, two_or_budget, two_words};

/// Two positional words, which a row of the table may ask for: each by its place, with an option before, between and behind them; one too few and
/// one too many; a word that is empty or is no option of the row.
pub fn worked_positional_words()
    ensures first { positional_in two_words 0 (map codes ("m" ∷ "l" ∷ [])) ≡ Some (codes "m") }
    ensures second { positional_in two_words 1 (map codes ("m" ∷ "l" ∷ [])) ≡ Some (codes "l") }
    ensures alike { positional_in two_words 1 (map codes ("m" ∷ "m" ∷ [])) ≡ Some (codes "m") }
    ensures no_third { positional_in two_words 2 (map codes ("m" ∷ "l" ∷ [])) ≡ None }
    ensures none { parts_of two_words 0 [] ≡ None }
    ensures too_few { parts_of two_words 0 (map codes ("m" ∷ [])) ≡ None }
    ensures first_of_too_few { positional_in two_words 0 (map codes ("m" ∷ [])) ≡ None }
    ensures too_many { parts_of two_words 0 (map codes ("m" ∷ "l" ∷ "k" ∷ [])) ≡ None }
    ensures empty_one { parts_of two_words 0 (map codes ("m" ∷ "" ∷ [])) ≡ None }
    ensures no_option { parts_of two_words 0 (map codes ("m" ∷ "--budget" ∷ "l" ∷ [])) ≡ None }
    ensures option_before { positional_in two_or_budget 1 (map codes ("--budget" ∷ "3" ∷ "m" ∷ "l" ∷ [])) ≡ Some (codes "l") }
    ensures option_between { positional_in two_or_budget 1 (map codes ("m" ∷ "--budget" ∷ "3" ∷ "l" ∷ [])) ≡ Some (codes "l") }
    ensures option_behind { positional_in two_or_budget 1 (map codes ("m" ∷ "l" ∷ "--budget=3" ∷ [])) ≡ Some (codes "l") }
    ensures value_of_option { given two_or_budget Budget (map codes ("m" ∷ "--budget" ∷ "3" ∷ "l" ∷ [])) ≡ Some (Some (codes "3")) }
    ensures too_many_and_option { given two_or_budget Budget (map codes ("m" ∷ "--budget=3" ∷ "l" ∷ "k" ∷ [])) ≡ None }
    ensures option_twice { given two_or_budget Budget (map codes ("m" ∷ "--budget=3" ∷ "l" ∷ "--budget" ∷ "4" ∷ [])) ≡ None }
    ensures too_few_and_option { given two_or_budget Budget (map codes ("--budget=3" ∷ "m" ∷ [])) ≡ None }
    ensures option_of_another { parts_of two_or_budget 0 (map codes ("m" ∷ "l" ∷ "--log=f" ∷ [])) ≡ None }
{}

/// Numbers: from 1 to 9, and from 0 to the greatest of 31 bits; zeros may stand in front, ten digits in all.
pub fn worked_numbers()
    ensures from_one { map (number_of 1 9) (map codes ("1" ∷ "9" ∷ "0009" ∷ "0000000009" ∷ [])) ≡ Some 1 ∷ Some 9 ∷ Some 9 ∷ Some 9 ∷ [] }
    ensures out_of_range { map (number_of 1 9) (map codes ("0" ∷ "10" ∷ "99999999999" ∷ [])) ≡ None ∷ None ∷ None ∷ [] }
    ensures from_zero { map (number_of 0 2147483647) (map codes ("0" ∷ "0000000000" ∷ "2147483647" ∷ [])) ≡ Some 0 ∷ Some 0 ∷ Some 2147483647 ∷ [] }
    ensures too_large { map (number_of 0 2147483647) (map codes ("2147483648" ∷ "9999999999" ∷ [])) ≡ None ∷ None ∷ [] }
    ensures no_digits { map (number_of 0 2147483647) (map codes ("" ∷ "+3" ∷ "3x" ∷ " 3" ∷ [])) ≡ None ∷ None ∷ None ∷ None ∷ [] }
    ensures too_long { map (number_of 0 9) (map codes ("00000000009" ∷ [])) ≡ None ∷ [] }
{}

/// What the words of a command line ask for, and words that ask for nothing.
pub fn worked_requests()
    ensures usual { request_of (map codes ("solve" ∷ "m" ∷ [])) ≡ Some (asks (Solve Full) 1000000 []) }
    ensures options_behind { request_of (map codes ("solve" ∷ "m" ∷ "--log" ∷ "f" ∷ "--budget" ∷ "7000" ∷ [])) ≡ Some (asks (Solve Full) 7000 (codes "f")) }
    ensures options_before { request_of (map codes ("solve" ∷ "--log=a=b" ∷ "--budget=4294967295" ∷ "m" ∷ [])) ≡ Some (asks (Solve Full) 4294967295 (codes "a=b")) }
    ensures tree { request_of (map codes ("tree" ∷ "m" ∷ [])) ≡ Some (asks ShowTree 1000000 []) }
    ensures check { request_of (map codes ("check" ∷ "m" ∷ "l" ∷ [])) ≡ Some (asks_both Check (codes "l")) }
    ensures eval { request_of (map codes ("eval" ∷ "m" ∷ "p" ∷ [])) ≡ Some (asks_both Eval (codes "p")) }
    ensures gen_words { request_of (map codes ("gen" ∷ "0009" ∷ "0000000000" ∷ [])) ≡ Some (asks_drawn Gen (codes "0009") (codes "0000000000") 1000000 9 0) }
    ensures demo_words { request_of (map codes ("demo" ∷ "9" ∷ "--budget=200" ∷ "1" ∷ [])) ≡ Some (asks_drawn Demo (codes "9") (codes "1") 200 9 1) }
    ensures no_stages { map request_of (map codes ("gen" ∷ "10" ∷ "1" ∷ []) ∷ map codes ("gen" ∷ "0" ∷ "1" ∷ []) ∷ map codes ("demo" ∷ "m" ∷ "1" ∷ []) ∷ []) ≡ None ∷ None ∷ None ∷ [] }
    ensures no_seed { map request_of (map codes ("gen" ∷ "9" ∷ "2147483648" ∷ []) ∷ map codes ("demo" ∷ "9" ∷ []) ∷ map codes ("gen" ∷ "1" ∷ "-1" ∷ []) ∷ []) ≡ None ∷ None ∷ None ∷ [] }
    ensures no_option_of_demo { map request_of (map codes ("demo" ∷ "--log" ∷ "f" ∷ "1" ∷ "1" ∷ []) ∷ map codes ("gen" ∷ "1" ∷ "1" ∷ "--budget=3" ∷ []) ∷ []) ≡ None ∷ None ∷ [] }
    ensures file_twice { request_of (map codes ("check" ∷ "m" ∷ "m" ∷ [])) ≡ Some (asks_both Check (codes "m")) }
    ensures no_second { map request_of (map codes ("check" ∷ "m" ∷ []) ∷ map codes ("check" ∷ "m" ∷ "" ∷ []) ∷ map codes ("check" ∷ "m" ∷ "l" ∷ "k" ∷ []) ∷ [])
        ≡ None ∷ None ∷ None ∷ [] }
    ensures no_option_of_check { map request_of (map codes ("check" ∷ "m" ∷ "--log" ∷ "l" ∷ []) ∷ map codes ("check" ∷ "--budget=3" ∷ "m" ∷ "l" ∷ []) ∷ [])
        ≡ None ∷ None ∷ [] }
    ensures model { model_of (map codes ("solve" ∷ "--budget" ∷ "3" ∷ "m" ∷ [])) ≡ Some (codes "m") }
    ensures no_command { map request_of ([] ∷ map codes ("" ∷ "m" ∷ []) ∷ map codes ("Solve" ∷ "m" ∷ []) ∷ map codes ("trees" ∷ "m" ∷ []) ∷ []) ≡ None ∷ None ∷ None ∷ None ∷ [] }
    ensures no_model { map request_of (map codes ("solve" ∷ []) ∷ map codes ("solve" ∷ "" ∷ []) ∷ map codes ("solve" ∷ "--" ∷ "m" ∷ []) ∷ map codes ("tree" ∷ "-m" ∷ []) ∷ [])
        ≡ None ∷ None ∷ None ∷ None ∷ [] }
    ensures two_models { map request_of (map codes ("solve" ∷ "m" ∷ "m" ∷ []) ∷ map codes ("tree" ∷ "m" ∷ "n" ∷ []) ∷ []) ≡ None ∷ None ∷ [] }
    ensures no_value { map request_of (map codes ("solve" ∷ "m" ∷ "--log" ∷ []) ∷ map codes ("solve" ∷ "m" ∷ "--budget=" ∷ []) ∷ map codes ("solve" ∷ "--log" ∷ "--budget" ∷ "3" ∷ "m" ∷ []) ∷ [])
        ≡ None ∷ None ∷ None ∷ [] }
    ensures no_budget { map request_of (map codes ("solve" ∷ "--budget" ∷ "0" ∷ "m" ∷ []) ∷ map codes ("solve" ∷ "m" ∷ "--budget=4294967296" ∷ []) ∷ map codes ("solve" ∷ "--budget=+3" ∷ "m" ∷ []) ∷ [])
        ≡ None ∷ None ∷ None ∷ [] }
    ensures twice { request_of (map codes ("solve" ∷ "--budget=3" ∷ "m" ∷ "--budget" ∷ "4" ∷ [])) ≡ None }
    ensures option_of_another { map request_of (map codes ("tree" ∷ "--budget" ∷ "3" ∷ "m" ∷ []) ∷ map codes ("check" ∷ "--seats" ∷ "2" ∷ "m" ∷ "l" ∷ []) ∷ []) ≡ None ∷ None ∷ [] }
{}

/// How words say the seats of a search and their order.
pub fn worked_seats()
    ensures seats { request_of (map codes ("solve" ∷ "m" ∷ "--seats" ∷ "64" ∷ [])) ≡ Some (asks_seats 64 None None) }
    ensures order { request_of (map codes ("solve" ∷ "--order=0" ∷ "--seats=2" ∷ "m" ∷ [])) ≡ Some (asks_seats 2 (Some 0) None) }
    ensures branch { request_of (map codes ("solve" ∷ "--branch" ∷ "b" ∷ "--order" ∷ "2147483647" ∷ "m" ∷ [])) ≡ Some (asks_seats 1 (Some 2147483647) (Some (codes "b"))) }
    ensures no_seats { map request_of (map codes ("solve" ∷ "--seats" ∷ "0" ∷ "m" ∷ []) ∷ map codes ("solve" ∷ "--seats=65" ∷ "m" ∷ []) ∷ map codes ("solve" ∷ "--seats" ∷ "2x" ∷ "m" ∷ []) ∷ [])
        ≡ None ∷ None ∷ None ∷ [] }
    ensures no_order { map request_of (map codes ("solve" ∷ "--order" ∷ "2147483648" ∷ "m" ∷ []) ∷ map codes ("solve" ∷ "--order=" ∷ "m" ∷ []) ∷ map codes ("solve" ∷ "m" ∷ "--order" ∷ []) ∷ [])
        ≡ None ∷ None ∷ None ∷ [] }
    ensures twice { map request_of (map codes ("solve" ∷ "--seats=2" ∷ "m" ∷ "--seats=2" ∷ []) ∷ map codes ("solve" ∷ "--branch=a" ∷ "--branch=a" ∷ "m" ∷ []) ∷ []) ≡ None ∷ None ∷ [] }
{}

/// Which brancher is asked: of two with one name the first one, the first of all where no name is given, and none where there is none. A name
/// that no one has is not of the form.
pub fn worked_branchers()
    ensures named { option_map rule_asked (asked_of three_kinds (map codes ("solve" ∷ "--branch" ∷ "twice" ∷ "m" ∷ []))) ≡ Some (Some lower) }
    ensures first { option_map rule_asked (asked_of three_kinds (map codes ("solve" ∷ "m" ∷ []))) ≡ Some (Some widest) }
    ensures none { option_map rule_asked (asked_of [] (map codes ("solve" ∷ "m" ∷ []))) ≡ Some None }
    ensures nobody { asked_of three_kinds (map codes ("solve" ∷ "--branch=third" ∷ "m" ∷ [])) ≡ None }
    ensures of_none { asked_of [] (map codes ("solve" ∷ "--branch=first" ∷ "m" ∷ [])) ≡ None }
{}
