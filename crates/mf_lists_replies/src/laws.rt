//! Answers that are worked out by hand. The function does nothing: its contract is what they are shown as.

ghost use Rattle.std.specs.Prelude.{◌≡◌, ◌++◌, ◌∷◌, [], codes, Some, None, Ok, Err};
ghost use Rattle.mf_base.specs.declared.fault.Fault.TheVariants.{F4};
ghost use Rattle.mf_lists.specs.declared.answer.ListAnswer.TheVariants.{Listed, Previewed};
ghost use Rattle.mf_lists.specs.declared.answer.ListTold.TheVariants.{ClientLines, ClientLoans, DueLines, StageLines};
ghost use Rattle.mf_lists.specs.declared.answer.ListTold.TheVariants.{StaffLines, ChangeLines, TakingLines};
ghost use Rattle.mf_lists.specs.WorkedLists.{amina, binta, loans_of_amina, due_of_amina, later_of_binta, stage_of};
ghost use Rattle.mf_lists.specs.WorkedLists.{worked_day, zola_and_yemi};
ghost use Rattle.mf_lists.specs.WorkedPreview.{worked_loan};
ghost use Rattle.mf_lists.specs.WorkedTakings.{takings_of_teller};
ghost use Rattle.mf_lists_replies.specs.Shown.{list_body, shown_list};
ghost use Rattle.mf_lists_replies.specs.Worked.{clients_shown, loans_shown, due_shown, stages_shown, staff_shown};
ghost use Rattle.mf_lists_replies.specs.Worked.{preview_up_to_rate, takings_shown};

/// Each list of a small institution, a list without lines, a preview with a rate and without one, and a line of each
/// kind.
pub fn worked_answers_shown()
    ensures clients { list_body (Listed 2 (ClientLines (amina ∷ binta ∷ []))) ≡ clients_shown }
    ensures loans { list_body (Listed 2 (ClientLoans loans_of_amina)) ≡ loans_shown }
    ensures due { list_body (Listed 2 (DueLines (due_of_amina ∷ later_of_binta ∷ []))) ≡ due_shown }
    ensures stages { list_body (Listed 2 (StageLines (stage_of 1 1 (codes "Amina") None
        ∷ stage_of 5 3 (codes "Chidi") (Some worked_day) ∷ []))) ≡ stages_shown }
    ensures staff { list_body (Listed 2 (StaffLines zola_and_yemi)) ≡ staff_shown }
    ensures takings { list_body (Listed 2 (TakingLines (takings_of_teller ∷ []))) ≡ takings_shown }
    ensures no_changes { list_body (Listed 2 (ChangeLines [])) ≡ codes "{\"changes\":[]}" }
    ensures empty { list_body (Listed 3 (ClientLines [])) ≡ codes "{\"clients\":[]}" }
    ensures preview { list_body (Previewed worked_loan) ≡ preview_up_to_rate ++ codes "2786}" }
    ensures no_rate { list_body (Previewed (record worked_loan { rate = None })) ≡ preview_up_to_rate
        ++ codes "null}" }
    ensures line { shown_list (Ok (Listed 3 (ClientLines []))) ≡ codes "200 {\"clients\":[]}" ++ 10 ∷ [] }
    ensures refused { shown_list (Err F4) ≡ codes "404 {\"fault\":\"F4\"}" ++ 10 ∷ [] }
{}
