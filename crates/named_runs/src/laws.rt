//! Laws of what is written of a run.

ghost use Rattle.std.specs.Prelude.{◌≡◌, ◌∷◌, []};
ghost use Rattle.seq_objects.specs.Objects.{kind_spec};
ghost use Rattle.byte_streams.specs.declared.status.Status.TheVariants.{Fine, Found};
ghost use Rattle.seq_objects.specs.declared.kind.Kind.TheVariants.{Queue};
ghost use Rattle.reports.specs.Cases.{pending, of_queue, worked};
ghost use Rattle.named_runs.specs.declared.form.Form.TheVariants.{Counts as Numbers};
ghost use Rattle.named_runs.specs.Runs.{IsRunOutput, counts_text, StatusesTellErrors, FormsWriteOneText, CertificatesAreLegal, CertificatesAreOfTheirKind, CertificatesTellOneBook};

/// Of each report at most one text is written in the form `Report`, and at most one in the form
/// `Counts`.
pub fn a_report_and_its_counts_have_one_text()
    ensures { FormsWriteOneText }
{}

/// Whoever reads a certificate of a report reads the report's kind, and an order of the book of
/// what was delivered that is legal for the object by which the report was judged. Where this is
/// the object of the report's kind, the order is legal for the kind that the certificate names. Two
/// certificates of a report may differ in their orders alone.
pub fn certificates_are_legal_and_tell_one_book()
    // Whoever reads a certificate of a report reads the report's kind, and an order of its book
    // that is legal for the object that the report was judged by.
    ensures legal { CertificatesAreLegal }
    // Where a report was judged by the object of its kind, the order in its certificate is legal
    // for the kind that the certificate names.
    ensures of_their_kind { CertificatesAreOfTheirKind }
    // Whoever reads two certificates of a report reads the same kind and the same book in both.
    ensures one_book { CertificatesTellOneBook }
{}

/// An output has the status `Found` where a line of its report is an error, and else `Fine`.
#[tactic(auto, using(crate::proofs::Statuses::statuses_tell_errors))]
pub fn statuses_tell_errors()
    ensures { StatusesTellErrors }
{}

/// Worked outputs: the counts of a report with an error, and of one without, each with its status
/// and with no other status or text; and no output where there is no report.
#[tactic(auto, using(crate::proofs::Statuses::found, crate::proofs::Statuses::not_fine, crate::proofs::Statuses::fine, crate::proofs::Statuses::not_found, crate::proofs::Statuses::no_text, crate::proofs::Statuses::no_report))]
pub fn outputs_have_their_status()
    // The counts of a report with an error are written with the status `Found`.
    ensures found { IsRunOutput (kind_spec Queue) (λ report. report ≡ worked) Numbers Found
        (counts_text (record { calls = 4; delivered = 1; errors = 1 })) }
    // The counts of a report with an error aren't written with the status `Fine`.
    ensures not_fine { ¬ IsRunOutput (kind_spec Queue) (λ report. report ≡ worked) Numbers Fine
        (counts_text (record { calls = 4; delivered = 1; errors = 1 })) }
    // The counts of a report without an error are written with the status `Fine`.
    ensures fine { IsRunOutput (kind_spec Queue)
        (λ report. report ≡ of_queue ((pending 5 ∷ []) ∷ [])) Numbers Fine
        (counts_text (record { calls = 1; delivered = 0; errors = 0 })) }
    // The counts of a report without an error aren't written with the status `Found`.
    ensures not_found { ¬ IsRunOutput (kind_spec Queue)
        (λ report. report ≡ of_queue ((pending 5 ∷ []) ∷ [])) Numbers Found
        (counts_text (record { calls = 1; delivered = 0; errors = 0 })) }
    // The empty text is no output of the worked report's counts.
    ensures no_text { ¬ IsRunOutput (kind_spec Queue) (λ report. report ≡ worked) Numbers Found [] }
    // A run without a report has no output.
    ensures no_report { ¬ IsRunOutput (kind_spec Queue) (λ report. ⊥) Numbers Fine
        (counts_text (record { calls = 0; delivered = 0; errors = 0 })) }
{}
