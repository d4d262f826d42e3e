//! Laws of the certificates of reports. Each is the contract of a function with nothing in it.

ghost use Rattle.named_runs.specs.CertificateLaws.{LawfulReportsHaveAnOrder, CertificatesNeedAnOrder, DeliveredRepliesStandInTheOrder, CertificatesAreRead, CertificatesHaveOneBook};

/// What was delivered in a lawful report has a legal order, and each legal order of it has each
/// delivered reply. A report has no certificate where what was delivered has no legal order.
pub fn lawful_reports_have_certificates()
    // The book of what a lawful report delivered has a legal order.
    ensures order { LawfulReportsHaveAnOrder }
    // A report has a certificate only where the book of what was delivered has a legal order.
    ensures only { CertificatesNeedAnOrder }
    // Each delivered reply of a lawful report is in each legal order of what was delivered.
    ensures replies { DeliveredRepliesStandInTheOrder }
{}

/// Whoever reads a certificate of a report reads the report's kind, the one book of what was
/// delivered, and a legal order of this book.
pub fn certificates_tell_of_what_was_delivered()
    // A text that is a certificate of a report has the report's kind, the book of what was
    // delivered, and a legal order of it.
    ensures read { CertificatesAreRead }
    // All certificates of a report are of one book.
    ensures one_book { CertificatesHaveOneBook }
{}
