//! Laws of the texts of certificates. Each is the contract of a function with nothing in it.

ghost use Rattle.certificate_text.specs.Laws.{OneCertificatePerText, OneTextPerCertificate, OneFirstFault, NoFaultOfAText, ATextIsItsLines, NoTextBeginsAnother, FirstFaultsLeaveTexts};

/// Bytes are the text of one certificate at most.
pub fn one_certificate_per_text()
    ensures { OneCertificatePerText }
{}

/// A certificate has one text at most.
pub fn one_text_per_certificate()
    ensures { OneTextPerCertificate }
{}

/// Bytes have one first fault at most.
pub fn one_first_fault()
    ensures { OneFirstFault }
{}

/// A certificate's text has no fault.
pub fn no_fault_of_a_text()
    ensures { NoFaultOfAText }
{}

/// Bytes are read as a certificate exactly where they are what is written of it.
pub fn a_text_is_its_certificates_lines()
    ensures { ATextIsItsLines }
{}

/// No text of a certificate is a proper prefix of another's.
pub fn no_certificate_text_begins_another()
    ensures { NoTextBeginsAnother }
{}

/// A first fault is where the bytes stop being the beginning of a certificate's text: some text
/// begins with the lines before the fault's line, and none begins with these and that line; or that
/// line isn't whole, or bytes follow a whole text.
pub fn first_faults_leave_texts()
    ensures { FirstFaultsLeaveTexts }
{}
