ghost use Rattle.std.specs.Prelude.{ℕ, List};
ghost use Rattle.certificates.specs.Laws.{ACertificateOrABadLine, OneReading};

/// Bytes spell a certificate or have a bad line.
pub fn a_certificate_or_a_bad_line()
    ensures { ACertificateOrABadLine }
{}

/// Bytes spell one certificate or have one bad line, and not both.
pub fn one_reading()
    ensures { (bytes : List ℕ) → OneReading bytes }
{}
