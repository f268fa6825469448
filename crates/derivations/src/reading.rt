// The reading of a certificate's text.
ghost use Rattle.olm_base.specs.Outcome.{Gives};
ghost use Rattle.derivations.specs.Reading.{is_free, certificate_of};

mod cert_text;
mod cuts;
mod each;
mod lines;
mod rows;
mod tokens;

use crate::Certificate;
pub use cert_text::CertText;
use std::alloc::Global;

/// Reads a certificate. Only the one spelling that `write_certificate` gives is read, and the answer is else the first
/// fault of the text.
pub fn read_certificate(alloc: Global, text: &[u8]) -> Result<Certificate, CertText>
    ensures { Gives is_free (certificate_of text.now) result }
{
    lines::certificate(alloc, text)
}
