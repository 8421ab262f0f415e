ghost use Rattle.std.specs.Prelude.{◌<◌, ◌^◌, length, IfErr, IfOk};
ghost use Rattle.flow_certificate.specs.Certificates.{IsFormFault};
ghost use Rattle.file_rows.specs.Judging.{IsJudged};

use flow_certificate::{CertVerdict, FormFault, read_certificate, verify};
use std::alloc::Global;

/// The verdict on the certificate of which a file is the text, or the first line of the file that fails.
pub fn verdict_on(alloc: Global, file: &[u8]) -> Result<CertVerdict, FormFault>
    requires { length file.now < 2 ^ 32 }
    ensures verdict { IfOk result (λ verdict. IsJudged file.now verdict) }
    ensures fault { IfErr result (λ fault. IsFormFault file.now fault) }
{
    let certificate = read_certificate(alloc, file)?;
    Ok(verify(&certificate))
}
